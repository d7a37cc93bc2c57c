//! How transactions end: rollbacks, commits and the batches of a flush. What they make of the marks on entries, of
//! the dead list, the locks, the sessions, the audit and the counters; and how dead entries leave the tree.
#![tactic(auto)]

mod batch;
mod changes;
mod commits;
mod counts;
mod dead;
mod marks;
mod opposing;
mod queueing;
mod removal;
mod undoing;

pub use batch::{note_call, place_all, take_off};
pub use changes::has_changes;
pub use commits::commit_unchanged;
pub use queueing::{join_queue, tell_place};
pub use removal::clean;
pub use undoing::{roll_back, rollback};
