//! The laws of granular locking: what needs on granules license a change of the tree, and why transactions
//! whose rectangles are guarded do not see each other. Each law is the contract of a function that does
//! nothing; the definitions stand in specs/, and the lemmas in proofs/ are open to the crates above.
#![tactic(auto)]

mod insertion;
mod licensing;
mod phantoms;
mod removal;
mod replays;
mod standing;

pub use insertion::{insertion_keeps_all, insertions_keep_marks_owned, puts_keep_their_own};
pub use licensing::{
    held_needs_are_unopposed, licensed_change_keeps, needs_license, short_needs_license,
};
pub use phantoms::{changed_entries_are_owned, needs_guard, no_phantom, search_guards};
pub use removal::removals_keep_all;
pub use replays::{
    commits_are_apart, ids_are_distinct, marks_are_owned, operations_apply, order_is_free,
    own_locks_are_enough, rollbacks_are_apart, undisturbed,
};
pub use standing::{entries_stand_once, plans_keep_standings};
