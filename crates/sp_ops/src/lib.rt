//! Operations of transactions on the entries of a tree: which lock an operation asks first, what it replies
//! and marks, and which locks it needs until its transaction ends.
#![tactic(auto)]

mod acting;
mod areas;
mod distinct;
mod effects;
mod marking;
mod needing;
mod object;
mod putting;
mod replies;
mod seen;
mod staying;
mod wants;

pub use acting::effect;
pub use distinct::sees_distinct_ids;
pub use effects::{Effect, Marked};
pub use needing::commit_needs;
pub use object::name_of;
pub use wants::{Want, joined};
