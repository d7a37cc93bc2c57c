//! The audit: the records at opening, the transactions that committed, and those that a deadlock ended.
//! It is always serial, and its text is one line of JSON.
#![tactic(auto)]

mod audit;
mod ended;
mod json;
mod laws;
mod output;
mod row;

pub use audit::Audit;
pub use ended::{Ended, Endings};
pub use laws::next_commit_is_serial;
pub use output::dump;
pub use sp_rect::{Commit, Commits};
pub use sp_waits::{Cycle, Edge};

#[cfg(test)]
mod tests;
