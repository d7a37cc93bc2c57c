//! The two files of one journal: which of them is current, and what the two hold together.
#![tactic(auto)]

mod checkpoint;
mod choice;
mod compaction;
mod laws;
mod looking;
mod pair;
mod rewriting;
#[cfg(test)]
mod tests;

pub use choice::Choice;
pub use compaction::compact;
pub use laws::pair_outcome_is_one;
pub use pair::{Chosen, Pair, choose, inspect_pair};
