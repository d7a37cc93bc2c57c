//! What a command does with the two files of a journal: it fetches them by their names, reads or compacts
//! them, and writes what it found, or the line of the fault that ended it.
//!
//! [`dump`], [`check`] and [`compact`] are the commands. [`fetch_pair`], [`dumped`], [`checked`] and
//! [`compact_pair`] are their steps.
#![tactic(auto)]

mod commands;
mod compacting;
mod ending;
mod fetching;
mod inspecting;
#[cfg(test)]
mod tests;

pub use commands::{Finished, check, compact, dump};
pub use compacting::{Compaction, compact_pair};
pub use ending::FileEnd;
pub use fetching::fetch_pair;
pub use inspecting::{checked, dumped};
