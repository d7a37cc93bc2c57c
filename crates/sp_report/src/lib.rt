//! What is told of a journal: its records, its counts, and what became of it.
#![tactic(auto)]

mod report;

pub use report::{check_text, compact_text, dump_text};

#[cfg(test)]
mod tests;
