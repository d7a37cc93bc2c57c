//! The generated scripts, and the summary of playing one.
#![tactic(auto)]

mod draw;
mod numbers;
mod operation;
mod rounds;
mod summary;

pub use rounds::script;
pub use summary::{Summary, push_summary};

#[cfg(test)]
mod tests;
