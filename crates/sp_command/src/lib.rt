//! What the words of a command line ask for.
#![tactic(auto)]

mod file_name;
mod options;
mod reader;
mod task;
mod values;
mod words;

pub use file_name::FileName;
pub use task::{Run, Task};
pub use words::read_words;

#[cfg(test)]
mod tests;
