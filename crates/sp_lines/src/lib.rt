//! A script heard line by line: a `LineReader` takes the lines of a source one by one, and reads on only where no further line has ended, so that
//! a person at a terminal sees each answer; a `Scribe` keeps the answers and writes their texts.
#![tactic(auto)]

mod chunk;
mod fault;
mod reader;
mod scribe;

pub use chunk::MAX_INPUT;
pub use fault::{Fault, end_of};
pub use reader::{LineReader, Next};
pub use scribe::Scribe;
