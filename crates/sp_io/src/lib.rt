//! The outside of the programs: the words of a command line, and sources and sinks of bytes, each with a
//! count of its faults, in memory and over std's readers and writers.
#![tactic(auto)]

mod memory;
mod standard;
mod stream;
mod words;

pub use memory::{MemSink, MemSource};
pub use standard::{StdSink, StdSource};
pub use stream::{Got, Sink, Source, Took, WriteFailed, put_all, write_all};
pub use words::Words;

#[cfg(test)]
mod tests;
