//! Opening: the state of a kernel over records, in which nothing has happened.
#![tactic(auto)]

mod opening;
mod rebuilding;
#[cfg(test)]
mod tests;

pub use opening::open_state;
