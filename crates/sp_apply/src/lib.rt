//! The event that does a planned operation.
#![tactic(auto)]

mod applying;
mod counting;
mod ending;
mod gifts;
mod inserting;
mod keeping;
mod marking;
mod planned;
mod putting;
mod staying;
#[cfg(test)]
mod tests;

pub use applying::apply;
