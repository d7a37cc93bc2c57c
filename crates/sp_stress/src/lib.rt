//! A generated script is played in memory, and summed up in six numbers.
#![tactic(auto)]

mod generated;
mod silent;
mod stressing;
mod summing;

pub use stressing::stress;
