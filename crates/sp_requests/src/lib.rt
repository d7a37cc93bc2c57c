//! The events by which transactions begin, and by which operations start and get their locks.
#![tactic(auto)]

mod asking;
mod beginning;
mod deadlocks;
mod left;
mod naming;
mod needing;
mod places;
mod planning;
mod requesting;
mod starting;

pub use asking::ask;
pub use beginning::begin;
pub use naming::name;
pub use planning::plan;
pub use starting::start;

#[cfg(test)]
mod tests;
