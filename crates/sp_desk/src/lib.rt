//! Commands of many sessions over the kernel: each line of a script is a command, which runs the events that it takes. An operation that has to
//! wait stalls its session, and is gone on with as soon as nobody is in its way any more.
#![tactic(auto)]

mod cleaning;
mod committing;
mod course;
mod desk;
mod point;
mod script;
mod stalled;
mod working;

pub use desk::Desk;
pub use point::Point;
pub use script::play;
pub use stalled::Stalled;

#[cfg(test)]
mod tests;
