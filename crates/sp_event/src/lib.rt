//! What can happen to a kernel, and what it answers: the events, the answers, and steps that pair them.
#![tactic(auto)]

mod answer;
mod event;
mod step;

pub use answer::{Answer, Kind, Why};
pub use event::Event;
pub use step::{Step, Steps};
