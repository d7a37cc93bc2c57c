//! The state of a kernel in memory: its tree, locks, sessions, lists and audit, and the answers to events that
//! change nothing. The events that change it stand in the crates above.
#![tactic(auto)]

mod holders;
mod limits;
mod refusals;
mod seat;
mod seats;
mod sketch;
mod state;
mod unchanged;

pub use seat::Seat;
pub use seats::{admit, dismiss, place_of};
pub use sketch::{Sketch, take_plan};
pub use state::State;
pub use unchanged::turned_away;
