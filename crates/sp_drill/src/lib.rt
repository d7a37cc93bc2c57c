//! A script of events over a kernel: each line is one event, done and answered before the next is heard. Where a batch is on the disk, the
//! program itself adds a commit event for each of its sessions, which tells it its place.
#![tactic(auto)]

mod batch;
mod driller;
mod due;
mod event;
mod script;

pub use driller::Driller;
pub use script::drill;
