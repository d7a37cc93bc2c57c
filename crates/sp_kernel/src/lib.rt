//! The kernel of a transactional server of rectangles with records: one event after the other, each an atomic step,
//! over a disk that may stop at any moment.
#![tactic(auto)]

mod acting;
mod committing;
mod flushing;
mod kernel;
mod laws;
mod proceeding;

pub use kernel::{Kernel, StartError};
pub use laws::{every_answer_keeps_sound, every_history_is_serial};
