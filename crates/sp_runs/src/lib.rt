//! Runs of a script over a kernel of their own: in memory, or over the two files of a journal; with the audit's line behind the answers where it
//! is asked for, and with the line of a fault.
//!
//! [`run`] runs over a kernel that is there; [`run_in_memory`] and [`run_on_files`] start one first.
#![tactic(auto)]

mod auditing;
mod ending;
mod in_memory;
mod language;
mod listening;
mod on_files;
mod running;

pub use ending::write_last;
pub use in_memory::{Ran, run_in_memory};
pub use language::Language;
pub use on_files::{RanOnFiles, run_on_files};
pub use running::run;
