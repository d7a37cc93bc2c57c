//! The journal: commits on a disk that may stop at any moment.
#![tactic(auto)]

mod attach;
mod chain;
mod contents;
mod create;
mod decode;
mod encode;
mod entry;
mod frames;
mod inspection;
mod journal;
mod kind;
mod laws;
mod payload;
mod scan;
mod scanned;
#[cfg(test)]
mod tests;
mod turn;
mod types;
mod work;

pub use encode::checkpoint;
pub use inspection::inspect;
pub use journal::Journal;
pub use kind::{Kind, kind_on, write_header};
pub use laws::{outcome_is_one, what_is_held_ascends};
pub use scan::scan_file;
pub use scanned::Scan;
pub use types::{Call, JournalError, Recovered};
