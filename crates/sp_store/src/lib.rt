//! A kernel over the two files of one journal.
#![tactic(auto)]

mod laws;
mod store;

pub use laws::{two_files_hold_what_the_current_one_does, what_keeps_its_kind_stays_current};
pub use store::{Store, open_store};
