//! Disks that may stop at any moment: files as a journal sees them, in memory and on the system's
//! disk.
//!
//! A [`Disk`] is one file behind five calls. Contracts see the bytes that a read gives, the files that
//! a stop may leave now or might have left at an earlier moment, and how often the disk has failed.
#![tactic(auto)]

mod disk;
mod file;
mod history;
mod memory;
mod memory_shelf;
mod samples;
mod shelf;
#[cfg(test)]
mod tests;

pub use disk::{Disk, DiskError};
pub use file::{FileDisk, FileShelf};
pub use history::DiskCall;
pub use memory::{HonestDisk, MemDisk};
pub use memory_shelf::MemShelf;
pub use samples::Images;
pub use shelf::{Shelf, ShelfFault};
