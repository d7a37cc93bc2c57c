//! The plain store: records by ascending id, on which operations run one at a time. It is what the
//! replies of a server are measured by.
#![tactic(auto)]

mod change;
mod keep;
mod laws;
mod operate;
mod plain;
mod undo;

pub use change::{Change, Changes};
pub use laws::{changes_keep_order, operations_keep_order};
pub use plain::Plain;

#[cfg(test)]
mod tests;
