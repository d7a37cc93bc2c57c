//! Transactions: the phases of a session, what it keeps of its transaction, which entries a transaction
//! sees, and what its commit changes in the plain store.
#![tactic(auto)]

mod commit_changes;
mod phase;
#[cfg(test)]
mod tests;
mod visibility;

pub use commit_changes::changes;
pub use phase::{Phase, Txn};
pub use visibility::{record_for, visible};
