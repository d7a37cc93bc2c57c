// Committed transactions.
use crate::Pairs;
use sp_list::{Duplicate, Sequence};
use std::alloc::{AllocError, Global};

/// A committed transaction.
#[derive(Drop)]
pub struct Commit {
    /// The session that ran it.
    pub session: u32,
    /// Its transaction number, from 1.
    pub txn: u64,
    /// How many places were taken when it began.
    pub seen: u64,
    /// Its place in the order of commit, from 1.
    pub place: u64,
    /// What it did and what it was told.
    pub ops: Pairs,
}

impl Duplicate for Commit {
    fn copy(&self, alloc: Global) -> Result<Commit, AllocError> {
        let ops = self.ops.copy(alloc)?;
        Ok(Commit {
            session: self.session,
            txn: self.txn,
            seen: self.seen,
            place: self.place,
            ops,
        })
    }
}

/// Committed transactions, by place.
pub type Commits = Sequence<Commit>;
