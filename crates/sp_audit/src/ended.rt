// Transactions that a deadlock ended.
use sp_list::{Duplicate, Sequence};
use sp_waits::Cycle;
use std::alloc::{AllocError, Global};

/// A transaction that was ended, since its wait would have closed a cycle.
#[derive(Drop)]
pub struct Ended {
    /// Its transaction number, from 1.
    pub txn: u64,
    /// The cycle, from the session that asked.
    pub cycle: Cycle,
}

impl Duplicate for Ended {
    fn copy(&self, alloc: Global) -> Result<Ended, AllocError> {
        let cycle = Cycle::from_vec(Vec::from_slice(alloc, self.cycle.as_slice())?);
        Ok(Ended {
            txn: self.txn,
            cycle,
        })
    }
}

/// Ended transactions, in the order of their end.
pub type Endings = Sequence<Ended>;
