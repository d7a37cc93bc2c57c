// Changes of records.
use sp_list::{Duplicate, Sequence};
use sp_rect::{Record, Value};
use std::alloc::{AllocError, Global};

/// One change of records with distinct ids. `can_change` and `left_by` of `specs/Taking.antt` say where
/// it can be made and what it leaves.
#[derive(Drop)]
pub enum Change {
    /// Adds the record, whose id is not there.
    Put(Record),
    /// Removes the record of that id, which is there.
    Drop(u64),
    /// Gives the record of that id, which is there, another value.
    Set(u64, Value),
}

impl Duplicate for Change {
    fn copy(&self, alloc: Global) -> Result<Change, AllocError> {
        match self {
            Change::Put(record) => Ok(Change::Put(record.copy(alloc)?)),
            Change::Drop(id) => Ok(Change::Drop(*id)),
            Change::Set(id, value) => Ok(Change::Set(*id, value.copy(alloc)?)),
        }
    }
}

/// Changes, in the order in which they are made.
pub type Changes = Sequence<Change>;
