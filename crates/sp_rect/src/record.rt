// Records, and the plain lists of the workspace.
use crate::{Rect, Value};
use sp_list::{Duplicate, Sequence};
use std::alloc::{AllocError, Global};

/// A record: its id, the rectangle that it stands on, and its value.
#[derive(Drop)]
pub struct Record {
    pub id: u64,
    pub rect: Rect,
    pub value: Value,
}

impl Duplicate for Record {
    fn copy(&self, alloc: Global) -> Result<Record, AllocError> {
        let value = self.value.copy(alloc)?;
        Ok(Record {
            id: self.id,
            rect: self.rect,
            value,
        })
    }
}

/// A list of records.
pub type Records = Sequence<Record>;

/// A list of rectangles.
pub type Records2 = Sequence<Rect>;

/// A list of numbers.
pub type Numbers = Sequence<u64>;
