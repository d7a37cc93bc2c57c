// Operations and their replies.
use crate::{Record, Records, Rect, Value};
use sp_list::{Duplicate, Sequence};
use std::alloc::{AllocError, Global};

/// One operation on records with distinct ids. `replied` and `after` of `specs/Store.antt` say what it is
/// answered and what it leaves.
#[derive(Drop)]
pub enum Op {
    /// Adds the record, unless its id is there.
    Put(Record),
    /// Removes the record of that id.
    Drop(u64),
    /// Gives the record of that id another value.
    Set(u64, Value),
    /// Reads the record of that id.
    Get(u64),
    /// Reads the records that meet the rectangle.
    Find(Rect),
    /// Gives every record that meets the rectangle the value.
    Fill(Rect, Value),
    /// Removes every record that meets the rectangle.
    Clear(Rect),
}

/// The reply to an operation.
#[derive(Drop)]
pub enum Reply {
    /// The record was added, removed or changed.
    Done,
    /// A record of that id is there already.
    Exists,
    /// No record of that id is there.
    Absent,
    /// The record of that id.
    Rec(Record),
    /// The records that meet the rectangle, by ascending id.
    Found(Records),
    /// How many records were changed or removed.
    Count(u64),
}

impl Duplicate for Op {
    fn copy(&self, alloc: Global) -> Result<Op, AllocError> {
        match self {
            Op::Put(record) => Ok(Op::Put(record.copy(alloc)?)),
            Op::Drop(id) => Ok(Op::Drop(*id)),
            Op::Set(id, value) => Ok(Op::Set(*id, value.copy(alloc)?)),
            Op::Get(id) => Ok(Op::Get(*id)),
            Op::Find(rect) => Ok(Op::Find(*rect)),
            Op::Fill(rect, value) => Ok(Op::Fill(*rect, value.copy(alloc)?)),
            Op::Clear(rect) => Ok(Op::Clear(*rect)),
        }
    }
}

impl Duplicate for Reply {
    fn copy(&self, alloc: Global) -> Result<Reply, AllocError> {
        match self {
            Reply::Done => Ok(Reply::Done),
            Reply::Exists => Ok(Reply::Exists),
            Reply::Absent => Ok(Reply::Absent),
            Reply::Rec(record) => Ok(Reply::Rec(record.copy(alloc)?)),
            Reply::Found(records) => Ok(Reply::Found(records.copy(alloc)?)),
            Reply::Count(count) => Ok(Reply::Count(*count)),
        }
    }
}

/// An operation with the reply that it was given.
#[derive(Drop)]
pub struct Answered {
    pub op: Op,
    pub reply: Reply,
}

impl Duplicate for Answered {
    fn copy(&self, alloc: Global) -> Result<Answered, AllocError> {
        let op = self.op.copy(alloc)?;
        let reply = self.reply.copy(alloc)?;
        Ok(Answered { op, reply })
    }
}

/// Operations with their replies, in the order in which they were done.
pub type Pairs = Sequence<Answered>;
