// Sessions that have a transaction.

use crate::NeedsLeft;
use sp_rect::Op;
use sp_txn::Txn;

/// What a session that has a transaction is at. The needs of a planned operation are those that are left
/// to ask.
#[derive(Drop)]
pub enum Stage {
    /// It has no operation.
    Idle,
    /// It has an operation, which has asked for nothing.
    Started(Op),
    /// The operation waits, or has waited, for the lock on its object.
    NameWait(Op),
    /// The operation holds the lock on its object, where it asks one.
    Named(Op),
    /// The operation waits, or has waited, for one of its needs, and plans again.
    NeedWait(Op),
    /// The operation holds the latch, and these of its needs are left to ask.
    Planned(Op, NeedsLeft),
    /// The transaction waits to be on the disk.
    Queued,
    /// The transaction is on the disk and has its place.
    Placed,
}

/// A session that has a transaction.
#[derive(Drop)]
pub struct Session {
    pub txn: Txn,
    pub stage: Stage,
}
