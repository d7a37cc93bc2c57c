// Where a session stands, and what it keeps of its transaction.
use sp_locks::SessionId;
use sp_rect::{Pairs, Records2};

/// Where a session stands between two of its events. A session that was never named is `Out`.
#[derive(Clone, Copy, Debug, PartialEq, Eq, Drop)]
pub enum Phase {
    /// It has no transaction.
    Out,
    /// Its transaction has no operation at hand.
    Idle,
    /// An operation is kept, and its object lock is not asked yet.
    Started,
    /// It waits for the object lock.
    NameWait,
    /// It has the object lock, or the operation asks none.
    Named,
    /// It waits for a lock that the operation needs, without the latch, and plans anew.
    NeedWait,
    /// It has the latch, and asks what the operation needs.
    Planned,
    /// Its commit waits for a batch, or for the batch in flight.
    Queued,
    /// Its commit is durable and has its place, and the session has not been told.
    Placed,
}

/// A transaction that has not ended.
#[derive(Drop)]
pub struct Txn {
    /// Its number, by which entries bear its marks.
    pub number: u64,
    /// The session that opened it.
    pub session: SessionId,
    /// How many commits had their places when it was opened.
    pub seen: u64,
    /// Its operations so far, each with its reply, in order.
    pub ops: Pairs,
    /// The rectangles in which it has searched.
    pub searches: Records2,
}
