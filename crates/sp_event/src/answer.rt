// Answers.
ghost use Rattle.std.specs.Prelude.{◌≡◌, IfOk};

use sp_list::{Duplicate, Sequence};
use sp_locks::{Mode, Name, SessionId, Sessions};
use sp_rect::Reply;
use sp_waits::Cycle;
use std::alloc::{AllocError, Global};

/// Why an event was refused.
#[derive(Clone, Copy, Debug, PartialEq, Eq)]
pub enum Why {
    /// The session has a transaction.
    InTxn,
    /// The session has no transaction.
    NoTxn,
    /// The session's transaction is at something else.
    Busy,
    /// The operation is in another phase.
    Phase,
}

/// Which limit is reached.
#[derive(Clone, Copy, Debug, PartialEq, Eq)]
pub enum Kind {
    /// Open transactions.
    Transactions,
    /// Commits and deadlocks that are kept.
    Commits,
    /// Operations of one transaction.
    Operations,
    /// Operations that are kept.
    History,
    /// Records in replies that are kept.
    Replies,
    /// Entries in the tree.
    Entries,
    /// Numbers.
    Numbers,
}

/// What a kernel answers to an event.
#[derive(Drop)]
pub enum Answer {
    /// A transaction is open; `seen` places were taken.
    Began {
        txn: u64,
        seen: u64,
    },
    /// The operation is kept.
    Started,
    /// The lock is held, or none was asked.
    Granted,
    /// So many locks are needed.
    Planned(u64),
    /// The operation is done.
    Reply(Reply),
    /// The transaction counts, and has this place in the order of commit.
    Committed(u64),
    /// The transaction joined the next batch.
    Queued,
    /// The transaction is undone.
    RolledBack,
    /// The request for the mode on the name waits for these sessions.
    Waits(Name, Mode, Sessions),
    /// Waiting would have closed this cycle, and the transaction is undone.
    Deadlock(Cycle),
    /// The session still waits on the name.
    Still(Name),
    /// The session holds the latch.
    LatchBusy(SessionId),
    /// The event can't be now.
    Refused(Why),
    /// The limit is reached.
    Full(Kind),
    /// One disk call of the batch was made.
    Wrote,
    /// The batch is on the disk: its commits have these places.
    Durable {
        first: u64,
        count: u64,
    },
    /// There is nothing to do.
    Nothing,
    /// The dead entry is removed.
    Removed(u64),
    /// The dead entry stays, since the session holds a lock on the granule.
    Later {
        granule: u64,
        holder: SessionId,
        mode: Mode,
    },
    /// An earlier disk call failed, at the entry of this offset.
    Stopped(u64),
    /// A disk call failed.
    DiskFault,
    /// There was no memory, and nothing changed.
    Memory,
}

impl Duplicate for Answer {
    fn copy(&self, alloc: Global) -> Result<Answer, AllocError> {
        match self {
            Answer::Reply(reply) => Ok(Answer::Reply(reply.copy(alloc)?)),
            Answer::Waits(name, mode, sessions) => Ok(Answer::Waits(
                *name,
                *mode,
                copied(alloc, sessions.as_slice())?,
            )),
            Answer::Deadlock(cycle) => Ok(Answer::Deadlock(copied(alloc, cycle.as_slice())?)),
            Answer::Began { txn, seen } => Ok(Answer::Began {
                txn: *txn,
                seen: *seen,
            }),
            Answer::Started => Ok(Answer::Started),
            Answer::Granted => Ok(Answer::Granted),
            Answer::Planned(count) => Ok(Answer::Planned(*count)),
            Answer::Committed(place) => Ok(Answer::Committed(*place)),
            Answer::Queued => Ok(Answer::Queued),
            Answer::RolledBack => Ok(Answer::RolledBack),
            Answer::Still(name) => Ok(Answer::Still(*name)),
            Answer::LatchBusy(holder) => Ok(Answer::LatchBusy(*holder)),
            Answer::Refused(why) => Ok(Answer::Refused(*why)),
            Answer::Full(kind) => Ok(Answer::Full(*kind)),
            Answer::Wrote => Ok(Answer::Wrote),
            Answer::Durable { first, count } => Ok(Answer::Durable {
                first: *first,
                count: *count,
            }),
            Answer::Nothing => Ok(Answer::Nothing),
            Answer::Removed(entry) => Ok(Answer::Removed(*entry)),
            Answer::Later {
                granule,
                holder,
                mode,
            } => Ok(Answer::Later {
                granule: *granule,
                holder: *holder,
                mode: *mode,
            }),
            Answer::Stopped(offset) => Ok(Answer::Stopped(*offset)),
            Answer::DiskFault => Ok(Answer::DiskFault),
            Answer::Memory => Ok(Answer::Memory),
        }
    }
}

// The members as a list of its own.
fn copied<T: Copy + Drop>(alloc: Global, members: &[T]) -> Result<Sequence<T>, AllocError>
    ensures { IfOk result (λ list. list ≡ members.now) }
{
    Ok(Sequence::from_vec(Vec::from_slice(alloc, members)?))
}
