// Events.
use sp_list::Duplicate;
use sp_locks::SessionId;
use sp_rect::Op;
use std::alloc::{AllocError, Global};

/// One event of a kernel: one atomic step.
#[derive(Drop)]
pub enum Event {
    /// Opens a transaction of the session.
    Begin(SessionId),
    /// Hands the session's transaction an operation.
    Start(SessionId, Op),
    /// Asks for the lock on the operation's object.
    Name(SessionId),
    /// Takes the latch and computes the locks that the operation needs.
    Plan(SessionId),
    /// Asks for the next lock that is needed.
    Ask(SessionId),
    /// Does the operation.
    Apply(SessionId),
    /// Commits the session's transaction, or tells its place.
    Commit(SessionId),
    /// Makes one disk call of the batch in flight.
    Flush,
    /// Ends the session's transaction, and undoes it.
    Rollback(SessionId),
    /// Tries to remove one dead entry.
    Clean,
}

impl Duplicate for Event {
    fn copy(&self, alloc: Global) -> Result<Event, AllocError> {
        match self {
            Event::Begin(session) => Ok(Event::Begin(*session)),
            Event::Start(session, op) => Ok(Event::Start(*session, op.copy(alloc)?)),
            Event::Name(session) => Ok(Event::Name(*session)),
            Event::Plan(session) => Ok(Event::Plan(*session)),
            Event::Ask(session) => Ok(Event::Ask(*session)),
            Event::Apply(session) => Ok(Event::Apply(*session)),
            Event::Commit(session) => Ok(Event::Commit(*session)),
            Event::Flush => Ok(Event::Flush),
            Event::Rollback(session) => Ok(Event::Rollback(*session)),
            Event::Clean => Ok(Event::Clean),
        }
    }
}
