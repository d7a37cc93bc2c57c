// The forms of a text, and whose a line is.
use sp_locks::SessionId;

/// Where a text stands.
#[derive(Clone, Copy, Debug, PartialEq, Eq)]
pub enum Form {
    /// A script of commands: each line begins with its session's name.
    Play,
    /// A script of events: the same.
    Drill,
    /// A link of one session: lines begin with no name, and sessions are named by their numbers.
    Session,
}

/// Whose a line is.
#[derive(Clone, Copy, Debug, PartialEq, Eq)]
pub enum Lead {
    /// The session's.
    Named(SessionId),
    /// That of a line which names no session, written `?`.
    Nobody,
    /// That of an event of no session, written `-`.
    Kernel,
}
