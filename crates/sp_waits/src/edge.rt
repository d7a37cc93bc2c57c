// An edge of who waits for whom.

use sp_list::Sequence;
use sp_locks::{Mode, Name, SessionId};

/// One session waits for another: the first wants a mode on a name, and the second has one there
/// that is incompatible. What it has is the mode that it holds there if that is incompatible, else
/// the one for which it waits there.
#[derive(Clone, Copy, Debug, PartialEq, Eq)]
pub struct Edge {
    pub from: SessionId,
    pub to: SessionId,
    pub name: Name,
    pub wanted: Mode,
    pub has: Mode,
    pub waiting: bool,
}

/// Edges, each of which ends where the next starts; the last ends where the first starts.
pub type Cycle = Sequence<Edge>;
