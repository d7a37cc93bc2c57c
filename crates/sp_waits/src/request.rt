// A request that is to wait.

use sp_locks::{Mode, Name, SessionId};

/// A session that is to wait for a mode on a name.
#[derive(Clone, Copy)]
pub(crate) struct Request {
    pub(crate) session: SessionId,
    pub(crate) name: Name,
    pub(crate) mode: Mode,
}
