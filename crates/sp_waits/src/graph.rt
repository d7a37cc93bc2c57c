// The sessions that wait, with those for which each waits, once one more is to wait.
ghost use Rattle.std.specs.Prelude.{◌≡◌, IfOk, map};
ghost use Rattle.sp_locks.specs.Rows.{holds_in, waiting_in};
ghost use Rattle.sp_locks.specs.Soundness.{IsSound};
ghost use Rattle.sp_waits.specs.Edges.{stopping};
ghost use Rattle.sp_waits.specs.Search.{waits_for};
ghost use Rattle.sp_waits.specs.Levels.{edges_of, IsGraph};

use crate::request::Request;
use sp_locks::{Mode, Row, SessionId, Sessions, Table, holds};
use std::alloc::{AllocError, Global};

/// A session and those for which it waits.
#[derive(Drop)]
pub(crate) struct Node {
    pub(crate) session: SessionId,
    pub(crate) waits_for: Sessions,
}

// The sessions that block this one on the rows of a name.
fn blockers_on(
    alloc: Global,
    rows: &[Row],
    session: SessionId,
    mode: Mode,
) -> Result<Sessions, AllocError>
    ensures { IfOk result (λ found. found ≡ stopping (holds_in session rows.now) session mode rows.now) }
{
    let mut holding = holds(rows, session);
    let mut found = Sessions::new(alloc);
    for row in rows {
        if row.is_waiter(session) {
            holding = true;
        } else if row.stops(holding, session, mode) {
            found.push(row.session)?;
        }
    }
    Ok(found)
}

// The sessions for which this one waits.
fn edges(
    alloc: Global,
    table: &Table,
    request: &Request,
    session: SessionId,
) -> Result<Sessions, AllocError>
    ensures { IfOk result (λ found. found
        ≡ waits_for table.now request.now.session request.now.name request.now.mode session) }
{
    if session == request.session {
        return blockers_on(alloc, table.on(request.name), session, request.mode);
    }
    match table.waiting(session) {
        Some(row) => blockers_on(alloc, table.on(row.name), session, row.mode),
        None => Ok(Sessions::new(alloc)),
    }
}

fn node_of(
    alloc: Global,
    table: &Table,
    request: &Request,
    session: SessionId,
) -> Result<Node, AllocError>
    ensures { IfOk result (λ made. made ≡ record {
      session = session;
      waits_for
          = waits_for table.now request.now.session request.now.name request.now.mode session;
    }) }
{
    Ok(Node {
        session,
        waits_for: edges(alloc, table, request, session)?,
    })
}

fn nodes(
    alloc: Global,
    table: &Table,
    request: &Request,
    sessions: &[SessionId],
) -> Result<Vec<Node>, AllocError>
    ensures { IfOk result (λ made. made.items ≡ map (λ u. record {
      session = u;
      waits_for
          = waits_for table.now request.now.session request.now.name request.now.mode u;
    }) sessions.now) }
{
    let mut made = Vec::new(alloc);
    for session in sessions {
        made.push(node_of(alloc, table, request, *session)?)?;
    }
    Ok(made)
}

/// The request's session and all that wait.
pub(crate) fn graph(
    alloc: Global,
    table: &Table,
    request: &Request,
) -> Result<Vec<Node>, AllocError>
    ensures { IfOk result (λ made. (edges_of made.items
        ≡ waits_for table.now request.now.session request.now.name request.now.mode) × IsGraph made.items) }
{
    let mut sessions = table.waiters(alloc)?;
    sessions.push(request.session)?;
    nodes(alloc, table, request, sessions.as_slice())
}
