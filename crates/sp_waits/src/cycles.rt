// The cycle that a wait would close.
ghost use Rattle.std.specs.Prelude.{◌≡◌, None, Some, true, IfOk, unwrap_or};
ghost use Rattle.sp_locks.specs.Rows.{waiting_in};
ghost use Rattle.sp_locks.specs.Soundness.{IsSound};
ghost use Rattle.sp_locks.specs.Table.{held};
ghost use Rattle.sp_waits.specs.Edges.{member, once_waiting};
ghost use Rattle.sp_waits.specs.Search.{waits_for};
ghost use Rattle.sp_waits.specs.Cycles.{blocking_mode, IsEdge, IsToldCycle};
ghost use Rattle.sp_waits.specs.Ways.{IsWay, AreEdges};

use crate::edge::{Cycle, Edge};
use crate::graph::graph;
use crate::levels::{path, search};
use crate::request::Request;
use sp_locks::{Mode, Name, SessionId, Table, compatible};
use std::alloc::{AllocError, Global};

// What the session asks for once the request waits.
fn asked_by(table: &Table, request: &Request, session: SessionId) -> Request
    requires sound { IsSound table.now }
    requires awake { waiting_in request.now.session table.now ≡ None }
    ensures { (row : _) → waiting_in session (once_waiting request.now.session request.now.name request.now.mode table.now) ≡ Some row
        → (result.name ≡ row.name) × (result.mode ≡ row.mode) }
{
    if session == request.session {
        return *request;
    }
    match table.waiting(session) {
        Some(row) => Request {
            session,
            name: row.name,
            mode: row.mode,
        },
        None => *request,
    }
}

// What a session has that blocks a request for the mode on the name, and whether it waits for it.
fn blocking(table: &Table, session: SessionId, name: Name, wanted: Mode) -> (Mode, bool)
    ensures { result ≡ unwrap_or (blocking_mode wanted (held session name table.now) (waiting_in session table.now)) (wanted, true) }
{
    match table.held(session, name) {
        Some(mode) if !compatible(wanted, mode) => (mode, false),
        _ => match table.waiting(session) {
            Some(row) => (row.mode, true),
            None => (wanted, true),
        },
    }
}

// The edge from a session to one for which it waits, once the request waits.
fn edge_between(table: &Table, request: &Request, from: SessionId, to: SessionId) -> Edge
    requires sound { IsSound table.now }
    requires awake { waiting_in request.now.session table.now ≡ None }
    requires waits { member to (waits_for table.now request.now.session request.now.name request.now.mode from) ≡ true }
    ensures edge { IsEdge (once_waiting request.now.session request.now.name request.now.mode table.now) result }
    ensures from { result.from ≡ from }
    ensures to { result.to ≡ to }
{
    let asked = asked_by(table, request, from);
    let (has, waiting) = blocking(table, to, asked.name, asked.mode);
    Edge {
        from,
        to,
        name: asked.name,
        wanted: asked.mode,
        has,
        waiting,
    }
}

// The edges along a way.
fn edges_along(
    alloc: Global,
    table: &Table,
    request: &Request,
    path: &[SessionId],
) -> Result<Cycle, AllocError>
    requires sound { IsSound table.now }
    requires awake { waiting_in request.now.session table.now ≡ None }
    requires way { IsWay (waits_for table.now request.now.session request.now.name request.now.mode) request.now.session path.now }
    ensures { IfOk result (AreEdges (once_waiting request.now.session request.now.name request.now.mode table.now) request.now.session path.now) }
{
    let mut told = Cycle::new(alloc);
    let mut from = request.session;
    for to in path {
        told.push(edge_between(table, request, from, *to))?;
        from = *to;
    }
    Ok(told)
}

/// The cycle that a wait of the session for the mode on the name would close: `None` exactly where
/// it would close none. It starts at the session; it is a shortest one, and of those the one whose
/// list of session numbers is least. Its edges are those of the table with the wait.
///
/// Costs the rows on the names where sessions wait, and for each step of the cycle a look at every
/// edge between sessions that wait.
pub fn cycle(
    alloc: Global,
    table: &Table,
    session: SessionId,
    name: Name,
    mode: Mode,
) -> Result<Option<Cycle>, AllocError>
    requires awake { waiting_in session table.now ≡ None }
    ensures { IfOk result (λ told. IsToldCycle table.now session name mode told) }
{
    let request = Request {
        session,
        name,
        mode,
    };
    let _ = table.on(name);
    let graph = graph(alloc, table, &request)?;
    match search(alloc, graph.as_slice(), session)? {
        Some(levels) => {
            let path = path(alloc, graph.as_slice(), &levels, session)?;
            Ok(Some(edges_along(alloc, table, &request, path.as_slice())?))
        }
        None => Ok(None),
    }
}
