// How far each session is from the one that is to wait.
ghost use Rattle.std.specs.Prelude.{◌≡◌, ◌≤◌, ◌<◌, ◌^◌, ◌+◌, length, IfOk};
ghost use Rattle.sp_waits.specs.Levels.{edges_of, is_at as stands_at, is_reached as stands_in, leads_to, is_new as is_next, level, least, lesser as lesser_of, next_at, path_of, IsGraph, AreLevels};
ghost use Rattle.sp_waits.specs.Levelled.{IsSearched};

use crate::graph::Node;
use sp_locks::{SessionId, Sessions};
use std::alloc::{AllocError, Global};

/// A session that is reached in so many steps, going back along edges.
#[derive(Clone, Copy)]
pub(crate) struct Step {
    pub(crate) session: SessionId,
    pub(crate) steps: usize,
}

/// The sessions that are reached, and how many steps the farthest of them takes.
#[derive(Drop)]
pub(crate) struct Levels {
    pub(crate) reached: Vec<Step>,
    pub(crate) steps: usize,
}

fn is_at(reached: &[Step], session: SessionId, steps: usize) -> bool
    ensures { result ≡ stands_at session steps reached.now }
{
    reached
        .iter()
        .any(|step| (step.session == session) & (step.steps == steps))
}

fn is_reached(reached: &[Step], session: SessionId) -> bool
    ensures { result ≡ stands_in session reached.now }
{
    reached.iter().any(|step| step.session == session)
}

// Whether some of the sessions is reached in that many steps.
fn leads(sessions: &[SessionId], reached: &[Step], steps: usize) -> bool
    ensures { result ≡ leads_to steps reached.now sessions.now }
{
    sessions
        .iter()
        .any(|session| is_at(reached, *session, steps))
}

fn is_new(node: &Node, reached: &[Step], steps: usize) -> bool
    ensures { result ≡ is_next steps reached.now node.now }
{
    !is_reached(reached, node.session) & leads(node.waits_for.as_slice(), reached, steps)
}

// The sessions that are one step farther.
fn next_level(
    alloc: Global,
    graph: &[Node],
    reached: &[Step],
    steps: usize,
) -> Result<Vec<Step>, AllocError>
    requires { steps < 2 ^ 63 }
    ensures { IfOk result (λ found. found.items ≡ level steps reached.now graph.now) }
{
    let mut found = Vec::new(alloc);
    for node in graph {
        if is_new(node, reached, steps) {
            found.push(Step {
                session: node.session,
                steps: steps + 1,
            })?;
        }
    }
    Ok(found)
}

/// Goes back along edges from the session, level by level, until it is met again: `None` exactly
/// where it never is.
pub(crate) fn search(
    alloc: Global,
    graph: &[Node],
    session: SessionId,
) -> Result<Option<Levels>, AllocError>
    requires { IsGraph graph.now }
    ensures { IfOk result (λ found. IsSearched graph.now session found) }
{
    let start = waits_of(graph, session);
    let mut reached = Vec::new(alloc);
    reached.push(Step { session, steps: 0 })?;
    let mut steps = 0;
    'back: while !leads(start, reached.as_slice(), steps) {
        let level = next_level(alloc, graph, reached.as_slice(), steps)?;
        if level.is_empty() {
            return Ok(None);
        }
        reached.extend_from_slice(level.as_slice())?;
        steps += 1;
    }
    Ok(Some(Levels { reached, steps }))
}

// The sessions for which this one waits.
fn waits_of(graph: &[Node], session: SessionId) -> &[SessionId]
    ensures { result.now ≡ edges_of graph.now session }
{
    for node in graph {
        if node.session == session {
            return node.waits_for.as_slice();
        }
    }
    &[]
}

// The least of the sessions that is reached in that many steps.
fn least_at(sessions: &[SessionId], reached: &[Step], steps: usize) -> Option<SessionId>
    ensures { result ≡ least (λ v. stands_at v steps reached.now) sessions.now }
{
    let mut found = None;
    'back: for i in (0..sessions.len()).rev() {
        let session = sessions[i];
        if is_at(reached, session, steps) {
            found = Some(lesser(session, found));
        }
    }
    found
}

fn lesser(session: SessionId, other: Option<SessionId>) -> SessionId
    ensures { result ≡ lesser_of session other }
{
    match other {
        Some(other) if other < session => other,
        _ => session,
    }
}

fn next_step(graph: &[Node], reached: &[Step], steps: usize, session: SessionId) -> SessionId
    ensures { result ≡ next_at graph.now reached.now steps session }
{
    least_at(waits_of(graph, session), reached, steps).unwrap_or(session)
}

/// The sessions on the way from this one back to itself, that one last.
pub(crate) fn path(
    alloc: Global,
    graph: &[Node],
    levels: &Levels,
    session: SessionId,
) -> Result<Sessions, AllocError>
    requires { levels.now.steps ≤ length graph.now }
    ensures { IfOk result (λ found. found ≡ path_of graph.now levels.now.reached.items (levels.now.steps + 1) session) }
{
    let mut path = Sessions::new(alloc);
    let mut from = session;
    'down: for steps in (0..levels.steps + 1).rev() {
        from = next_step(graph, levels.reached.as_slice(), steps, from);
        path.push(from)?;
    }
    Ok(path)
}
