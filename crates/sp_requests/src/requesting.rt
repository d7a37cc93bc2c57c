// A request for a lock, on the lock table.
ghost use Rattle.std.specs.Prelude.{◌≡◌, ◌≢◌, [], IfOk, OnErr, None};
ghost use Rattle.std.specs.List.{list_any};
ghost use Rattle.sp_locks.specs.Rows.{goes, waiting_in};
ghost use Rattle.sp_locks.specs.Table.{released};
ghost use Rattle.sp_locks.specs.Soundness.{IsSound};
ghost use Rattle.sp_locks.specs.declared.row.Scope.TheVariants.{ShortLocks};
ghost use Rattle.sp_requests.specs.Requested.{blocking, ComesTo};

use sp_locks::{Duration, Need, Row, SessionId, Sessions, Table};
use sp_waits::{Cycle, cycle};
use std::alloc::{AllocError, Global};

/// What a request for a lock comes to.
#[derive(Drop)]
pub(crate) enum Outcome {
    /// The session holds the lock.
    Granted,
    /// The session waits for these, in ascending order.
    Waits(Sessions),
    /// A wait would close this cycle.
    Closes(Cycle),
}

// Whether the row is a short lock that the session holds.
fn is_short_lock(row: &Row, session: SessionId) -> bool
    ensures { result ≡ goes ShortLocks session row.now }
{
    let is_held = !row.waiting & (row.session == session);
    is_held & matches!(row.duration, Duration::Short)
}

fn any_short_lock(rows: &[Row], session: SessionId) -> bool
    ensures { result ≡ list_any (goes ShortLocks session) rows.now }
{
    rows.iter().any(|row| is_short_lock(row, session))
}

// A copy of the table, without the session's short locks.
fn bare(table: &Table, session: SessionId) -> Result<Table, AllocError>
    ensures { IfOk result (λ bare. bare ≡ released ShortLocks session table.now) }
{
    let mut bare = table.copy()?;
    bare.release_short(session);
    Ok(bare)
}

// The sessions that block the request once the requester's short locks are gone. Only where it has one on
// the name itself does that need a table without them.
fn blockers(
    alloc: Global,
    table: &Table,
    session: SessionId,
    need: &Need,
) -> Result<Sessions, AllocError>
    ensures found { IfOk result (λ found. found ≡ blocking session need.now table.now) }
    ensures sound { IsSound table.now }
{
    if any_short_lock(table.on(need.name), session) {
        let bare = bare(table, session)?;
        return bare.blockers(alloc, session, need.name, need.mode);
    }
    table.blockers(alloc, session, need.name, need.mode)
}

// The session gets the lock. Where there is no memory the table is as it was.
fn hold(
    alloc: Global,
    table: &mut Table,
    session: SessionId,
    need: &Need,
) -> Result<Outcome, AllocError>
    requires sound { IsSound table.old }
    requires awake { waiting_in session table.old ≡ None }
    requires free { blocking session need.now table.old ≡ [] }
    ensures comes { IfOk result (λ outcome. ComesTo session need.now table.old outcome table.new) }
    ensures same { OnErr result (table.new ≡ table.old) }
{
    table.ask(alloc, session, need.name, need.mode, need.duration)?;
    Ok(Outcome::Granted)
}

// The session waits for the lock without its short locks, unless that closes a cycle. Where there is no
// memory the table is as it was.
fn wait(
    alloc: Global,
    table: &mut Table,
    session: SessionId,
    need: &Need,
    blockers: Sessions,
) -> Result<Outcome, AllocError>
    requires awake { waiting_in session table.old ≡ None }
    requires blocked { blocking session need.now table.old ≢ [] }
    requires those { blockers ≡ blocking session need.now table.old }
    ensures comes { IfOk result (λ outcome. ComesTo session need.now table.old outcome table.new) }
    ensures same { OnErr result (table.new ≡ table.old) }
{
    let mut bare = bare(table, session)?;
    match cycle(alloc, &bare, session, need.name, need.mode)? {
        Some(cycle) => Ok(Outcome::Closes(cycle)),
        None => {
            bare.ask(alloc, session, need.name, need.mode, need.duration)?;
            *table = bare;
            Ok(Outcome::Waits(blockers))
        }
    }
}

/// The session asks for the lock. Whether it must wait is judged with its short locks gone, and it waits
/// without them. Where there is no memory, and where a wait would close a cycle, the table is as it was.
/// Costs the rows on the name, and the table too where the session has a short lock there or must wait.
pub(crate) fn request(
    alloc: Global,
    table: &mut Table,
    session: SessionId,
    need: &Need,
) -> Result<Outcome, AllocError>
    requires awake { waiting_in session table.old ≡ None }
    ensures comes { IfOk result (λ outcome. ComesTo session need.now table.old outcome table.new) }
    ensures same { OnErr result (table.new ≡ table.old) }
{
    if table.grant(alloc, session, need.name, need.mode, need.duration)? {
        return Ok(Outcome::Granted);
    }
    let blockers = blockers(alloc, table, session, need)?;
    if blockers.is_empty() {
        hold(alloc, table, session, need)
    } else {
        wait(alloc, table, session, need, blockers)
    }
}
