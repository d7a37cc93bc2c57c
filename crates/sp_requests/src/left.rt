// Which needs of an operation are left to ask.
ghost use Rattle.std.specs.Prelude.{◌≡◌, ◌&&◌, ◌++◌, not, filter, IfOk, OnOk};
ghost use Rattle.std.specs.List.{list_any};
ghost use Rattle.sp_locks.specs.declared.row.Duration.TheVariants.{Commit as ToTheEnd};
ghost use Rattle.sp_locks.specs.Modes.{covers as are_covering};
ghost use Rattle.sp_locks.specs.Rows.{is_lock_of, same_name as is_same};
ghost use Rattle.sp_model.specs.Plans.{is_held, is_covered, left_to_ask};

use sp_locks::{Duration, Mode, Name, Need, Needs, Row, SessionId, Table, covers};
use std::alloc::{AllocError, Global};

fn same_name(a: Name, b: Name) -> bool
    ensures { result ≡ is_same a b }
{
    match (a, b) {
        (Name::Granule(a), Name::Granule(b)) | (Name::Object(a), Name::Object(b)) => a == b,
        _ => false,
    }
}

// Whether the session holds the row to its end, in a mode that covers this one.
fn is_enough(row: &Row, session: SessionId, mode: Mode) -> bool
    ensures { result ≡ (is_lock_of session ToTheEnd row.now && are_covering row.now.mode mode) }
{
    let is_held = !row.waiting & (row.session == session);
    let to_the_end = matches!(row.duration, Duration::Commit);
    is_held & to_the_end & covers(row.mode, mode)
}

fn any_enough(rows: &[Row], session: SessionId, mode: Mode) -> bool
    ensures { result ≡ list_any (λ row. is_lock_of session ToTheEnd row && are_covering row.mode mode) rows.now }
{
    rows.iter().any(|row| is_enough(row, session, mode))
}

// Whether a lock that the session holds to its end covers the need.
fn is_held(locks: &Table, session: SessionId, need: &Need) -> bool
    ensures { result ≡ is_held locks.now session need.now }
{
    any_enough(locks.on(need.name), session, need.mode)
}

fn is_cover(other: &Need, need: &Need) -> bool
    ensures { result ≡ (is_same other.now.name need.now.name && are_covering other.now.mode need.now.mode) }
{
    same_name(other.name, need.name) & covers(other.mode, need.mode)
}

// Whether one of the needs covers it.
fn is_covered(needs: &[Need], need: &Need) -> bool
    ensures { result ≡ is_covered needs.now need.now }
{
    needs.iter().any(|other| is_cover(other, need))
}

// Those of the short needs that no commit need covers.
fn uncovered(alloc: Global, commit: &[Need], short: &[Need]) -> Result<Vec<Need>, AllocError>
    ensures { IfOk result (λ left. left.items ≡ filter (λ need. not (is_covered commit.now need)) short.now) }
{
    let mut left = Vec::new(alloc);
    'short: for need in short {
        if !is_covered(commit, need) {
            left.push(*need)?;
        }
    }
    Ok(left)
}

// Adds those of the needs that no held lock covers.
fn push_unheld(
    left: &mut Vec<Need>,
    locks: &Table,
    session: SessionId,
    needs: &[Need],
) -> Result<(), AllocError>
    ensures { OnOk result (left.new.items ≡ left.old.items ++ filter (λ need. not (is_held locks.now session need)) needs.now) }
{
    'needs: for need in needs {
        if !is_held(locks, session, need) {
            left.push(*need)?;
        }
    }
    Ok(())
}

/// Those of the needs that no lock covers which the session holds to its end, but for short ones that a commit
/// need covers. Costs for each need the rows on its name, and for each short one the commit needs.
pub(crate) fn left_to_ask(
    alloc: Global,
    locks: &Table,
    session: SessionId,
    commit: &[Need],
    short: &[Need],
) -> Result<Needs, AllocError>
    ensures { IfOk result (λ left. left ≡ left_to_ask locks.now session commit.now short.now) }
{
    let mut left = Vec::new(alloc);
    let short = uncovered(alloc, commit, short)?;
    push_unheld(&mut left, locks, session, commit)?;
    push_unheld(&mut left, locks, session, short.as_slice())?;
    Ok(Needs::from_vec(left))
}
