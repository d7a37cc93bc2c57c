// Requests on lock tables that are built by hand, and what is left to ask beside them.
use crate::left::left_to_ask;
use crate::requesting::{Outcome, request};
use sp_locks::{Duration, Mode, Name, Need, SessionId, Table};
use std::alloc::{AllocError, Global};
use std::process::Abort;

const A: SessionId = 1;

const B: SessionId = 2;

const FIRST: Name = Name::Granule(1);

const SECOND: Name = Name::Granule(2);

const THIRD: Name = Name::Granule(3);

fn lasting(name: Name, mode: Mode) -> Need {
    Need {
        name,
        mode,
        duration: Duration::Commit,
    }
}

fn short(name: Name, mode: Mode) -> Need {
    Need {
        name,
        mode,
        duration: Duration::Short,
    }
}

fn ask(
    rt: &impl Abort,
    alloc: Global,
    table: &mut Table,
    session: SessionId,
    need: Need,
) -> Result<Outcome, AllocError> {
    assert!(rt; table.waiting(session).is_none());
    request(alloc, table, session, &need)
}

fn waits_for(outcome: &Outcome, session: SessionId) -> bool {
    match outcome {
        Outcome::Waits(blockers) => blockers.as_slice() == [session].as_slice(),
        Outcome::Granted | Outcome::Closes(_) => false,
    }
}

#[test]
fn a_wait_lets_short_locks_go(rt: HostRuntime) -> Result<(), AllocError> {
    let alloc = rt.alloc();
    let mut table = Table::new(alloc);
    let holds = ask(&rt, alloc, &mut table, B, lasting(SECOND, Mode::S))?;
    assert!(rt; matches!(holds, Outcome::Granted));
    ask(&rt, alloc, &mut table, A, short(FIRST, Mode::IX))?;
    assert!(rt; table.held(A, FIRST) == Some(Mode::IX));
    let waits = ask(&rt, alloc, &mut table, A, lasting(SECOND, Mode::IX))?;
    assert!(rt; waits_for(&waits, B));
    assert!(rt; table.held(A, FIRST).is_none());
    Ok(())
}

#[test]
fn the_requesters_short_locks_do_not_count(rt: HostRuntime) -> Result<(), AllocError> {
    let alloc = rt.alloc();
    let mut table = Table::new(alloc);
    ask(&rt, alloc, &mut table, A, short(FIRST, Mode::IX))?;
    let other = ask(&rt, alloc, &mut table, B, lasting(FIRST, Mode::X))?;
    assert!(rt; waits_for(&other, A));
    let own = ask(&rt, alloc, &mut table, A, lasting(FIRST, Mode::S))?;
    assert!(rt; waits_for(&own, B));
    assert!(rt; table.held(B, FIRST) == Some(Mode::X));
    Ok(())
}

#[test]
fn a_cycle_is_told_and_leaves_the_table(rt: HostRuntime) -> Result<(), AllocError> {
    let alloc = rt.alloc();
    let mut table = Table::new(alloc);
    ask(&rt, alloc, &mut table, A, lasting(FIRST, Mode::S))?;
    ask(&rt, alloc, &mut table, B, lasting(SECOND, Mode::S))?;
    ask(&rt, alloc, &mut table, A, lasting(SECOND, Mode::IX))?;
    match ask(&rt, alloc, &mut table, B, lasting(FIRST, Mode::IX))? {
        Outcome::Closes(cycle) => assert!(rt; cycle.len() == 2),
        Outcome::Granted | Outcome::Waits(_) => assert!(rt; false),
    }
    assert!(rt; table.waiting(B).is_none());
    Ok(())
}

#[test]
fn what_locks_cover_is_not_asked(rt: HostRuntime) -> Result<(), AllocError> {
    let alloc = rt.alloc();
    let mut table = Table::new(alloc);
    ask(&rt, alloc, &mut table, A, lasting(FIRST, Mode::SIX))?;
    ask(&rt, alloc, &mut table, A, short(THIRD, Mode::X))?;
    let commit = [lasting(FIRST, Mode::S), lasting(SECOND, Mode::IX)];
    let moment = [
        short(FIRST, Mode::IX),
        short(SECOND, Mode::IX),
        short(THIRD, Mode::SIX),
    ];
    let left = left_to_ask(alloc, &table, A, &commit, &moment)?;
    let expected = [lasting(SECOND, Mode::IX), short(THIRD, Mode::SIX)];
    assert!(rt; left.as_slice() == expected.as_slice());
    Ok(())
}
