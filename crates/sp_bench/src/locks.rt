// Requests of many sessions on names of their own, and their release.
use crate::Counts;
use sp_locks::{Asked, Duration, Mode, Name, Table};
use std::alloc::{AllocError, Global};

/// Each of so many sessions asks for so many names of its own, and then each releases all. Counts the
/// requests that were granted, and the rows that are left.
pub fn run(alloc: Global, sessions: u32, names: u32) -> Result<Counts, AllocError> {
    let mut table = Table::new(alloc);
    let mut granted: u64 = 0;
    for session in 0..sessions {
        granted = granted.saturating_add(ask_all(alloc, &mut table, session, names)?);
    }
    for session in 0..sessions {
        table.release_all(session);
    }
    Ok(Counts {
        first: granted,
        second: if table.row(0).is_some() { 1 } else { 0 },
    })
}

fn ask_all(alloc: Global, table: &mut Table, session: u32, names: u32) -> Result<u64, AllocError> {
    let mut granted: u64 = 0;
    for number in 0..names {
        if table.waiting(session).is_some() {
            return Ok(granted);
        }
        let name = Name::Object(u64::from(session) * 4294967296 + u64::from(number));
        let asked = table.ask(alloc, session, name, Mode::X, Duration::Commit)?;
        if let Asked::Granted = asked {
            granted = granted.saturating_add(1);
        }
    }
    Ok(granted)
}
