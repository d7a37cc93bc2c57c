use super::files::{
    CUT, EMPTY, FIVE, FIVE_SECOND, FOREIGN, NEW, OLD, SECOND, THIRD, Told, UNFINISHED, disk, held,
    pair,
};
use crate::{Chosen, Pair, choose};
use sp_disk::MemDisk;
use sp_journal::JournalError;
use std::alloc::Global;
use std::test::Fail;

// Whether the second is chosen, with its version and generation; nothing where one is foreign.
fn chosen(alloc: Global, main: &[u8], alt: &[u8]) -> Result<Option<(bool, u32, u64)>, Fail> {
    match choose(pair(alloc, main, alt)?) {
        Ok(chosen) => Ok(Some((chosen.is_alt, chosen.version, chosen.generation))),
        Err((_, JournalError::Foreign)) => Ok(None),
        Err(_) => Err("not chosen".into()),
    }
}

#[test]
fn the_current_file_is_chosen(rt: HostRuntime) -> Result<(), Fail> {
    let alloc = rt.alloc();
    for (main, alt, wanted) in [
        (EMPTY, EMPTY, Some((false, 0, 0))),
        (EMPTY, UNFINISHED, Some((false, 0, 0))),
        (UNFINISHED, EMPTY, Some((false, 0, 0))),
        (OLD, EMPTY, Some((false, 1, 0))),
        (EMPTY, OLD, Some((true, 1, 0))),
        (UNFINISHED, OLD, Some((true, 1, 0))),
        (OLD, NEW, Some((true, 2, 1))),
        (NEW, OLD, Some((false, 2, 1))),
        (NEW, SECOND, Some((true, 2, 2))),
        (NEW, UNFINISHED, Some((false, 2, 1))),
        (NEW, CUT, Some((true, 2, 2))),
        (SECOND, SECOND, Some((false, 2, 2))),
        (FOREIGN, NEW, None),
        (SECOND, FOREIGN, None),
        (EMPTY, FOREIGN, None),
    ] {
        assert_eq!(rt; chosen(alloc, main, alt)?, wanted, "{main:?} {alt:?}");
    }
    Ok(())
}

#[test]
fn the_current_file_is_read(rt: HostRuntime) -> Result<(), Fail> {
    let alloc = rt.alloc();
    for (main, alt, wanted) in [
        (EMPTY, EMPTY, Told::Holds(0, 0)),
        (UNFINISHED, UNFINISHED, Told::Holds(0, 0)),
        (OLD, EMPTY, Told::Holds(1, 1)),
        (EMPTY, FIVE, Told::Holds(1, 5)),
        (UNFINISHED, OLD, Told::Holds(1, 1)),
        (OLD, UNFINISHED, Told::Holds(1, 1)),
        (OLD, FIVE_SECOND, Told::Holds(0, 5)),
        (FIVE_SECOND, OLD, Told::Holds(0, 5)),
        (OLD, FIVE, Told::Holds(1, 1)),
        (FIVE, OLD, Told::Holds(1, 5)),
        (SECOND, FIVE_SECOND, Told::Holds(0, 0)),
        (FIVE_SECOND, SECOND, Told::Holds(0, 5)),
        (SECOND, CUT, Told::Holds(0, 0)),
        (THIRD, CUT, Told::Holds(0, 0)),
        (CUT, THIRD, Told::Holds(0, 0)),
        (CUT, SECOND, Told::Damaged(16)),
        (CUT, OLD, Told::Damaged(16)),
        (OLD, CUT, Told::Damaged(16)),
        (FOREIGN, EMPTY, Told::Foreign),
        (EMPTY, FOREIGN, Told::Foreign),
        (FOREIGN, CUT, Told::Foreign),
        (SECOND, FOREIGN, Told::Foreign),
    ] {
        assert_eq!(rt; held(alloc, main, alt)?, wanted, "{main:?} {alt:?}");
    }
    Ok(())
}

#[test]
fn a_fault_of_either_file_is_told(rt: HostRuntime) -> Result<(), Fail> {
    let alloc = rt.alloc();
    for (failing, other) in [(1, 0), (2, 0), (3, 0), (0, 1), (0, 2), (0, 3)] {
        let main = disk(alloc, OLD, failing)?;
        let alt = disk(alloc, NEW, other)?;
        assert!(rt; is_fault(choose(Pair { main, alt })), "{failing} {other}");
    }
    Ok(())
}

fn is_fault(chosen: Result<Chosen<MemDisk>, (Pair<MemDisk>, JournalError)>) -> bool {
    matches!(chosen, Err((_, JournalError::Fault)))
}
