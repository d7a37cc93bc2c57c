use super::files::{
    CUT, EMPTY, FIVE, FIVE_SECOND, FIVE_THIRD, LAST, LAST_CUT, LATE, OLD, SECOND, THIRD, Told,
    UNFINISHED, disk, held, pair,
};
use crate::{Chosen, choose, compact};
use sp_disk::MemDisk;
use sp_journal::JournalError;
use std::alloc::Global;
use std::test::Fail;

// The two files as they are chosen.
fn chosen(alloc: Global, main: &[u8], alt: &[u8]) -> Result<Chosen<MemDisk>, Fail> {
    match choose(pair(alloc, main, alt)?) {
        Ok(chosen) => Ok(chosen),
        Err(_) => Err("not chosen".into()),
    }
}

// The two files after a compaction, and the number of records.
fn compacted(alloc: Global, chosen: Chosen<MemDisk>) -> Result<(Chosen<MemDisk>, u64), Fail> {
    match compact(alloc, chosen) {
        Ok(made) => Ok(made),
        Err(_) => Err("not compacted".into()),
    }
}

#[test]
fn five_records_are_compacted_there_and_back(rt: HostRuntime) -> Result<(), Fail> {
    let alloc = rt.alloc();
    let (there, count) = compacted(alloc, chosen(alloc, FIVE, EMPTY)?)?;
    assert_eq!(rt;
        (there.is_alt, there.version, there.generation, count),
        (true, 2, 2, 5)
    );
    assert_eq!(rt; there.current.bytes(), FIVE_SECOND);
    assert_eq!(rt; there.current.bytes().len(), 165);
    assert_eq!(rt; there.other.bytes(), FIVE);
    let (back, again) = compacted(alloc, there)?;
    assert_eq!(rt;
        (back.is_alt, back.version, back.generation, again),
        (false, 2, 3, 5)
    );
    assert_eq!(rt; back.current.bytes(), FIVE_THIRD);
    assert_eq!(rt; back.other.bytes(), FIVE_SECOND);
    Ok(())
}

// Whether each file that a stop might have left of the one and each of the other hold five records, at
// each moment of both.
fn all_hold_five(alloc: Global, main: &MemDisk, alt: &MemDisk) -> Result<bool, Fail> {
    for (moment, _) in main.calls().iter().enumerate() {
        for image in main.samples(alloc, moment as u64 + 1)?.as_slice() {
            if !each_holds_five(alloc, image.as_slice(), alt)? {
                return Ok(false);
            }
        }
    }
    Ok(true)
}

fn each_holds_five(alloc: Global, main: &[u8], alt: &MemDisk) -> Result<bool, Fail> {
    for moment in 0..9 {
        for image in alt.samples(alloc, moment)?.as_slice() {
            if !matches!(held(alloc, main, image.as_slice())?, Told::Holds(_, 5)) {
                return Ok(false);
            }
        }
    }
    Ok(true)
}

// The file of five records beside this one, each disk with a call that is to fail, just chosen.
fn beside(alloc: Global, file: &[u8], failing: u64, other: u64) -> Result<Chosen<MemDisk>, Fail> {
    Ok(Chosen {
        current: disk(alloc, FIVE, failing)?,
        other: disk(alloc, file, other)?,
        is_alt: false,
        version: 1,
        generation: 0,
    })
}

#[test]
fn the_records_stay_at_each_call(rt: HostRuntime) -> Result<(), Fail> {
    let alloc = rt.alloc();
    for file in [EMPTY, OLD, UNFINISHED] {
        let (made, _) = compacted(alloc, beside(alloc, file, 0, 0)?)?;
        assert_eq!(rt; made.current.calls().len(), 8);
        assert!(rt;
            all_hold_five(alloc, &made.other, &made.current)?,
            "{file:?}"
        );
    }
    Ok(())
}

#[test]
fn the_records_stay_where_a_call_fails(rt: HostRuntime) -> Result<(), Fail> {
    let alloc = rt.alloc();
    let (made, _) = compacted(alloc, beside(alloc, EMPTY, 0, 0)?)?;
    let reads = made.other.calls().len() as u64;
    for failing in 1..reads + 9 {
        let (first, second) = if failing <= 8 {
            (0, failing)
        } else {
            (failing - 8, 0)
        };
        match compact(alloc, beside(alloc, OLD, first, second)?) {
            Err((after, JournalError::Fault)) => {
                assert!(rt;
                    all_hold_five(alloc, &after.current, &after.other)?,
                    "{failing}"
                );
                assert!(rt; compact_again(alloc, &after)?, "{failing}");
            }
            _ => return Err("no fault".into()),
        }
    }
    Ok(())
}

// Whether the two as they are read are chosen again and compacted.
fn compact_again(alloc: Global, after: &Chosen<MemDisk>) -> Result<bool, Fail> {
    let again = chosen(alloc, after.current.bytes(), after.other.bytes())?;
    let (_, count) = compacted(alloc, again)?;
    Ok(count == 5)
}

// The generation and number of records after a compaction, or why it is refused.
fn outcome(
    alloc: Global,
    main: &[u8],
    alt: &[u8],
) -> Result<Result<(u64, u64), JournalError>, Fail> {
    match compact(alloc, chosen(alloc, main, alt)?) {
        Ok((after, count)) => Ok(Ok((after.generation, count))),
        Err((_, error)) => Ok(Err(error)),
    }
}

#[test]
fn the_next_generation_is_told(rt: HostRuntime) -> Result<(), Fail> {
    let alloc = rt.alloc();
    for (main, alt, wanted) in [
        (EMPTY, EMPTY, (2, 0)),
        (OLD, EMPTY, (2, 1)),
        (FIVE, SECOND, (3, 0)),
        (SECOND, THIRD, (4, 0)),
        (CUT, FIVE_THIRD, (4, 5)),
        (FIVE_SECOND, OLD, (3, 5)),
        (LATE, OLD, ((1 << 63) - 1, 0)),
    ] {
        match outcome(alloc, main, alt)? {
            Ok(told) => assert_eq!(rt; told, wanted, "{main:?} {alt:?}"),
            Err(_) => return Err("refused".into()),
        }
    }
    Ok(())
}

#[test]
fn the_last_generation_is_worn(rt: HostRuntime) -> Result<(), Fail> {
    let alloc = rt.alloc();
    for (main, alt) in [(LAST, EMPTY), (OLD, LAST), (LAST, LATE)] {
        assert!(rt;
            matches!(outcome(alloc, main, alt)?, Err(JournalError::Worn)),
            "{main:?}"
        );
    }
    for (main, alt) in [(CUT, OLD), (OLD, CUT), (LAST_CUT, OLD), (OLD, LAST_CUT)] {
        assert!(rt;
            matches!(outcome(alloc, main, alt)?, Err(JournalError::Damaged(16))),
            "{main:?}"
        );
    }
    Ok(())
}
