// Each call of the outside fails in turn.
use crate::tests::{APART, Fails, Files, J1, NO_FAILS, NO_FILES, Ran, Row, check, disks_of, run};
use sp_disk::{Images, MemDisk};
use std::alloc::Global;
use std::test::Fail;

// The words of a script over a journal; the script, and what it writes; and how many records there are before its first commit and after each.
type Run = (&'static [&'static str], Row, &'static [u64]);

// More reads and writes than any of the runs makes, and more moments than a disk has.
const MANY: u64 = 100;

// More calls of a disk than any of the runs makes.
const CALLS: u64 = 40;

const PLAY: &[&str] = &["play", "--journal", "J1", "--max", "4", "--min", "2"];

const DRILL: &[&str] = &["drill", "--journal", "J1", "--max", "4", "--min", "2"];

// A deadlock, and two commits: over the records of `J1`.
const COMMITS: Row = (
    "A begin\nA find 1 1 3 3\nB begin\nB find 101 1 103 3\nA put 6 104 4 105 5 f\nB put 7 3 3 4 4 g\nA commit\nB commit\nB begin\nB put 7 3 3 4 4 g\nB commit\n",
    "A began 0\nA found 1\nA rec 1 0 0 2 2 a\nB began 0\nB found 1\nB rec 3 100 0 102 2 c\nA waits granule 2 IX B\nB deadlock 2\nB edge B A granule 1 IX held S\nB edge A B granule 2 IX held S\nA done\nA committed 1\nB refused notxn\nB began 1\nB done\nB committed 2\n",
);

// A commit, event by event.
const EVENTS: Row = (
    "A begin\nA start put 6 50 50 51 51 f\nA name\nA plan\nA ask\nA ask\nA apply\nA commit\nflush\nflush\nflush\nflush\nclean\n",
    "A began 0\nA started\nA granted\nA planned 2\nA granted\nA granted\nA done\nA queued\n- wrote\n- wrote\n- wrote\n- durable 1 1\nA committed 1\n- nothing\n",
);

// Over the records of `J1`.
const RUNS: [Run; 2] = [(PLAY, COMMITS, &[5, 6, 7]), (DRILL, EVENTS, &[5, 6])];

// Over nothing: the journal is made.
const MAKING: Run = (PLAY, APART, &[0, 5]);

// Whether the text is a front of the whole, and behind it that line.
fn is_front(text: &[u8], whole: &str, line: &str) -> bool {
    match text.strip_suffix(line.as_bytes()) {
        Some(front) => whole.as_bytes().starts_with(front),
        None => false,
    }
}

// Runs the script over `J1`, and wants it to end with that status where something fails: it has written a front of the whole, and that line. Gives the
// status.
fn check_front(
    alloc: Global,
    words: &[&str],
    row: Row,
    fails: Fails,
    fault: (u8, &str),
) -> Result<u8, Fail> {
    let Ran { done, sink } = run(alloc, words, (row.0, 9), (J1, b""), fails)?;
    let ended = match done.status {
        0 => sink.bytes() == row.1.as_bytes(),
        status => status == fault.0 && is_front(sink.bytes(), row.1, fault.1),
    };
    if !ended {
        return Err(Fail::from(("ended otherwise", done.status)));
    }
    Ok(done.status)
}

#[test]
fn each_read_fails_in_turn(rt: HostRuntime) -> Result<(), Fail> {
    for (words, row, _) in RUNS {
        let mut failed = 0;
        for read in 1..MANY {
            let fails = Fails { read, ..NO_FAILS };
            if check_front(rt.alloc(), words, row, fails, (2, "! read\n"))? == 2 {
                failed = read;
            }
        }
        // Each piece of nine bytes is a read, and so is the end.
        assert_eq!(rt; failed, (row.0.len() as u64 / 9).saturating_add(2));
    }
    Ok(())
}

#[test]
fn each_write_fails_in_turn(rt: HostRuntime) -> Result<(), Fail> {
    for (words, row, _) in RUNS {
        let mut failed = 0;
        for write in 1..MANY {
            let fails = Fails { write, ..NO_FAILS };
            if check_front(rt.alloc(), words, row, fails, (3, ""))? == 3 {
                failed = write;
            }
        }
        assert!(rt; failed > 10);
    }
    Ok(())
}

// What was answered stands, and then the fault: each piece has nine bytes.
#[test]
fn a_read_fails_in_memory(rt: HostRuntime) -> Result<(), Fail> {
    for (read, text) in [
        (1, "! read\n"),
        (2, "A began 0\n! read\n"),
        (3, "A began 0\n! read\n"),
        (4, "A began 0\nA done\n! read\n"),
    ] {
        let script = "A begin\nA put 1 0 0 0 0 x\n";
        let fails = Fails { read, ..NO_FAILS };
        let Ran { done, sink } = run(rt.alloc(), &["play"], (script, 9), NO_FILES, fails)?;
        assert_eq!(rt; done.status, 2);
        assert_eq!(rt; sink.bytes(), text.as_bytes());
    }
    Ok(())
}

// What is written of a fault, where nothing is heard.
#[test]
fn a_fault_before_the_script(rt: HostRuntime) -> Result<(), Fail> {
    for command in ["play", "drill", "dump", "check", "compact"] {
        for (fetch, write, text) in [(1, 0, "! disk\n"), (2, 0, "! disk\n"), (2, 1, "")] {
            let fails = Fails {
                fetch,
                write,
                ..NO_FAILS
            };
            let words = [command, "--journal", "J1"];
            let Ran { done, sink } = run(rt.alloc(), &words, ("A begin\n", 9), (J1, b""), fails)?;
            assert_eq!(rt; done.status, 4);
            assert_eq!(rt; sink.bytes(), text.as_bytes());
            assert_eq!(rt; done.transcript.items.len(), 0);
            assert!(rt; done.disks.is_none());
        }
    }
    Ok(())
}

// The line of a fault cannot be written either: the first fault stays.
#[test]
fn a_fault_that_cannot_be_told(rt: HostRuntime) -> Result<(), Fail> {
    for (words, fails, status) in [
        (
            ["play", "--max=3"].as_slice(),
            Fails {
                write: 1,
                ..NO_FAILS
            },
            1,
        ),
        (
            &["play"],
            Fails {
                read: 1,
                write: 1,
                ..NO_FAILS
            },
            2,
        ),
        (
            &["play", "--audit"],
            Fails {
                write: 1,
                ..NO_FAILS
            },
            3,
        ),
        (
            &["make", "--seed=1", "--count=1"],
            Fails {
                write: 1,
                ..NO_FAILS
            },
            3,
        ),
        (
            &["stress", "--seed=1", "--count=1"],
            Fails {
                write: 1,
                ..NO_FAILS
            },
            3,
        ),
        (
            &["check", "--journal=J1"],
            Fails {
                write: 1,
                ..NO_FAILS
            },
            3,
        ),
        (
            &["check", "--journal=J1"],
            Fails {
                main: 1,
                write: 1,
                ..NO_FAILS
            },
            4,
        ),
    ] {
        let Ran { done, sink } = run(rt.alloc(), words, ("", 1), (J1, b""), fails)?;
        assert_eq!(rt; done.status, status, "{words:?}");
        assert_eq!(rt; sink.bytes().len(), 0, "{words:?}");
    }
    Ok(())
}

// How many records two files hold, of which there are fewer than ten.
fn count_records(alloc: Global, files: Files<'_>) -> Result<u64, Fail> {
    let Ran { done, sink } = run(
        alloc,
        &["check", "--journal", "J1"],
        ("", 1),
        files,
        NO_FAILS,
    )?;
    match (done.status, sink.bytes()) {
        (0, [.., b' ', b'0', b'\n']) => Ok(0),
        (0, [.., b' ', b'5', b'\n']) => Ok(5),
        (0, [.., b' ', b'6', b'\n']) => Ok(6),
        (0, [.., b' ', b'7', b'\n']) => Ok(7),
        _ => Err(Fail::from("other records")),
    }
}

// The least number of records that one of these files holds together with the other one, which is `J1` or else `J1.alt`.
fn least_records(
    alloc: Global,
    images: &Images,
    other: &[u8],
    other_is_main: bool,
) -> Result<u64, Fail> {
    let mut least = 7;
    for image in images.as_slice() {
        let files = if other_is_main {
            (other, image.as_slice())
        } else {
            (image.as_slice(), other)
        };
        least = least.min(count_records(alloc, files)?);
    }
    Ok(least)
}

// How many commits the text tells.
fn count_commits(text: &[u8]) -> usize {
    let mut count: usize = 0;
    for line in text.split(|byte| *byte == b'\n') {
        if matches!(line, [_, b' ', b'c', b'o', b'm', b'm', ..]) {
            count = count.saturating_add(1);
        }
    }
    count
}

// Whatever a stop may now leave of the two disks has so many records at least.
fn check_images(alloc: Global, disks: (MemDisk, MemDisk), wanted: u64) -> Result<(), Fail> {
    let (main, alt) = disks;
    let others = alt.samples(alloc, MANY)?;
    for image in main.samples(alloc, MANY)?.as_slice() {
        if least_records(alloc, &others, image.as_slice(), true)? < wanted {
            return Err(Fail::from("a commit was lost"));
        }
    }
    Ok(())
}

// Runs the script over these files, where a call of one disk fails, and wants every commit that was told to be in whatever a stop may then leave of
// the two. Gives the status.
fn check_kept(alloc: Global, run_of: Run, files: Files<'_>, fails: Fails) -> Result<u8, Fail> {
    let (words, row, kept) = run_of;
    let ran = run(alloc, words, (row.0, 4096), files, fails)?;
    let status = ran.done.status;
    let ended = match status {
        0 => ran.sink.bytes() == row.1.as_bytes(),
        _ => status == 4 && is_front(ran.sink.bytes(), row.1, "! disk\n"),
    };
    let told = count_commits(ran.sink.bytes());
    match kept.get(told) {
        Some(wanted) if ended => check_images(alloc, disks_of(ran)?, *wanted)?,
        _ => return Err(Fail::from(("ended otherwise", status))),
    }
    Ok(status)
}

// Each call of the two disks fails in turn.
fn check_calls(alloc: Global, run_of: Run, files: Files<'_>) -> Result<(), Fail> {
    for call in 1..CALLS {
        let main = Fails {
            main: call,
            ..NO_FAILS
        };
        let alt = Fails {
            alt: call,
            ..NO_FAILS
        };
        let first = check_kept(alloc, run_of, files, main)?;
        let second = check_kept(alloc, run_of, files, alt)?;
        if call < 3 && (first, second) != (4, 4) {
            return Err(Fail::from(("no fault of the call", call)));
        }
    }
    Ok(())
}

// A journal of version 1 is written anew, one of version 2 is gone on with, and one that is not there is made.
#[test]
fn each_call_of_a_disk_fails_in_turn(rt: HostRuntime) -> Result<(), Fail> {
    let alloc = rt.alloc();
    let (main, alt) = disks_of(check(alloc, PLAY, APART, NO_FILES)?)?;
    for run_of in RUNS {
        check_calls(alloc, run_of, (J1, b""))?;
        check_calls(alloc, run_of, (main.bytes(), alt.bytes()))?;
    }
    check_calls(alloc, MAKING, NO_FILES)
}

// At every moment of a run each file that a stop may leave has at least the records that it had at the moments before.
fn check_moments(
    alloc: Global,
    disk: &MemDisk,
    other: &[u8],
    other_is_main: bool,
) -> Result<(), Fail> {
    let mut least = 5;
    for moment in 0..=disk.calls().len() as u64 {
        let now = least_records(alloc, &disk.samples(alloc, moment)?, other, other_is_main)?;
        if now < least {
            return Err(Fail::from(("lost at", moment)));
        }
        least = now;
    }
    if least != 7 {
        return Err(Fail::from("the commits were not kept"));
    }
    Ok(())
}

// Nothing fails, and the program stops at any moment.
#[test]
fn a_stop_leaves_every_commit(rt: HostRuntime) -> Result<(), Fail> {
    let alloc = rt.alloc();
    let (old, alt) = disks_of(check(alloc, PLAY, COMMITS, (J1, b""))?)?;
    check_moments(alloc, &alt, old.bytes(), true)?;
    let (made, empty) = disks_of(check(alloc, PLAY, APART, NO_FILES)?)?;
    let files = (made.bytes(), empty.bytes());
    let (main, other) = disks_of(check(alloc, PLAY, COMMITS, files)?)?;
    check_moments(alloc, &main, other.bytes(), false)
}
