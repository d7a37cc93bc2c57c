// Scripts over a journal, what the journal holds then, and the commands on its two files.
use crate::tests::{
    APART, DEADLOCK, Fails, Files, J1, NO_FAILS, NO_FILES, Ran, Row, check, disks_of, run,
};
use std::alloc::Global;
use std::test::Fail;

const PLAY: &[&str] = &["play", "--journal", "J1", "--max", "4", "--min", "2"];

const RECORDS: &str =
    "found 5\nrec 1 0 0 2 2 a\nrec 2 8 8 10 10 b\nrec 3 100 0 102 2 c\nrec 4 108 8 110 10 d\nrec 5 4 4 6 6 e\n";

// A journal of the last generation that there is, without records.
const LAST: &[u8] =
    b"SPJL\0\0\0\x02\x7f\xff\xff\xff\xff\xff\xff\xff\x01\0\0\0\x08\0\0\0\0\0\0\0\0\0";

// What a new journal's file begins with, and all that it has before its first commit.
const NEW: &[u8] = b"SPJL\0\0\0\x02\0\0\0\0\0\0\0\x01\0";

// Leaf 1 is as wide as leaf 2 is high: it has the records 1, 2 and 5, and leaf 2 has 3 and 4.
const CROSSED: Row = (
    "Z begin\nZ put 1 0 0 2 9 a\nZ put 2 98 0 100 9 b\nZ put 3 50 10 51 20 c\nZ put 4 50 990 51 1000 d\nZ put 5 40 0 60 9 e\nZ commit\n",
    "Z began 0\nZ done\nZ done\nZ done\nZ done\nZ done\nZ committed 1\n",
);

// A leaf that grows into its sibling's space.
const OVER_CROSSED: Row = (
    "A begin\nA find 50 12 51 13\nB begin\nB put 6 90 15 95 16 f\nA commit\nB commit\n",
    "A began 0\nA found 1\nA rec 3 50 10 51 20 c\nB began 0\nB waits granule 2 IX A\nA committed 1\nB done\nB committed 2\n",
);

const OVER_APART: [Row; 5] = [
    // A corner outside all leaves.
    (
        "A begin\nA find 50 50 60 60\nB begin\nB put 6 55 55 56 56 f\nA commit\nB commit\n",
        "A began 0\nA found 0\nB began 0\nB waits granule 3 IX A\nA committed 1\nB done\nB committed 2\n",
    ),
    // Growth into what it searched itself.
    (
        "A begin\nA find 50 0 60 5\nC begin\nC set 1 z\nA put 7 40 0 52 5 g\nC commit\nD begin\nD set 1 y\nA commit\nD commit\n",
        "A began 0\nA found 0\nC began 0\nC done\nA waits granule 1 SIX C\nC committed 1\nA done\nD began 1\nD waits granule 1 IX A\nA committed 2\nD done\nD committed 3\n",
    ),
    // Each adds where the other has searched.
    DEADLOCK,
    // A circle through one who waits before.
    (
        "A begin\nA find 1 1 3 3\nC begin\nC set 3 z\nB begin\nB put 6 3 3 4 4 f\nC find 1 1 3 3\nA get 3\nB commit\nC commit\n",
        "A began 0\nA found 1\nA rec 1 0 0 2 2 a\nC began 0\nC done\nB began 0\nB waits granule 1 IX A\nC waits granule 1 S B\nA deadlock 3\nA edge A C object 3 S held X\nA edge C B granule 1 S waiting IX\nA edge B A granule 1 IX held S\nB done\nB committed 1\nC found 2\nC rec 1 0 0 2 2 a\nC rec 6 3 3 4 4 f\nC committed 2\n",
    ),
    // No needless wait.
    (
        "A begin\nA find 1 1 3 3\nB begin\nB put 6 112 2 113 3 f\nB commit\nA commit\n",
        "A began 0\nA found 1\nA rec 1 0 0 2 2 a\nB began 0\nB done\nB committed 1\nA committed 2\n",
    ),
];

// The files of the journal that the first script makes, and then the other script over them.
fn check_after(alloc: Global, first: Row, row: Row) -> Result<(), Fail> {
    let (main, alt) = disks_of(check(alloc, PLAY, first, NO_FILES)?)?;
    check(alloc, PLAY, row, (main.bytes(), alt.bytes()))?;
    Ok(())
}

#[test]
fn scripts_over_a_journal(rt: HostRuntime) -> Result<(), Fail> {
    let alloc = rt.alloc();
    for row in OVER_APART {
        check_after(alloc, APART, row)?;
        check(alloc, PLAY, row, (J1, b""))?;
    }
    check_after(alloc, CROSSED, OVER_CROSSED)
}

// A journal of version 1 is written anew as it is opened, one of version 2 is not; nothing of a transaction that was not committed is kept.
#[test]
fn a_journal_is_opened_again(rt: HostRuntime) -> Result<(), Fail> {
    let alloc = rt.alloc();
    let (main, alt) = disks_of(check(alloc, PLAY, APART, NO_FILES)?)?;
    assert_eq!(rt; main.bytes().len(), 165);
    assert_eq!(rt; alt.bytes().len(), 0);
    let files = (main.bytes(), alt.bytes());
    check(alloc, &["dump", "--journal", "J1"], ("", RECORDS), files)?;
    let open = (
        "A begin\nA clear 0 0 99 99\n",
        "A began 0\nA count 3\nA rolledback\n",
    );
    let (same, other) = disks_of(check(alloc, PLAY, open, files)?)?;
    assert_eq!(rt; same.bytes(), main.bytes());
    assert_eq!(rt; other.bytes(), alt.bytes());
    let (old, new) = disks_of(check(alloc, PLAY, ("", ""), (J1, b""))?)?;
    assert_eq!(rt; old.bytes(), J1);
    check(
        alloc,
        &["check", "--journal", "J1"],
        ("", "whole 0 0 5\n"),
        (old.bytes(), new.bytes()),
    )?;
    Ok(())
}

// Seventeen bytes or fewer are no journal yet: it is made.
#[test]
fn a_journal_is_made(rt: HostRuntime) -> Result<(), Fail> {
    let alloc = rt.alloc();
    for (words, main) in [
        (["play", "--journal", "J1"].as_slice(), b"".as_slice()),
        (&["play", "--journal=J1"], b"nine here"),
        (&["drill", "--journal", "J1"], b"nine here"),
        (&["play", "--journal", "J1"], &J1[..17]),
    ] {
        let (made, alt) = disks_of(check(alloc, words, ("", ""), (main, b""))?)?;
        assert_eq!(rt; made.bytes(), NEW);
        assert_eq!(rt; alt.bytes().len(), 0);
    }
    Ok(())
}

// No kernel is started, and nothing is heard: a read would fail.
fn check_refused(alloc: Global, words: &[&str], files: Files<'_>, text: &str) -> Result<(), Fail> {
    let fails = Fails {
        read: 1,
        ..NO_FAILS
    };
    let ran = run(alloc, words, ("A begin\n", 9), files, fails)?;
    if ran.done.status != 5 || ran.sink.bytes() != text.as_bytes() {
        return Err(Fail::from("not refused"));
    }
    if ran.done.transcript.items.len() != 0 || ran.done.audit.base().len() != 0 {
        return Err(Fail::from("heard or opened"));
    }
    let (main, alt) = disks_of(ran)?;
    if main.bytes() != files.0 || alt.bytes() != files.1 {
        return Err(Fail::from("other files"));
    }
    Ok(())
}

#[test]
fn other_files_are_refused(rt: HostRuntime) -> Result<(), Fail> {
    let alloc = rt.alloc();
    for (main, alt, text) in [
        (&J1[..100], b"".as_slice(), "! damaged 16\n"),
        (b"", &J1[..100], "! damaged 16\n"),
        (&[0; 20], b"", "! foreign\n"),
        (J1, &[0; 20], "! foreign\n"),
    ] {
        for command in ["play", "drill", "compact", "dump", "check"] {
            check_refused(alloc, &[command, "--journal", "J1"], (main, alt), text)?;
        }
    }
    check_refused(
        alloc,
        &["compact", "--journal", "J1"],
        (J1, LAST),
        "! worn\n",
    )
}

// A copy of `J1` with another byte at that place.
fn changed(alloc: Global, at: usize, byte: u8) -> Result<Vec<u8>, Fail> {
    let mut bytes = J1.to_vec(alloc)?;
    match bytes.get_mut(at) {
        Some(place) => *place = byte,
        None => return Err(Fail::from("no such place")),
    }
    Ok(bytes)
}

// One byte of the file is another.
#[test]
fn a_changed_byte_is_found(rt: HostRuntime) -> Result<(), Fail> {
    let alloc = rt.alloc();
    for (at, byte, status, text) in [
        (16, 0, 0, "whole 0 0 0\n"),
        (16, 2, 0, "whole 0 0 0\n"),
        (24, 0, 5, "! damaged 16\n"),
        (64, 1, 5, "! damaged 16\n"),
        (164, 1, 5, "! damaged 164\n"),
        (0, 0, 5, "! foreign\n"),
    ] {
        let main = changed(alloc, at, byte)?;
        let files = (main.as_slice(), b"".as_slice());
        let Ran { done, sink } = run(
            alloc,
            &["check", "--journal", "J1"],
            ("", 1),
            files,
            NO_FAILS,
        )?;
        assert_eq!(rt; done.status, status, "{at} {byte}");
        assert_eq!(rt; sink.bytes(), text.as_bytes(), "{at} {byte}");
    }
    Ok(())
}

// `dump` and `check` leave the files as they are.
#[test]
fn a_journal_is_told(rt: HostRuntime) -> Result<(), Fail> {
    let alloc = rt.alloc();
    for (command, main, alt, text) in [
        ("check", J1, b"".as_slice(), "whole 1 1 5\n"),
        ("dump", J1, b"", RECORDS),
        ("dump", b"", J1, RECORDS),
        ("dump", b"nine here", b"", "found 0\n"),
        ("check", &J1[..18], b"", "! damaged 16\n"),
        ("check", J1, LAST, "whole 0 0 0\n"),
    ] {
        let words = [command, "--journal", "J1"];
        let ran = run(alloc, &words, ("unread", 1), (main, alt), NO_FAILS)?;
        assert_eq!(rt; ran.sink.bytes(), text.as_bytes(), "{command} {text}");
        let (first, second) = disks_of(ran)?;
        assert_eq!(rt; first.bytes(), main, "{command} {text}");
        assert_eq!(rt; second.bytes(), alt, "{command} {text}");
    }
    Ok(())
}

#[test]
fn a_journal_is_compacted_there_and_back(rt: HostRuntime) -> Result<(), Fail> {
    let alloc = rt.alloc();
    let words = ["compact", "--journal", "J1"];
    let (main, alt) = disks_of(check(alloc, &words, ("", "compacted 2 5\n"), (J1, b""))?)?;
    assert_eq!(rt; main.bytes(), J1);
    assert_eq!(rt; alt.bytes().len(), 165);
    let files = (main.bytes(), alt.bytes());
    check(
        alloc,
        &["check", "--journal", "J1"],
        ("", "whole 0 0 5\n"),
        files,
    )?;
    check(alloc, &["dump", "--journal", "J1"], ("", RECORDS), files)?;
    let (same, still) = disks_of(check(alloc, PLAY, ("", ""), files)?)?;
    assert_eq!(rt; same.bytes(), main.bytes());
    assert_eq!(rt; still.bytes(), alt.bytes());
    let (again, other) = disks_of(check(alloc, &words, ("", "compacted 3 5\n"), files)?)?;
    assert_eq!(rt; other.bytes(), alt.bytes());
    let files = (again.bytes(), other.bytes());
    check(
        alloc,
        &["check", "--journal", "J1"],
        ("", "whole 0 0 5\n"),
        files,
    )?;
    check(alloc, &["dump", "--journal", "J1"], ("", RECORDS), files)?;
    Ok(())
}
