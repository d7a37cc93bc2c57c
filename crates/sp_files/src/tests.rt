// The commands on journals that are worked out byte by byte.
use crate::{FileEnd, Finished, check, compact, dump};
use sp_disk::{MemDisk, MemShelf};
use sp_io::MemSink;
use std::alloc::Global;
use std::test::Fail;

// An empty file, and one that is no journal.
const EMPTY: &[u8] = b"";

const FOREIGN: &[u8] = b"twenty bytes of text";

// Of version 1, with one batch of one commit, which puts five records.
const FIVE: &[u8] =
    b"SPJL\0\0\0\x01\0\0\0\0\0\0\0\0\x01\0\0\0\x8f\0\0\0\x01\0\0\0\x05\x01\0\0\0\0\0\0\0\x01\0\0\0\0\0\0\0\0\0\0\0\x02\0\0\0\x02\x01a\x01\0\0\0\0\0\0\0\x02\0\0\0\x08\0\0\0\x08\0\0\0\x0a\0\0\0\x0a\x01b\x01\0\0\0\0\0\0\0\x03\0\0\0d\0\0\0\0\0\0\0f\0\0\0\x02\x01c\x01\0\0\0\0\0\0\0\x04\0\0\0l\0\0\0\x08\0\0\0n\0\0\0\x0a\x01d\x01\0\0\0\0\0\0\0\x05\0\0\0\x04\0\0\0\x04\0\0\0\x06\0\0\0\x06\x01e\0";

// The same records as a checkpoint, of generation 2.
const SECOND: &[u8] =
    b"SPJL\0\0\0\x02\0\0\0\0\0\0\0\x02\x01\0\0\0\x8f\0\0\0\0\0\0\0\x05\x01\0\0\0\0\0\0\0\x01\0\0\0\0\0\0\0\0\0\0\0\x02\0\0\0\x02\x01a\x01\0\0\0\0\0\0\0\x02\0\0\0\x08\0\0\0\x08\0\0\0\x0a\0\0\0\x0a\x01b\x01\0\0\0\0\0\0\0\x03\0\0\0d\0\0\0\0\0\0\0f\0\0\0\x02\x01c\x01\0\0\0\0\0\0\0\x04\0\0\0l\0\0\0\x08\0\0\0n\0\0\0\x0a\x01d\x01\0\0\0\0\0\0\0\x05\0\0\0\x04\0\0\0\x04\0\0\0\x06\0\0\0\x06\x01e\0";

// Of generation 2, cut short behind its open gate; of the last generation, with a checkpoint of no record.
const CUT: &[u8] = b"SPJL\0\0\0\x02\0\0\0\0\0\0\0\x02\x01\0\0\0\x08\0\0";

const LAST: &[u8] =
    b"SPJL\0\0\0\x02\x7f\xff\xff\xff\xff\xff\xff\xff\x01\0\0\0\x08\0\0\0\0\0\0\0\0\0";

const RECORDS: &str =
    "found 5\nrec 1 0 0 2 2 a\nrec 2 8 8 10 10 b\nrec 3 100 0 102 2 c\nrec 4 108 8 110 10 d\nrec 5 4 4 6 6 e\n";

#[derive(Clone, Copy)]
enum Command {
    Dump,
    Check,
    Compact,
}

#[derive(Drop)]
struct Ran {
    end: FileEnd,
    disks: Option<(MemDisk, MemDisk)>,
    sink: MemSink,
}

// A shelf of these two files, where its call and each disk's of these numbers fail.
fn shelf_of(
    alloc: Global,
    main: &[u8],
    alt: &[u8],
    shelf_fails: u64,
    disk_fails: u64,
) -> Result<MemShelf, Fail> {
    let mut disks = Vec::new(alloc);
    disks.push((
        String::from_str(alloc, "J1.alt")?,
        MemDisk::new(alloc, alt.to_vec(alloc)?, [disk_fails].to_vec(alloc)?)?,
    ))?;
    disks.push((
        String::from_str(alloc, "J1")?,
        MemDisk::new(alloc, main.to_vec(alloc)?, [disk_fails].to_vec(alloc)?)?,
    ))?;
    Ok(MemShelf::new(alloc, disks, [shelf_fails].to_vec(alloc)?)?)
}

// Runs the command on the journal `J1` of these two files, where the call of the shelf, of the disks and of the
// sink with these numbers fail.
fn run(
    alloc: Global,
    command: Command,
    main: &[u8],
    alt: &[u8],
    shelf_fails: u64,
    disk_fails: u64,
    write_fails: u64,
) -> Result<Ran, Fail> {
    let mut shelf = shelf_of(alloc, main, alt, shelf_fails, disk_fails)?;
    let mut sink = MemSink::new(alloc, [write_fails].to_vec(alloc)?)?;
    let Finished { end, disks } = match command {
        Command::Dump => dump(alloc, &mut shelf, "J1", &mut sink),
        Command::Check => check(alloc, &mut shelf, "J1", &mut sink),
        Command::Compact => compact(alloc, &mut shelf, "J1", &mut sink),
    };
    let disks = match disks {
        Some(pair) => Some((pair.main, pair.alt)),
        None => None,
    };
    Ok(Ran { end, disks, sink })
}

#[test]
fn what_two_files_hold_is_told(rt: HostRuntime) -> Result<(), Fail> {
    let alloc = rt.alloc();
    for (command, main, alt, end, text) in [
        (Command::Dump, EMPTY, EMPTY, FileEnd::Written, "found 0\n"),
        (Command::Dump, FIVE, EMPTY, FileEnd::Written, RECORDS),
        (Command::Dump, EMPTY, SECOND, FileEnd::Written, RECORDS),
        (
            Command::Check,
            FIVE,
            EMPTY,
            FileEnd::Written,
            "whole 1 1 5\n",
        ),
        (
            Command::Check,
            FIVE,
            SECOND,
            FileEnd::Written,
            "whole 0 0 5\n",
        ),
        (
            Command::Dump,
            FIVE,
            FOREIGN,
            FileEnd::Foreign,
            "! foreign\n",
        ),
        (
            Command::Check,
            FOREIGN,
            CUT,
            FileEnd::Foreign,
            "! foreign\n",
        ),
        (
            Command::Compact,
            FOREIGN,
            FIVE,
            FileEnd::Foreign,
            "! foreign\n",
        ),
        (
            Command::Dump,
            CUT,
            FIVE,
            FileEnd::Damaged(16),
            "! damaged 16\n",
        ),
        (
            Command::Check,
            FIVE,
            CUT,
            FileEnd::Damaged(16),
            "! damaged 16\n",
        ),
        (
            Command::Compact,
            FIVE,
            CUT,
            FileEnd::Damaged(16),
            "! damaged 16\n",
        ),
        (Command::Compact, FIVE, LAST, FileEnd::Worn, "! worn\n"),
        (
            Command::Check,
            FIVE,
            LAST,
            FileEnd::Written,
            "whole 0 0 0\n",
        ),
    ] {
        let Ran {
            end: ended,
            disks,
            sink,
        } = run(alloc, command, main, alt, 0, 0, 0)?;
        assert_eq!(rt; ended, end, "{text}");
        assert_eq!(rt; sink.bytes(), text.as_bytes(), "{text}");
        let Some((first, second)) = disks else {
            return Err("no disks".into());
        };
        assert_eq!(rt; first.bytes(), main, "{text}");
        assert_eq!(rt; second.bytes(), alt, "{text}");
    }
    Ok(())
}

// The two files after a compaction that tells this.
fn compacted(
    alloc: Global,
    main: &[u8],
    alt: &[u8],
    text: &str,
) -> Result<(MemDisk, MemDisk), Fail> {
    let Ran {
        end: _,
        disks,
        sink,
    } = run(alloc, Command::Compact, main, alt, 0, 0, 0)?;
    if sink.bytes() != text.as_bytes() {
        return Err("another text".into());
    }
    match disks {
        Some(disks) => Ok(disks),
        None => Err("no disks".into()),
    }
}

// Five records are compacted into the other file, and back.
#[test]
fn a_journal_is_compacted_there_and_back(rt: HostRuntime) -> Result<(), Fail> {
    let alloc = rt.alloc();
    let (main, alt) = compacted(alloc, FIVE, EMPTY, "compacted 2 5\n")?;
    assert_eq!(rt; main.bytes(), FIVE);
    assert_eq!(rt; alt.bytes(), SECOND);
    assert_eq!(rt; alt.bytes().len(), 165);
    let (main, alt) = compacted(alloc, main.bytes(), alt.bytes(), "compacted 3 5\n")?;
    assert_eq!(rt; alt.bytes(), SECOND);
    let told = run(alloc, Command::Dump, main.bytes(), alt.bytes(), 0, 0, 0)?;
    assert_eq!(rt; told.sink.bytes(), RECORDS.as_bytes());
    Ok(())
}

// A call of the shelf, of a disk or of the sink fails.
#[test]
fn each_fault_is_told(rt: HostRuntime) -> Result<(), Fail> {
    let alloc = rt.alloc();
    for command in [Command::Dump, Command::Check, Command::Compact] {
        for (shelf_fails, disk_fails, write_fails, status, text) in [
            (1, 0, 0, 4, "! disk\n"),
            (2, 0, 0, 4, "! disk\n"),
            (0, 1, 0, 4, "! disk\n"),
            (0, 2, 0, 4, "! disk\n"),
            (0, 0, 1, 3, ""),
            (1, 0, 1, 4, ""),
        ] {
            let ran = run(
                alloc,
                command,
                FIVE,
                EMPTY,
                shelf_fails,
                disk_fails,
                write_fails,
            )?;
            assert_eq!(rt; ran.end.status(), status);
            assert_eq!(rt; ran.sink.bytes(), text.as_bytes());
            assert_eq!(rt; ran.disks.is_some(), shelf_fails == 0);
        }
    }
    for (write, text) in [(1, ""), (2, "! damaged "), (3, "! damaged 16")] {
        let ran = run(alloc, Command::Dump, CUT, EMPTY, 0, 0, write)?;
        assert_eq!(rt; ran.end.status(), 5);
        assert_eq!(rt; ran.sink.bytes(), text.as_bytes());
    }
    Ok(())
}
