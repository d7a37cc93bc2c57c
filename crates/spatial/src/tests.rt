// Runs of the top call: worked scripts of commands and of events, over memory and over journals; the words; limits; and each call of the outside failing.
mod events;
mod examples;
mod faults;
mod journals;
mod limits;
mod lines;
mod scripts;
mod words;

use crate::done::Done;
use crate::offline::offline;
use sp_disk::{MemDisk, MemShelf};
use sp_io::{MemSink, MemSource, Words};
use sp_text::End;
use std::alloc::Global;
use std::test::Fail;

// A script, and what it writes.
type Row = (&'static str, &'static str);

// The bytes of a journal's two files.
type Files<'a> = (&'a [u8], &'a [u8]);

const NO_FILES: Files<'static> = (b"", b"");

// The journal `J1` in version 1, with one batch of one commit, which puts five records: with nodes of 2 to 4 members the leaf 1 has the records 1, 2
// and 5, and the leaf 2 far in the east has 3 and 4.
const J1: &[u8] =
    b"SPJL\0\0\0\x01\0\0\0\0\0\0\0\0\x01\0\0\0\x8f\0\0\0\x01\0\0\0\x05\x01\0\0\0\0\0\0\0\x01\0\0\0\0\0\0\0\0\0\0\0\x02\0\0\0\x02\x01a\x01\0\0\0\0\0\0\0\x02\0\0\0\x08\0\0\0\x08\0\0\0\x0a\0\0\0\x0a\x01b\x01\0\0\0\0\0\0\0\x03\0\0\0d\0\0\0\0\0\0\0f\0\0\0\x02\x01c\x01\0\0\0\0\0\0\0\x04\0\0\0l\0\0\0\x08\0\0\0n\0\0\0\x0a\x01d\x01\0\0\0\0\0\0\0\x05\0\0\0\x04\0\0\0\x04\0\0\0\x06\0\0\0\x06\x01e\0";

// The script that makes such a journal.
const APART: Row = (
    "Z begin\nZ put 1 0 0 2 2 a\nZ put 2 8 8 10 10 b\nZ put 3 100 0 102 2 c\nZ put 4 108 8 110 10 d\nZ put 5 4 4 6 6 e\nZ commit\n",
    "Z began 0\nZ done\nZ done\nZ done\nZ done\nZ done\nZ committed 1\n",
);

// Each searches where the other then adds a record: over the records of `J1`.
const DEADLOCK: Row = (
    "A begin\nA find 1 1 3 3\nB begin\nB find 101 1 103 3\nA put 6 104 4 105 5 f\nB put 7 3 3 4 4 g\nA commit\nB commit\n",
    "A began 0\nA found 1\nA rec 1 0 0 2 2 a\nB began 0\nB found 1\nB rec 3 100 0 102 2 c\nA waits granule 2 IX B\nB deadlock 2\nB edge B A granule 1 IX held S\nB edge A B granule 2 IX held S\nA done\nA committed 1\nB refused notxn\n",
);

// The numbers of the calls that are to fail, counted from 1: reads, writes, calls of the shelf and of its two disks. 0 is no call's number.
#[derive(Clone, Copy, Debug)]
struct Fails {
    read: u64,
    write: u64,
    fetch: u64,
    main: u64,
    alt: u64,
}

const NO_FAILS: Fails = Fails {
    read: 0,
    write: 0,
    fetch: 0,
    main: 0,
    alt: 0,
};

// What a run left.
#[derive(Drop)]
struct Ran {
    done: Done<MemDisk>,
    sink: MemSink,
}

// A shelf that holds these two files as `J1` and `J1.alt`.
fn shelf_of(alloc: Global, files: Files<'_>, fails: Fails) -> Result<MemShelf, Fail> {
    let mut disks = Vec::new(alloc);
    disks.push((
        String::from_str(alloc, "J1")?,
        MemDisk::new(alloc, files.0.to_vec(alloc)?, [fails.main].to_vec(alloc)?)?,
    ))?;
    disks.push((
        String::from_str(alloc, "J1.alt")?,
        MemDisk::new(alloc, files.1.to_vec(alloc)?, [fails.alt].to_vec(alloc)?)?,
    ))?;
    Ok(MemShelf::new(alloc, disks, [fails.fetch].to_vec(alloc)?)?)
}

// A source that gives the script in pieces of that size.
fn source_of(alloc: Global, script: &str, piece: usize, fails: Fails) -> Result<MemSource, Fail> {
    let mut pieces = Vec::new(alloc);
    for part in script.as_bytes().chunks(piece.max(1)) {
        pieces.push(part.to_vec(alloc)?)?;
    }
    Ok(MemSource::new(alloc, pieces, [fails.read].to_vec(alloc)?)?)
}

// Runs the program under these words over such a source and shelf.
fn run(
    alloc: Global,
    words: &[&str],
    script: (&str, usize),
    files: Files<'_>,
    fails: Fails,
) -> Result<Ran, Fail> {
    let mut list = Words::new(alloc);
    for word in words {
        list.push(word)?;
    }
    let mut shelf = shelf_of(alloc, files, fails)?;
    let mut source = source_of(alloc, script.0, script.1, fails)?;
    let mut sink = MemSink::new(alloc, [fails.write].to_vec(alloc)?)?;
    let done = offline(alloc, &list, &mut source, &mut sink, &mut shelf);
    Ok(Ran { done, sink })
}

// Runs the script over these files, where nothing fails, and wants it to be read to its end and to write that text.
fn check(alloc: Global, words: &[&str], row: (&str, &str), files: Files<'_>) -> Result<Ran, Fail> {
    let ran = run(alloc, words, (row.0, 4096), files, NO_FAILS)?;
    if ran.done.status != 0 || ran.done.transcript.end != End::Input {
        return Err(Fail::from(("another status", ran.done.status)));
    }
    if ran.sink.bytes() != row.1.as_bytes() {
        return Err(Fail::from("other answers"));
    }
    Ok(ran)
}

// The two disks that a run left.
fn disks_of(ran: Ran) -> Result<(MemDisk, MemDisk), Fail> {
    let Ran { done, .. } = ran;
    let Done { disks, .. } = done;
    match disks {
        Some(pair) => Ok((pair.main, pair.alt)),
        None => Err(Fail::from("no disks")),
    }
}
