// Files that are worked out byte by byte, and what is read of a file.
ghost use Rattle.std.specs.Prelude.{◌≡◌, IfOk, length};

use crate::{Journal, JournalError, Recovered, inspect};
use sp_disk::MemDisk;
use sp_plain::{Change, Changes};
use sp_rect::{Record, Rect, Value};
use std::alloc::Global;
use std::test::Fail;

// A new file: the header of version 2 and generation 1, and a closed gate.
pub const NEW: [u8; 17] = *b"SPJL\0\0\0\x02\0\0\0\0\0\0\0\x01\0";

// The same with one batch of one put: id 1, the point of the origin, value x.
pub const ONE_PUT: [u8; 57] =
    *b"SPJL\0\0\0\x02\0\0\0\0\0\0\0\x01\x01\0\0\0\x23\0\0\0\x01\0\0\0\x01\x01\0\0\0\0\0\0\0\x01\0\0\0\0\0\0\0\0\0\0\0\0\0\0\0\0\x01x\0";

// A file of version 1 with one batch of one commit, which puts five records.
pub const FIVE_PUTS: [u8; 165] =
    *b"SPJL\0\0\0\x01\0\0\0\0\0\0\0\0\x01\0\0\0\x8f\0\0\0\x01\0\0\0\x05\x01\0\0\0\0\0\0\0\x01\0\0\0\0\0\0\0\0\0\0\0\x02\0\0\0\x02\x01a\x01\0\0\0\0\0\0\0\x02\0\0\0\x08\0\0\0\x08\0\0\0\x0a\0\0\0\x0a\x01b\x01\0\0\0\0\0\0\0\x03\0\0\0d\0\0\0\0\0\0\0f\0\0\0\x02\x01c\x01\0\0\0\0\0\0\0\x04\0\0\0l\0\0\0\x08\0\0\0n\0\0\0\x0a\x01d\x01\0\0\0\0\0\0\0\x05\0\0\0\x04\0\0\0\x04\0\0\0\x06\0\0\0\x06\x01e\0";

// One put of that id.
pub fn one_put(alloc: Global, id: u64) -> Result<Changes, Fail>
    ensures { IfOk result (λ changes. length changes ≡ 1) }
{
    let rect = Rect::new(0, 0, 0, 0)?;
    let value = Value::new(b"x")?;
    let mut changes = Changes::new(alloc);
    changes.push(Change::Put(Record { id, rect, value }))?;
    Ok(changes)
}

/// What is read of a file: how many batches, commits and records it has, or why it is refused.
#[derive(Clone, Copy, Debug, PartialEq, Eq)]
pub enum Read {
    Holds(u64, u64, usize),
    Foreign,
    Damaged(u64),
}

pub fn held(found: &Recovered) -> Read {
    Read::Holds(found.batches, found.commits, found.records.len())
}

pub fn refused(error: JournalError) -> Result<Read, Fail> {
    match error {
        JournalError::Foreign => Ok(Read::Foreign),
        JournalError::Damaged(at) => Ok(Read::Damaged(at)),
        JournalError::Worn | JournalError::Fault | JournalError::Memory => Err("the disk".into()),
    }
}

// What is read of a file of these bytes where it is looked at.
pub fn read_file(alloc: Global, file: &[u8]) -> Result<Read, Fail> {
    let mut disk = MemDisk::new(alloc, file.to_vec(alloc)?, Vec::new(alloc))?;
    match inspect(alloc, &mut disk) {
        Ok(found) => Ok(held(&found)),
        Err(error) => refused(error),
    }
}

// What is read of it where it is opened. A file that is refused stays as it is.
pub fn open_file(alloc: Global, file: &[u8]) -> Result<Read, Fail> {
    let disk = MemDisk::new(alloc, file.to_vec(alloc)?, Vec::new(alloc))?;
    match Journal::attach(alloc, disk) {
        Ok((_, found)) => Ok(held(&found)),
        Err((disk, error)) => refused_over(&disk, file, error),
    }
}

// Why a file was refused, over a disk that reads as before.
fn refused_over(disk: &MemDisk, file: &[u8], error: JournalError) -> Result<Read, Fail> {
    if disk.bytes() == file {
        refused(error)
    } else {
        Err("changed".into())
    }
}

// Opens the journal on the disk.
pub fn attach(alloc: Global, disk: MemDisk) -> Result<(Journal<MemDisk>, Recovered), Fail>
    ensures { IfOk result (λ p. p.0.work.changes ≡ 0) }
{
    match Journal::attach(alloc, disk) {
        Ok(opened) => Ok(opened),
        Err(_) => Err("not opened".into()),
    }
}
