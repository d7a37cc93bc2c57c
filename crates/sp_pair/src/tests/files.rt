// Files that are worked out byte by byte, and what two of them hold.
use crate::{Pair, inspect_pair};
use sp_disk::MemDisk;
use sp_journal::{JournalError, Recovered};
use std::alloc::Global;
use std::test::Fail;

// An empty file, one that is no journal.
pub const EMPTY: &[u8] = b"";

pub const FOREIGN: &[u8] = b"twenty bytes of text";

// Of version 1, with one record.
pub const OLD: &[u8] =
    b"SPJL\0\0\0\x01\0\0\0\0\0\0\0\0\x01\0\0\0\x23\0\0\0\x01\0\0\0\x01\x01\0\0\0\0\0\0\0\x01\0\0\0\0\0\0\0\0\0\0\0\0\0\0\0\0\x01x\0";

// Of version 2 and generation 1, without an entry.
pub const NEW: &[u8] = b"SPJL\0\0\0\x02\0\0\0\0\0\0\0\x01\0\0";

// Of generation 2, with a checkpoint of no record; the same before its gate is open; the same cut short.
pub const SECOND: &[u8] = b"SPJL\0\0\0\x02\0\0\0\0\0\0\0\x02\x01\0\0\0\x08\0\0\0\0\0\0\0\0\0";

pub const UNFINISHED: &[u8] = b"SPJL\0\0\0\x02\0\0\0\0\0\0\0\x02\0\0\0\0\x08\0\0\0\0\0\0\0\0\0";

pub const CUT: &[u8] = b"SPJL\0\0\0\x02\0\0\0\0\0\0\0\x02\x01\0\0\0\x08\0\0";

// Of generation 3, with a checkpoint of no record.
pub const THIRD: &[u8] = b"SPJL\0\0\0\x02\0\0\0\0\0\0\0\x03\x01\0\0\0\x08\0\0\0\0\0\0\0\0\0";

// The last generation but one, and the last; the last cut short.
pub const LATE: &[u8] =
    b"SPJL\0\0\0\x02\x7f\xff\xff\xff\xff\xff\xff\xfe\x01\0\0\0\x08\0\0\0\0\0\0\0\0\0";

pub const LAST: &[u8] =
    b"SPJL\0\0\0\x02\x7f\xff\xff\xff\xff\xff\xff\xff\x01\0\0\0\x08\0\0\0\0\0\0\0\0\0";

pub const LAST_CUT: &[u8] = b"SPJL\0\0\0\x02\x7f\xff\xff\xff\xff\xff\xff\xff\x01\0\0\0\x08\0\0";

// Of version 1, with one batch of one commit, which puts five records.
pub const FIVE: &[u8] =
    b"SPJL\0\0\0\x01\0\0\0\0\0\0\0\0\x01\0\0\0\x8f\0\0\0\x01\0\0\0\x05\x01\0\0\0\0\0\0\0\x01\0\0\0\0\0\0\0\0\0\0\0\x02\0\0\0\x02\x01a\x01\0\0\0\0\0\0\0\x02\0\0\0\x08\0\0\0\x08\0\0\0\x0a\0\0\0\x0a\x01b\x01\0\0\0\0\0\0\0\x03\0\0\0d\0\0\0\0\0\0\0f\0\0\0\x02\x01c\x01\0\0\0\0\0\0\0\x04\0\0\0l\0\0\0\x08\0\0\0n\0\0\0\x0a\x01d\x01\0\0\0\0\0\0\0\x05\0\0\0\x04\0\0\0\x04\0\0\0\x06\0\0\0\x06\x01e\0";

// The same records as a checkpoint, of generation 2 and of generation 3.
pub const FIVE_SECOND: &[u8] =
    b"SPJL\0\0\0\x02\0\0\0\0\0\0\0\x02\x01\0\0\0\x8f\0\0\0\0\0\0\0\x05\x01\0\0\0\0\0\0\0\x01\0\0\0\0\0\0\0\0\0\0\0\x02\0\0\0\x02\x01a\x01\0\0\0\0\0\0\0\x02\0\0\0\x08\0\0\0\x08\0\0\0\x0a\0\0\0\x0a\x01b\x01\0\0\0\0\0\0\0\x03\0\0\0d\0\0\0\0\0\0\0f\0\0\0\x02\x01c\x01\0\0\0\0\0\0\0\x04\0\0\0l\0\0\0\x08\0\0\0n\0\0\0\x0a\x01d\x01\0\0\0\0\0\0\0\x05\0\0\0\x04\0\0\0\x04\0\0\0\x06\0\0\0\x06\x01e\0";

pub const FIVE_THIRD: &[u8] =
    b"SPJL\0\0\0\x02\0\0\0\0\0\0\0\x03\x01\0\0\0\x8f\0\0\0\0\0\0\0\x05\x01\0\0\0\0\0\0\0\x01\0\0\0\0\0\0\0\0\0\0\0\x02\0\0\0\x02\x01a\x01\0\0\0\0\0\0\0\x02\0\0\0\x08\0\0\0\x08\0\0\0\x0a\0\0\0\x0a\x01b\x01\0\0\0\0\0\0\0\x03\0\0\0d\0\0\0\0\0\0\0f\0\0\0\x02\x01c\x01\0\0\0\0\0\0\0\x04\0\0\0l\0\0\0\x08\0\0\0n\0\0\0\x0a\x01d\x01\0\0\0\0\0\0\0\x05\0\0\0\x04\0\0\0\x04\0\0\0\x06\0\0\0\x06\x01e\0";

// A disk with this file, of which the call of that number is to fail, counted from 1. None fails at 0.
pub fn disk(alloc: Global, file: &[u8], failing: u64) -> Result<MemDisk, Fail> {
    Ok(MemDisk::new(alloc, file.to_vec(alloc)?, [failing].to_vec(alloc)?)?)
}

// Over these two files.
pub fn pair(alloc: Global, main: &[u8], alt: &[u8]) -> Result<Pair<MemDisk>, Fail> {
    let main = disk(alloc, main, 0)?;
    let alt = disk(alloc, alt, 0)?;
    Ok(Pair { main, alt })
}

/// What two files hold: how many batches and records, or why they are refused.
#[derive(Clone, Copy, Debug, PartialEq, Eq)]
pub enum Told {
    Holds(u64, usize),
    Foreign,
    Damaged(u64),
}

pub fn held(alloc: Global, main: &[u8], alt: &[u8]) -> Result<Told, Fail> {
    match inspect_pair(alloc, &mut pair(alloc, main, alt)?) {
        Ok(
            Recovered {
                records,
                batches,
                ..
            },
        ) => Ok(Told::Holds(batches, records.len())),
        Err(JournalError::Foreign) => Ok(Told::Foreign),
        Err(JournalError::Damaged(at)) => Ok(Told::Damaged(at)),
        Err(_) => Err("the disk".into()),
    }
}
