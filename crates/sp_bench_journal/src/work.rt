// Batches of puts.
ghost use Rattle.std.specs.Prelude.{◌≡◌, ◌≤◌, ◌+◌, ◌^◌, length, IfOk, OnOk};
ghost use Rattle.sp_journal.specs.declared.work.Phase.TheVariants.{Ready};

use crate::{Counts, Stop};
use sp_disk::Disk;
use sp_journal::{Call, Journal};
use sp_plain::{Change, Changes};
use sp_rect::{Record, Rect, Value};
use std::alloc::Global;

// That many puts, of ids from the first on. A batch has at least one.
fn puts(alloc: Global, first: u64, count: u16) -> Result<Changes, Stop>
    ensures some { IfOk result (λ changes. 1 ≤ length changes) }
    ensures few { IfOk result (λ changes. length changes ≤ 2 ^ 16) }
{
    let mut changes = Changes::new(alloc);
    for i in 0..count.max(1) {
        let (Ok(rect), Ok(value)) = (Rect::new(0, 0, 9, 9), Value::new(b"parcel")) else {
            return Err(Stop::Memory);
        };
        let id = first.saturating_add(u64::from(i));
        changes.push(Change::Put(Record { id, rect, value }))?;
    }
    Ok(changes)
}

// One of the first three calls of a batch.
fn write_on<D: Disk>(journal: &mut Journal<D>) -> Result<(), Stop>
    ensures empty { OnOk result (journal.old.work.phase ≡ Ready → journal.new.work.changes ≡ 0) }
    ensures fewer { journal.new.work.changes ≤ journal.old.work.changes }
{
    match journal.next_call() {
        Call::Wrote => Ok(()),
        _ => Err(Stop::Disk),
    }
}

// Writes the batch that is queued: body, sync, gate, sync.
fn flush<D: Disk>(journal: &mut Journal<D>) -> Result<(), Stop>
    requires { journal.old.work.phase ≡ Ready }
    ensures ready { OnOk result (journal.new.work.phase ≡ Ready) }
    ensures empty { OnOk result (journal.new.work.changes ≡ 0) }
{
    write_on(journal)?;
    write_on(journal)?;
    write_on(journal)?;
    match journal.next_call() {
        Call::Durable(_) => Ok(()),
        _ => Err(Stop::Disk),
    }
}

/// Writes that many batches, of one commit with that many puts each, behind what stands on the disk.
pub fn write<D: Disk>(alloc: Global, disk: D, batches: u32, size: u16) -> Result<Counts, Stop> {
    let Ok((mut journal, found)) = Journal::attach(alloc, disk) else {
        return Err(Stop::Disk);
    };
    let mut next = found.records.len() as u64;
    for _ in 0..batches {
        let changes = puts(alloc, next, size)?;
        next = next.saturating_add(changes.len() as u64);
        journal.queue(&changes)?;
        flush(&mut journal)?;
    }
    Ok(Counts {
        batches: u64::from(batches),
        commits: u64::from(batches),
        records: next,
    })
}
