ghost use Rattle.std.specs.Prelude.{◌≡◌, IfOk};

use super::files::{FIVE_PUTS, NEW, ONE_PUT, Read, attach, one_put, read_file};
use crate::{Call, Journal};
use sp_disk::MemDisk;
use std::alloc::Global;
use std::test::Fail;

// How few and how many batches a stop at that moment leaves.
fn batches(alloc: Global, disk: &MemDisk, moment: u64) -> Result<(u64, u64), Fail> {
    let mut few = u64::MAX;
    let mut many = 0;
    for image in disk.samples(alloc, moment)?.as_slice() {
        match read_file(alloc, image.as_slice())? {
            Read::Holds(count, _, _) => {
                few = few.min(count);
                many = many.max(count);
            }
            _ => return Err("damaged".into()),
        }
    }
    Ok((few, many))
}

// The present moment.
fn now(disk: &MemDisk) -> u64 {
    disk.calls().len() as u64
}

#[test]
fn a_batch_is_whole_or_missing_at_each_moment(rt: HostRuntime) -> Result<(), Fail> {
    let alloc = rt.alloc();
    let disk = MemDisk::new(alloc, Vec::new(alloc), Vec::new(alloc))?;
    let (mut journal, _) = attach(alloc, disk)?;
    journal.queue(&one_put(alloc, 1)?)?;
    for (answer, wanted) in [
        (Call::Wrote, (0, 0)),
        (Call::Wrote, (0, 0)),
        (Call::Wrote, (0, 1)),
        (Call::Durable(1), (1, 1)),
    ] {
        assert_eq!(rt; journal.next_call(), answer);
        assert_eq!(rt; batches(alloc, &journal.disk, now(&journal.disk))?, wanted);
    }
    assert_eq!(rt; journal.detach().bytes(), ONE_PUT.as_slice());
    Ok(())
}

// Writes a batch, as far as the disk lets it, and tells whether it was acknowledged. The disk as it is
// then comes back.
fn write_once(alloc: Global, disk: MemDisk) -> Result<(MemDisk, bool), Fail> {
    let mut journal = match Journal::attach(alloc, disk) {
        Ok((journal, _)) => journal,
        Err((disk, _)) => return Ok((disk, false)),
    };
    journal.queue(&one_put(alloc, 9)?)?;
    for _ in 0..3 {
        let _ = journal.next_call();
    }
    let durable = journal.next_call() == Call::Durable(1);
    Ok((journal.detach(), durable))
}

// Lets each call fail in turn while a batch is written to the file, and looks at each moment. The answer
// is the number of calls that a run without a fault makes.
fn each_call_fails(rt: &HostRuntime, file: &[u8], before: u64, after: u64) -> Result<u64, Fail> {
    let alloc = rt.alloc();
    for failing in 1..100 {
        let disk = MemDisk::new(alloc, file.to_vec(alloc)?, [failing].to_vec(alloc)?)?;
        let (disk, durable) = write_once(alloc, disk)?;
        for (moment, _) in disk.calls().iter().enumerate() {
            let (few, many) = batches(alloc, &disk, moment as u64)?;
            if few < before || many > after {
                return Err("lost".into());
            }
        }
        let (few, _) = batches(alloc, &disk, now(&disk))?;
        if durable && few != after {
            return Err("not kept".into());
        }
        if now(&disk) < failing {
            return Ok(now(&disk));
        }
    }
    Err("always a fault".into())
}

#[test]
fn what_is_acknowledged_stays_whichever_call_fails(rt: HostRuntime) -> Result<(), Fail> {
    // A sync, the length and the front, a cut, a sync, a header, a sync; then body, sync, gate, sync.
    assert_eq!(rt; each_call_fails(&rt, b"", 0, 1)?, 11);
    assert_eq!(rt; each_call_fails(&rt, b"SPJL\0\0", 0, 1)?, 11);
    assert_eq!(rt; each_call_fails(&rt, &NEW, 0, 1)?, 11);
    assert_eq!(rt; each_call_fails(&rt, &UNFINISHED, 0, 1)?, 11);
    // A sync, the length, the front, two looks at the entry and one at the next gate; then the same.
    assert_eq!(rt; each_call_fails(&rt, &FIVE_PUTS, 1, 2)?, 10);
    Ok(())
}

// A file of generation 2 whose checkpoint, of no records, is written behind a closed gate.
const UNFINISHED: [u8; 30] = *b"SPJL\0\0\0\x02\0\0\0\0\0\0\0\x02\0\0\0\0\x08\0\0\0\0\0\0\0\0\0";

#[test]
fn a_file_of_version_one_is_appended_to(rt: HostRuntime) -> Result<(), Fail> {
    let alloc = rt.alloc();
    let disk = MemDisk::new(alloc, FIVE_PUTS.to_vec(alloc)?, Vec::new(alloc))?;
    let (disk, durable) = write_once(alloc, disk)?;
    assert!(rt; durable);
    assert_eq!(rt; read_file(alloc, disk.bytes())?, Read::Holds(2, 2, 6));
    Ok(())
}
