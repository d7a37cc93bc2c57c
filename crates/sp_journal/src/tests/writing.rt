ghost use Rattle.std.specs.Prelude.{◌≡◌, IfOk};

use super::files::{NEW, ONE_PUT, one_put};
use crate::create::create;
use crate::work::Work;
use crate::{Call, Journal};
use sp_disk::{Disk, DiskCall, MemDisk};
use std::alloc::Global;
use std::test::Fail;

// A journal behind the header of a new file.
fn new_journal(alloc: Global, fail: Vec<u64>) -> Result<Journal<MemDisk>, Fail>
    ensures { IfOk result (λ journal. journal.work.changes ≡ 0) }
{
    let disk = MemDisk::new(alloc, NEW.to_vec(alloc)?, fail)?;
    let work = Work::new(alloc, 16)?;
    Ok(Journal { disk, work })
}

#[test]
fn a_batch_is_body_sync_gate_sync(rt: HostRuntime) -> Result<(), Fail> {
    let alloc = rt.alloc();
    let mut journal = new_journal(alloc, Vec::new(alloc))?;
    assert_eq!(rt; journal.next_call(), Call::Nothing);
    journal.queue(&one_put(alloc, 1)?)?;
    assert_eq!(rt; journal.next_call(), Call::Wrote);
    assert_eq!(rt; journal.next_call(), Call::Wrote);
    assert_eq!(rt; journal.next_call(), Call::Wrote);
    assert_eq!(rt; journal.next_call(), Call::Durable(1));
    assert_eq!(rt; journal.next_call(), Call::Nothing);
    let disk = journal.detach();
    assert_eq!(rt; disk.bytes(), ONE_PUT.as_slice());
    let calls = disk.calls();
    assert_eq!(rt; calls.len(), 4);
    assert!(rt;
        matches!(
            &calls[0],
            DiskCall::Write {
                at: 17,
                made: true,
                ..
            }
        )
    );
    assert!(rt; matches!(&calls[1], DiskCall::Sync { made: true }));
    assert!(rt;
        matches!(
            &calls[2],
            DiskCall::Write {
                at: 16,
                made: true,
                ..
            }
        )
    );
    assert!(rt; matches!(&calls[3], DiskCall::Sync { made: true }));
    Ok(())
}

#[test]
fn what_is_queued_in_flight_is_the_next_batch(rt: HostRuntime) -> Result<(), Fail> {
    let alloc = rt.alloc();
    let mut journal = new_journal(alloc, Vec::new(alloc))?;
    journal.queue(&one_put(alloc, 1)?)?;
    assert_eq!(rt; journal.next_call(), Call::Wrote);
    journal.queue(&one_put(alloc, 2)?)?;
    journal.queue(&one_put(alloc, 3)?)?;
    for answer in [Call::Wrote, Call::Wrote, Call::Durable(1), Call::Wrote] {
        assert_eq!(rt; journal.next_call(), answer);
    }
    for answer in [Call::Wrote, Call::Wrote, Call::Durable(2), Call::Nothing] {
        assert_eq!(rt; journal.next_call(), answer);
    }
    Ok(())
}

#[test]
fn a_fault_stays_and_makes_no_call_any_more(rt: HostRuntime) -> Result<(), Fail> {
    let alloc = rt.alloc();
    for failing in 1..=4 {
        let mut journal = new_journal(alloc, [failing].to_vec(alloc)?)?;
        journal.queue(&one_put(alloc, 1)?)?;
        for _ in 1..failing {
            assert_eq!(rt; journal.next_call(), Call::Wrote);
        }
        assert_eq!(rt; journal.next_call(), Call::Fault(16));
        assert_eq!(rt; journal.next_call(), Call::Fault(16));
        assert_eq!(rt; journal.detach().calls().len() as u64, failing);
    }
    Ok(())
}

#[test]
fn a_file_is_made_anew(rt: HostRuntime) -> Result<(), Fail> {
    let alloc = rt.alloc();
    let mut disk = MemDisk::new(alloc, b"SPJL\0".to_vec(alloc)?, Vec::new(alloc))?;
    create(&mut disk)?;
    assert_eq!(rt; disk.bytes(), NEW.as_slice());
    assert_eq!(rt; disk.calls().len(), 4);
    Ok(())
}
