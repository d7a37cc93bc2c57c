// Opening over two records.
ghost use Rattle.std.specs.Prelude.{◌≡◌, IfOk};
ghost use Rattle.sp_rect.specs.Store.{IsOrdered};

use crate::open_state;
use sp_list::Duplicate;
use sp_node::Shape;
use sp_plain::Plain;
use sp_rect::{Op, Record, Records, Rect, Value};
use std::alloc::Global;
use std::test::Fail;

fn put(alloc: Global, plain: &mut Plain, id: u64, rect: Rect) -> Result<(), &'static str> {
    let value = Value::new(b"v").map_err(|_| "no value")?;
    let op = Op::Put(Record { id, rect, value });
    let _reply = plain.apply(&op).map_err(|_| "no memory")?;
    Ok(())
}

fn two_records(alloc: Global) -> Result<Records, &'static str>
    ensures { IfOk result IsOrdered }
{
    let mut plain = Plain::new(alloc);
    let rect = Rect::new(0, 0, 2, 2).map_err(|_| "no rectangle")?;
    put(alloc, &mut plain, 5, rect)?;
    put(alloc, &mut plain, 2, rect)?;
    plain.records().copy(alloc).map_err(|_| "no memory")
}

// Entries are numbered from 1 by ascending id, whatever the order in which their records came.
#[test]
fn two_records_are_opened(rt: HostRuntime) -> Result<(), Fail> {
    let alloc = rt.alloc();
    let records = two_records(alloc)?;
    if records.len() > 2 {
        return Err(Fail::from("more than two records"));
    }
    let state = open_state(alloc, Shape { max: 4, min: 2 }, records)?;
    let first = state.tree.entry(1).map(|entry| entry.id);
    let second = state.tree.entry(2).map(|entry| entry.id);
    assert_eq!(rt; first, Some(2));
    assert_eq!(rt; second, Some(5));
    assert_eq!(rt; state.tree.len(), 2);
    assert_eq!(rt; state.next_entry, 3);
    assert_eq!(rt; state.next_txn, 1);
    assert_eq!(rt; state.audit.base().len(), 2);
    Ok(())
}
