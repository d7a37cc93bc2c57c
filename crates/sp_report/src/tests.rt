// The three texts.
use crate::{check_text, compact_text, dump_text};
use sp_journal::Recovered;
use sp_rect::{Record, Records, Rect, Value};
use std::alloc::Global;
use std::test::Fail;

fn record(alloc: Global, id: u64, x1: i64, value: &str) -> Result<Record, Fail> {
    let Ok(rect) = Rect::new(x1, 0, 200, 3) else {
        return Err(Fail::from("no rectangle"));
    };
    let Ok(value) = Value::new(value.as_bytes()) else {
        return Err(Fail::from("no value"));
    };
    Ok(Record { id, rect, value })
}

#[test]
fn texts_of_a_journal(rt: HostRuntime) -> Result<(), Fail> {
    let alloc = rt.alloc();
    let mut found = Recovered {
        records: Records::new(alloc),
        batches: 0,
        commits: 0,
    };
    assert_eq!(rt; dump_text(alloc, &found)?.bytes(), b"found 0\n".as_slice());
    assert_eq!(rt;
        check_text(alloc, &found)?.bytes(),
        b"whole 0 0 0\n".as_slice()
    );
    found.records.push(record(alloc, 0, -1073741824, "a")?)?;
    found
        .records
        .push(record(alloc, 18446744073709551615, 8, "~!")?)?;
    found.batches = 1;
    found.commits = 3;
    let told = "found 2\nrec 0 -1073741824 0 200 3 a\nrec 18446744073709551615 8 0 200 3 ~!\n";
    assert_eq!(rt; dump_text(alloc, &found)?.bytes(), told.as_bytes());
    assert_eq!(rt;
        check_text(alloc, &found)?.bytes(),
        b"whole 1 3 2\n".as_slice()
    );
    assert_eq!(rt;
        compact_text(alloc, 2, 5)?.bytes(),
        b"compacted 2 5\n".as_slice()
    );
    Ok(())
}
