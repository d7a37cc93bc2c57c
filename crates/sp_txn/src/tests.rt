// Each case of what a transaction sees of an entry, and of the change that it makes of it.
use crate::commit_changes::change_of;
use crate::{changes, record_for, visible};
use sp_node::{Draft, Ended, Entry, Made, Marks, Shape, Tree};
use sp_plain::Change;
use sp_rect::{Rect, Value};
use std::alloc::Global;
use std::test::Fail;

// What a transaction changes at an entry: nothing, or a put, a drop or a set.
const NONE: u8 = 0;

const PUT: u8 = 1;

const DROP: u8 = 2;

const SET: u8 = 3;

fn value(text: &[u8]) -> Result<Value, Fail> {
    match Value::new(text) {
        Ok(value) => Ok(value),
        Err(_) => Err(Fail::from("no value")),
    }
}

// An entry whose value is an `a`, with a draft `b` of the transaction where it is not 0.
fn entry(alloc: Global, made: Made, ended: Ended, drafted: u64) -> Result<Entry, Fail> {
    let Ok(rect) = Rect::new(0, 0, 9, 9) else {
        return Err(Fail::from("no rectangle"));
    };
    let draft = match drafted {
        0 => Draft::None,
        txn => Draft::Of(txn, value(b"b")?),
    };
    Ok(Entry {
        number: 5,
        id: 50,
        rect,
        value: value(b"a")?,
        marks: Marks { made, ended, draft },
    })
}

fn first_byte(value: &Value) -> u8 {
    value.bytes().first().copied().unwrap_or(0)
}

// The kind of the change, and the first byte of its value.
fn told(change: Option<Change>) -> (u8, u8) {
    match change {
        None => (NONE, 0),
        Some(Change::Put(record)) => (PUT, first_byte(&record.value)),
        Some(Change::Drop(_)) => (DROP, 0),
        Some(Change::Set(_, value)) => (SET, first_byte(&value)),
    }
}

// Of entries by their marks: whether transaction 7 sees it, the value that it sees, and its change.
const CASES: [(Made, Ended, u64, bool, u8, (u8, u8)); 13] = [
    (Made::Committed, Ended::Nobody, 0, true, b'a', (NONE, 0)),
    (Made::Committed, Ended::Nobody, 7, true, b'b', (SET, b'b')),
    (Made::Committed, Ended::Nobody, 8, true, b'a', (NONE, 0)),
    (Made::Committed, Ended::By(7), 0, false, b'a', (DROP, 0)),
    (Made::Committed, Ended::By(7), 7, false, b'b', (DROP, 0)),
    (Made::Committed, Ended::By(8), 0, true, b'a', (NONE, 0)),
    (Made::Committed, Ended::Done, 0, false, b'a', (NONE, 0)),
    (Made::By(7), Ended::Nobody, 0, true, b'a', (PUT, b'a')),
    (Made::By(7), Ended::Nobody, 7, true, b'b', (PUT, b'b')),
    (Made::By(7), Ended::By(7), 7, false, b'b', (NONE, 0)),
    (Made::By(7), Ended::Done, 0, false, b'a', (NONE, 0)),
    (Made::By(8), Ended::Nobody, 0, false, b'a', (NONE, 0)),
    (Made::By(8), Ended::By(8), 8, false, b'a', (NONE, 0)),
];

#[test]
fn cases(rt: HostRuntime) -> Result<(), Fail> {
    let alloc = rt.alloc();
    for (made, ended, drafted, seen, first, change) in CASES {
        let entry = entry(alloc, made, ended, drafted)?;
        assert_eq!(rt; visible(&entry, 7), seen);
        assert_eq!(rt; first_byte(&record_for(alloc, &entry, 7)?.value), first);
        assert_eq!(rt; told(change_of(alloc, &entry, 7)?), change);
    }
    Ok(())
}

#[test]
fn an_empty_tree(rt: HostRuntime) -> Result<(), Fail> {
    let tree = Tree::new(rt.alloc(), Shape { max: 4, min: 2 })?;
    assert!(rt; changes(rt.alloc(), &tree, 7)?.is_empty());
    Ok(())
}
