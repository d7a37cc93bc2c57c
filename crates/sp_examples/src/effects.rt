// What operations of transactions do, over one tree of five records whose ids are their entries' numbers.
use crate::trees::{rect_of, tree_of};
use sp_node::{Draft, Ended, Made, Marks, Tree};
use sp_ops::{Effect, Marked, effect, sees_distinct_ids};
use sp_rect::{Op, Record, Reply, Value};
use std::alloc::Global;
use std::test::Fail;

const RECTS: [(i64, i64, i64, i64); 5] = [
    (0, 0, 2, 2),
    (8, 8, 10, 10),
    (100, 0, 102, 2),
    (108, 8, 110, 10),
    (4, 4, 6, 6),
];

fn value_of(text: &[u8]) -> Result<Value, Fail> {
    match Value::new(text) {
        Ok(value) => Ok(value),
        Err(_) => Err(Fail::from("no value")),
    }
}

fn effect_of(alloc: Global, tree: &Tree, op: &Op, txn: u64) -> Result<Effect, Fail> {
    if !sees_distinct_ids(alloc, tree, txn)? {
        return Err(Fail::from("an id twice"));
    }
    Ok(effect(alloc, tree, op, txn)?)
}

// Its reply alone.
fn reply_of(alloc: Global, tree: &Tree, op: &Op, txn: u64) -> Result<Reply, Fail> {
    let done = effect_of(alloc, tree, op, txn)?;
    Ok(done.reply)
}

// Gives the entries their new marks.
fn apply(tree: &mut Tree, marks: Marked) -> Result<(), Fail> {
    for (entry, marks) in marks.into_vec() {
        tree.note_marks(entry, &marks)?;
        tree.mark(entry, marks);
    }
    Ok(())
}

// Does the operation, and tells its reply and how many entries it marked.
fn run(alloc: Global, tree: &mut Tree, op: &Op, txn: u64) -> Result<(Reply, usize), Fail> {
    let done = effect_of(alloc, tree, op, txn)?;
    let count = done.marks.len();
    apply(tree, done.marks)?;
    Ok((done.reply, count))
}

// Whether the transaction reads this value under the id.
fn reads(alloc: Global, tree: &Tree, id: u64, txn: u64, text: &[u8]) -> Result<bool, Fail> {
    let get = Op::Get(id);
    let reply = reply_of(alloc, tree, &get, txn)?;
    match &reply {
        Reply::Rec(record) => Ok(record.value.bytes() == text),
        _ => Ok(false),
    }
}

// The ids that the transaction finds in all of the left leaf.
fn ids_found(alloc: Global, tree: &Tree, txn: u64) -> Result<Vec<u64>, Fail> {
    let mut ids = Vec::new(alloc);
    let find = Op::Find(rect_of((0, 0, 10, 10))?);
    if let Reply::Found(records) = reply_of(alloc, tree, &find, txn)? {
        for record in records.as_slice() {
            ids.push(record.id)?;
        }
    }
    Ok(ids)
}

#[test]
fn own_drops_and_drafts_are_seen(rt: HostRuntime) -> Result<(), Fail> {
    let alloc = rt.alloc();
    let mut tree = tree_of(alloc, &RECTS)?;
    assert_eq!(rt;
        ids_found(alloc, &tree, 7)?.as_slice(),
        [1, 2, 5].as_slice()
    );
    let drop = run(alloc, &mut tree, &Op::Drop(2), 7)?;
    assert!(rt; matches!(drop.0, Reply::Done) && drop.1 == 1);
    let set = Op::Set(1, value_of(b"draft")?);
    let set = run(alloc, &mut tree, &set, 7)?;
    assert!(rt; matches!(set.0, Reply::Done) && set.1 == 1);
    assert_eq!(rt; ids_found(alloc, &tree, 7)?.as_slice(), [1, 5].as_slice());
    assert_eq!(rt;
        ids_found(alloc, &tree, 8)?.as_slice(),
        [1, 2, 5].as_slice()
    );
    assert!(rt; reads(alloc, &tree, 1, 7, b"draft")?);
    assert!(rt; reads(alloc, &tree, 1, 8, b"parcel")?);
    let again = run(alloc, &mut tree, &Op::Drop(2), 7)?;
    assert!(rt; matches!(again.0, Reply::Absent) && again.1 == 0);
    Ok(())
}

// Entry 1 is dead, and entry 5 was made by transaction 9.
#[test]
fn areas_pass_over_what_is_not_seen(rt: HostRuntime) -> Result<(), Fail> {
    let alloc = rt.alloc();
    let mut tree = tree_of(alloc, &RECTS)?;
    let mut marks = Marked::new(alloc);
    marks.push((
        1,
        Marks {
            made: Made::Committed,
            ended: Ended::Done,
            draft: Draft::None,
        },
    ))?;
    marks.push((
        5,
        Marks {
            made: Made::By(9),
            ended: Ended::Nobody,
            draft: Draft::None,
        },
    ))?;
    apply(&mut tree, marks)?;
    let fill = Op::Fill(rect_of((0, 0, 10, 10))?, value_of(b"fill")?);
    let filled = run(alloc, &mut tree, &fill, 7)?;
    assert!(rt; matches!(filled.0, Reply::Count(1)) && filled.1 == 1);
    assert!(rt; reads(alloc, &tree, 2, 7, b"fill")?);
    let clear = Op::Clear(rect_of((0, 0, 10, 10))?);
    let cleared = run(alloc, &mut tree, &clear, 9)?;
    assert!(rt; matches!(cleared.0, Reply::Count(2)) && cleared.1 == 2);
    assert!(rt; ids_found(alloc, &tree, 9)?.is_empty());
    Ok(())
}

#[test]
fn a_put_makes_no_marks(rt: HostRuntime) -> Result<(), Fail> {
    let alloc = rt.alloc();
    let tree = tree_of(alloc, &RECTS)?;
    let there = effect_of(alloc, &tree, &put_of(alloc, 3)?, 7)?;
    assert!(rt; matches!(there.reply, Reply::Exists) && there.marks.is_empty());
    let new = effect_of(alloc, &tree, &put_of(alloc, 9)?, 7)?;
    assert!(rt; matches!(new.reply, Reply::Done) && new.marks.is_empty());
    Ok(())
}

fn put_of(alloc: Global, id: u64) -> Result<Op, Fail> {
    Ok(Op::Put(Record {
        id,
        rect: rect_of((1, 1, 2, 2))?,
        value: value_of(b"put")?,
    }))
}
