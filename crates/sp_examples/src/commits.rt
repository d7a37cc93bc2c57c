// What the marks of a transaction on the entries of a tree make of its commit and of its rollback.
use crate::trees::tree_of_ids;
use sp_node::{Draft, Ended, Made, Marks, Tree};
use sp_plain::Change;
use sp_rect::Value;
use sp_txn::changes;
use std::alloc::Global;
use std::test::Fail;

// The ids of the entries 1 to 9. Entry 7 is the new record of the id that entry 2 had.
const IDS: [u64; 9] = [50, 40, 30, 20, 10, 60, 40, 5, 70];

// Who made and ended each entry, and whose draft it has, 0 for nobody's.
const MARKS: [(u64, Made, Ended, u64); 9] = [
    (1, Made::By(7), Ended::Nobody, 0),
    (2, Made::Committed, Ended::By(7), 0),
    (3, Made::Committed, Ended::Nobody, 7),
    (4, Made::By(7), Ended::By(7), 0),
    (5, Made::By(7), Ended::Done, 0),
    (6, Made::By(8), Ended::Nobody, 0),
    (7, Made::By(7), Ended::Nobody, 7),
    (8, Made::Committed, Ended::By(7), 7),
    (9, Made::Committed, Ended::Nobody, 8),
];

// The changes of transaction 7: a put is 1, a drop 2 and a set 3; the id; and the value's first byte.
const CHANGES: [(u8, u64, u8); 5] = [
    (2, 5, 0),
    (3, 30, b'd'),
    (2, 40, 0),
    (1, 40, b'd'),
    (1, 50, b'p'),
];

fn mark(
    alloc: Global,
    tree: &mut Tree,
    entry: u64,
    made: Made,
    ended: Ended,
    drafted: u64,
) -> Result<(), Fail> {
    let draft = match (drafted, Value::new(b"draft")) {
        (0, _) => Draft::None,
        (txn, Ok(value)) => Draft::Of(txn, value),
        _ => return Err(Fail::from("no value")),
    };
    let marks = Marks { made, ended, draft };
    tree.note_marks(entry, &marks)?;
    tree.mark(entry, marks);
    Ok(())
}

fn marked_tree(alloc: Global) -> Result<Tree, Fail> {
    let mut tree = tree_of_ids(alloc, &IDS)?;
    for (entry, made, ended, drafted) in MARKS {
        mark(alloc, &mut tree, entry, made, ended, drafted)?;
    }
    Ok(tree)
}

fn first_byte(value: &Value) -> u8 {
    value.bytes().first().copied().unwrap_or(0)
}

fn told(change: &Change) -> (u8, u64, u8) {
    match change {
        Change::Put(record) => (1, record.id, first_byte(&record.value)),
        Change::Drop(id) => (2, *id, 0),
        Change::Set(id, value) => (3, *id, first_byte(value)),
    }
}

#[test]
fn a_commit(rt: HostRuntime) -> Result<(), Fail> {
    let alloc = rt.alloc();
    let tree = marked_tree(alloc)?;
    let mut listed = Vec::new(alloc);
    for change in changes(alloc, &tree, 7)?.as_slice() {
        listed.push(told(change))?;
    }
    assert_eq!(rt; listed.as_slice(), CHANGES.as_slice());
    assert_eq!(rt;
        tree.marked(alloc, 7)?.as_slice(),
        [1, 2, 3, 4, 7, 8].as_slice()
    );
    Ok(())
}

#[test]
fn a_rollback(rt: HostRuntime) -> Result<(), Fail> {
    let alloc = rt.alloc();
    let mut tree = marked_tree(alloc)?;
    for _ in IDS {
        if let Some(entry) = tree.next_marked(7, 0) {
            tree.undo(entry, 7);
        }
    }
    assert_eq!(rt; tree.next_marked(7, 0), None);
    assert_eq!(rt; changes(alloc, &tree, 7)?.len(), 0);
    assert_eq!(rt; tree.next_marked(8, 7), Some(9));
    Ok(())
}
