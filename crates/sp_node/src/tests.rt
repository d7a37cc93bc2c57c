// Tests over one tree: a root over two leaves.
ghost use Rattle.std.specs.Prelude.{◌≡◌, ◌++◌, ◌∷◌, [], IfOk, OnOk};
ghost use Rattle.sp_rect.specs.Plane.{corners};
ghost use Rattle.sp_node.specs.Sample.{sample_entry, sample_left, sample_right, sample_root, sample_plan, sample_shape};
ghost use Rattle.sp_node.specs.Table.{empty_tree};

use crate::{
    Child, Children, Cursor, Draft, Ended, Entries, Entry, Made, Marks, Node, Overlay, Part, Parts,
    Plan, Shape, Traced, Tree, meeting, put_part,
};
use sp_list::Duplicate;
use sp_rect::{Rect, Value};
use std::alloc::Global;
use std::test::Fail;

fn rect(x1: i64, y1: i64, x2: i64, y2: i64) -> Result<Rect, &'static str>
    ensures { IfOk result (λ r. r ≡ corners x1 y1 x2 y2) }
{
    match Rect::new(x1, y1, x2, y2) {
        Ok(rect) => Ok(rect),
        Err(_) => Err("no rectangle"),
    }
}

fn value(text: &[u8]) -> Result<Value, &'static str>
    ensures { IfOk result (λ v. v ≡ text.now) }
{
    match Value::new(text) {
        Ok(value) => Ok(value),
        Err(_) => Err("no value"),
    }
}

fn entry(alloc: Global, number: u64, rect: Rect) -> Result<Entry, &'static str>
    ensures { IfOk result (λ e. e ≡ sample_entry number rect) }
{
    let value = value(b"a")?;
    Ok(Entry {
        number,
        id: number,
        rect,
        value,
        marks: Marks {
            made: Made::Committed,
            ended: Ended::Nobody,
            draft: Draft::None,
        },
    })
}

// Puts an entry at the end.
fn add(alloc: Global, entries: &mut Entries, number: u64, rect: Rect) -> Result<(), &'static str>
    ensures { OnOk result (entries.new ≡ entries.old ++ sample_entry number rect ∷ []) }
{
    let entry = entry(alloc, number, rect)?;
    entries.push(entry).map_err(|_| "no memory")
}

fn left(alloc: Global) -> Result<Entries, &'static str>
    ensures { IfOk result (λ es. es ≡ sample_left) }
{
    let mut entries = Entries::new(alloc);
    add(alloc, &mut entries, 1, rect(0, 0, 2, 2)?)?;
    add(alloc, &mut entries, 2, rect(8, 8, 10, 10)?)?;
    add(alloc, &mut entries, 5, rect(4, 4, 6, 6)?)?;
    Ok(entries)
}

fn right(alloc: Global) -> Result<Entries, &'static str>
    ensures { IfOk result (λ es. es ≡ sample_right) }
{
    let mut entries = Entries::new(alloc);
    add(alloc, &mut entries, 3, rect(100, 0, 102, 2)?)?;
    add(alloc, &mut entries, 4, rect(108, 8, 110, 10)?)?;
    Ok(entries)
}

fn root(alloc: Global) -> Result<Children, &'static str>
    ensures { IfOk result (λ cs. cs ≡ sample_root) }
{
    let left = Child {
        rect: rect(0, 0, 10, 10)?,
        node: 1,
    };
    let right = Child {
        rect: rect(100, 0, 110, 10)?,
        node: 2,
    };
    let mut children = Children::new(alloc);
    children.push(left).map_err(|_| "no memory")?;
    children.push(right).map_err(|_| "no memory")?;
    Ok(children)
}

fn plan(alloc: Global) -> Result<Plan, &'static str>
    ensures { IfOk result (λ plan. plan ≡ sample_plan) }
{
    let mut parts = Parts::new(alloc);
    put_part(&mut parts, Part::Now(3, Node::Inner(root(alloc)?))).map_err(|_| "no memory")?;
    put_part(&mut parts, Part::Now(1, Node::Leaf(left(alloc)?))).map_err(|_| "no memory")?;
    put_part(&mut parts, Part::Now(2, Node::Leaf(right(alloc)?))).map_err(|_| "no memory")?;
    Ok(Plan {
        parts,
        root: 3,
        next: 4,
    })
}

fn empty(alloc: Global) -> Result<Tree, &'static str>
    ensures { IfOk result (λ t. t.table ≡ empty_tree sample_shape) }
{
    match Tree::new(alloc, Shape { max: 4, min: 2 }) {
        Ok(tree) => Ok(tree),
        Err(_) => Err("no memory"),
    }
}

fn tree(alloc: Global) -> Result<Tree, &'static str> {
    let mut tree = empty(alloc)?;
    let plan = plan(alloc)?;
    tree.make_room(&plan).map_err(|_| "no memory")?;
    tree.adopt(plan);
    Ok(tree)
}

// The leaf of the entry, its id, and the first entry with that id; 0 where there is none.
fn seen(alloc: Global, tree: &Tree, entry: u64) -> Result<(u64, u64, u64), &'static str> {
    let leaf = tree.leaf_of(entry).unwrap_or(0);
    let id = match tree.entry(entry) {
        Some(entry) => entry.id,
        None => 0,
    };
    let numbers = tree.of_id(alloc, entry).map_err(|_| "no memory")?;
    let first = match numbers.get(0) {
        Some(number) => *number,
        None => 0,
    };
    Ok((leaf, id, first))
}

#[test]
fn entries(rt: HostRuntime) -> Result<(), Fail> {
    let alloc = rt.alloc();
    let tree = tree(alloc)?;
    for (entry, leaf) in [(1, 1), (2, 1), (3, 2), (4, 2), (5, 1)] {
        let same = seen(alloc, &tree, entry)? == (leaf, entry, entry);
        assert!(rt; same, "entry {entry}");
    }
    let none = seen(alloc, &tree, 6)? == (0, 0, 0);
    assert!(rt; none);
    Ok(())
}

// What the numbers stand for before the plan of the tests is adopted, and in the tree that it gives.
#[test]
fn overlays(rt: HostRuntime) -> Result<(), Fail> {
    let alloc = rt.alloc();
    let tree = empty(alloc)?;
    let before = Overlay::of(&tree);
    let there = (
        before.root(),
        before.node(1).is_some(),
        before.node(2).is_some(),
    );
    assert_eq!(rt; there, (1, true, false));
    let plan = plan(alloc)?;
    let after = Overlay::planned(&tree, &plan);
    let there = (
        after.root(),
        after.node(2).is_some(),
        after.node(4).is_some(),
    );
    assert_eq!(rt; there, (3, true, false));
    assert_eq!(rt; after.node(1).map(|node| node.entries().len()), Some(3));
    Ok(())
}

// How many entries and how many children a copy of the node has.
fn copied(alloc: Global, tree: &Tree, number: u64) -> Result<(usize, usize), &'static str> {
    let node = tree.node(number).ok_or("no node")?;
    match node.copy(alloc) {
        Ok(Node::Leaf(entries)) => Ok((entries.len(), 0)),
        Ok(Node::Inner(children)) => Ok((0, children.len())),
        Err(_) => Err("no memory"),
    }
}

#[test]
fn nodes(rt: HostRuntime) -> Result<(), Fail> {
    let alloc = rt.alloc();
    let tree = tree(alloc)?;
    let counts = (tree.root(), tree.next(), tree.shape().max) == (3, 4, 4);
    assert!(rt; counts);
    assert!(rt; tree.node(4).is_none());
    let leaf = copied(alloc, &tree, 1)? == (3, 0);
    assert!(rt; leaf);
    let root = copied(alloc, &tree, 3)? == (0, 2);
    assert!(rt; root);
    Ok(())
}

#[test]
fn searches(rt: HostRuntime) -> Result<(), Fail> {
    let alloc = rt.alloc();
    let tree = tree(alloc)?;
    let mut inside = Traced::new(alloc, &tree);
    let found = meeting(alloc, &mut inside, &rect(1, 1, 3, 3)?)?;
    assert_eq!(rt; found.as_slice(), [1].as_slice());
    assert_eq!(rt; inside.looks().as_slice(), [3, 1].as_slice());
    let mut between = Traced::new(alloc, &tree);
    let found = meeting(alloc, &mut between, &rect(50, 50, 60, 60)?)?;
    assert_eq!(rt; found.as_slice(), [].as_slice());
    assert_eq!(rt; between.looks().as_slice(), [3].as_slice());
    let mut all = Cursor::new(&tree);
    let found = meeting(alloc, &mut all, &rect(2, 2, 108, 8)?)?;
    assert_eq!(rt; found.as_slice(), [1, 2, 3, 4, 5].as_slice());
    Ok(())
}

// Who made and ended the entry, whether it has a draft of transaction 8, and its value's first byte, after
// transaction 7 has committed or rolled back.
fn after(
    alloc: Global,
    tree: &mut Tree,
    entry: u64,
    made: Made,
    ended: Ended,
    drafted: u64,
    commits: bool,
) -> Result<(Made, Ended, bool, u8), &'static str> {
    let draft = Draft::Of(drafted, value(b"b")?);
    let marks = Marks { made, ended, draft };
    tree.note_marks(entry, &marks).map_err(|_| "no memory")?;
    tree.mark(entry, marks);
    if commits {
        tree.settle(entry, 7);
    } else {
        tree.undo(entry, 7);
    }
    let entry = tree.entry(entry).ok_or("no entry")?;
    let marks = &entry.marks;
    let first = *entry.value.bytes().first().ok_or("no byte")?;
    Ok((marks.made, marks.ended, marks.draft.is_of(8), first))
}

#[test]
fn marks(rt: HostRuntime) -> Result<(), Fail> {
    let alloc = rt.alloc();
    let mut tree = tree(alloc)?;
    let done = after(alloc, &mut tree, 1, Made::By(7), Ended::By(7), 7, true)?;
    assert_eq!(rt; done, (Made::Committed, Ended::Done, false, b'b'));
    let undone = after(alloc, &mut tree, 2, Made::By(7), Ended::Nobody, 7, false)?;
    assert_eq!(rt; undone, (Made::By(7), Ended::Done, false, b'a'));
    let opened = after(alloc, &mut tree, 3, Made::Committed, Ended::By(7), 8, false)?;
    assert_eq!(rt; opened, (Made::Committed, Ended::Nobody, true, b'a'));
    let others = after(alloc, &mut tree, 4, Made::By(8), Ended::By(8), 8, true)?;
    assert_eq!(rt; others, (Made::By(8), Ended::By(8), true, b'a'));
    tree.settle(4, 8);
    assert_eq!(rt; tree.entry(4).map(|e| e.marks.ended), Some(Ended::Done));
    Ok(())
}

// Gives the entry a draft of the transaction.
fn draft(alloc: Global, tree: &mut Tree, entry: u64, txn: u64) -> Result<(), &'static str> {
    let draft = Draft::Of(txn, value(b"b")?);
    let marks = Marks {
        made: Made::Committed,
        ended: Ended::Nobody,
        draft,
    };
    tree.note_marks(entry, &marks).map_err(|_| "no memory")?;
    tree.mark(entry, marks);
    Ok(())
}

#[test]
fn marked_entries(rt: HostRuntime) -> Result<(), Fail> {
    let alloc = rt.alloc();
    let mut tree = tree(alloc)?;
    for (entry, txn) in [(5, 7), (1, 7), (3, 7), (2, 8)] {
        draft(alloc, &mut tree, entry, txn)?;
    }
    assert_eq!(rt; tree.marked(alloc, 7)?.as_slice(), [1, 3, 5].as_slice());
    assert_eq!(rt; tree.marked(alloc, 9)?.as_slice(), [].as_slice());
    let all = [
        tree.next_marked(7, 0),
        tree.next_marked(7, 2),
        tree.next_marked(7, 6),
    ];
    assert_eq!(rt; all, [Some(1), Some(3), None]);
    tree.undo(3, 7);
    tree.settle(5, 7);
    let left = [
        tree.next_marked(7, 0),
        tree.next_marked(7, 2),
        tree.next_marked(8, 0),
    ];
    assert_eq!(rt; left, [Some(1), None, Some(2)]);
    Ok(())
}
