// Nodes of a tree and what stands in them.
ghost use Rattle.std.specs.Prelude.{◌≡◌, MatchOption, false};
ghost use Rattle.sp_node.specs.Look.{entries_of_node};
ghost use Rattle.sp_node.specs.Index.{has_number};
ghost use Rattle.sp_node.specs.Marks.{is_marked};
ghost use Rattle.sp_node.specs.First.{changed, first_changed, node_first_changed, IsPlaceOf};

use crate::marks::{Ended, Marks};
use sp_list::{Duplicate, Sequence};
use sp_rect::{Rect, Value};
use std::alloc::{AllocError, Global};

/// How many members a node has: at most `max`, and, but for the root, at least `min`.
#[derive(Clone, Copy, Debug, PartialEq, Eq, Drop)]
pub struct Shape {
    pub max: u32,
    pub min: u32,
}

/// A record's place in the index: its own number, the record, and the marks of transactions on it.
#[derive(Drop)]
pub struct Entry {
    pub number: u64,
    pub id: u64,
    pub rect: Rect,
    pub value: Value,
    pub marks: Marks,
}

/// A node below another, and the bound of the rectangles in it.
#[derive(Clone, Copy, Debug, PartialEq, Eq, Drop)]
pub struct Child {
    pub rect: Rect,
    pub node: u64,
}

/// The entries of a leaf, in order.
pub type Entries = Sequence<Entry>;

/// The children of an inner node, in order.
pub type Children = Sequence<Child>;

/// What stands under a node's number: the entries of a leaf, or the children of an inner node.
#[derive(Drop)]
pub enum Node {
    Leaf(Entries),
    Inner(Children),
}

/// Nodes with their numbers.
pub type Nodes = Sequence<(u64, Node)>;

impl Duplicate for Entry {
    fn copy(&self, alloc: Global) -> Result<Entry, AllocError> {
        let value = self.value.copy(alloc)?;
        let marks = self.marks.copy(alloc)?;
        Ok(Entry {
            number: self.number,
            id: self.id,
            rect: self.rect,
            value,
            marks,
        })
    }
}

impl Duplicate for Child {
    fn copy(&self, _alloc: Global) -> Result<Child, AllocError> {
        Ok(*self)
    }
}

impl Duplicate for Node {
    fn copy(&self, alloc: Global) -> Result<Node, AllocError> {
        match self {
            Node::Leaf(entries) => Ok(Node::Leaf(entries.copy(alloc)?)),
            Node::Inner(children) => Ok(Node::Inner(children.copy(alloc)?)),
        }
    }
}

/// What is done to an entry.
#[derive(Drop)]
pub(crate) enum Change {
    /// It gets these marks.
    Mark(Marks),
    /// The transaction commits.
    Settle(u64),
    /// The transaction rolls back.
    Undo(u64),
}

// Changes an entry.
fn change_entry(entry: &mut Entry, change: Change)
    ensures { entry.new ≡ changed change entry.old }
{
    match change {
        Change::Mark(marks) => entry.marks = marks,
        Change::Settle(txn) => entry.marks.settle(&mut entry.value, txn),
        Change::Undo(txn) => entry.marks.undo(txn),
    }
}

// Changes the entry of this number.
fn change_entries(entries: &mut Vec<Entry>, number: u64, change: Change)
    ensures { entries.new.items ≡ first_changed number (changed change) entries.old.items }
{
    if let Some(at) = place_of(entries.as_slice(), number) {
        change_entry(&mut entries[at], change);
    }
}

// The place of the entry of this number.
fn place_of(entries: &[Entry], number: u64) -> Option<usize>
    ensures { MatchOption result (has_number entries.now number ≡ false) (λ at. IsPlaceOf number entries.now at) }
{
    for (i, entry) in entries.iter().enumerate() {
        if entry.number == number {
            return Some(i);
        }
    }
    None
}

/// The node with the entry of this number changed.
pub(crate) fn change_node(node: Node, number: u64, change: Change) -> Node
    ensures { result ≡ node_first_changed number (changed change) node }
{
    match node {
        Node::Leaf(entries) => {
            let mut items = entries.into_vec();
            change_entries(&mut items, number, change);
            Node::Leaf(Entries::from_vec(items))
        }
        Node::Inner(children) => Node::Inner(children),
    }
}

impl Entry {
    /// Whether it bears a mark of the transaction, which made it, ended it or has a draft of it, and is not
    /// dead. Takes no memory.
    pub fn is_marked(&self, txn: u64) -> bool
        ensures { result ≡ is_marked txn self.now }
    {
        let marks = &self.marks;
        let named = marks.made.is_by(txn) || marks.ended.is_by(txn) || marks.draft.is_of(txn);
        let dead = marks.ended == Ended::Done;
        named && !dead
    }
}

impl Node {
    /// The entries of a leaf, and none of an inner node.
    pub fn entries(&self) -> &[Entry]
        ensures { result.now ≡ entries_of_node self.now }
    {
        match self {
            Node::Leaf(entries) => entries.as_slice(),
            Node::Inner(_) => &[],
        }
    }
}
