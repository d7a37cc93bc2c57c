// Trees.
ghost use Rattle.std.specs.Prelude.{◌≡◌, OnOk, IfOk, MatchOption, length};
ghost use Rattle.std.specs.Option.{option_copied};
ghost use Rattle.std.specs.List.{filter};
ghost use Rattle.std.specs.List.Sorted.{IsPermutation, IsStrictlyIncreasing};
ghost use Rattle.sp_node.specs.Change.{at_number, table_with, roomy_with};
ghost use Rattle.sp_node.specs.First.{changed, IsChangeNoted};
ghost use Rattle.sp_node.specs.Index.{leaf_with, entry_of, has_id, passes, IsClear};
ghost use Rattle.sp_node.specs.Known.{IsNoted, AreMarksNoted};
ghost use Rattle.sp_node.specs.Look.{look, IsAscending};
ghost use Rattle.sp_node.specs.Marked.{entries_marked, HasNoMarkFrom, IsNextMarked, IsRoomSame, IsNotedKept, IsMarkForgotten};
ghost use Rattle.sp_node.specs.Marks.{is_marked, marked, settled, undone};
ghost use Rattle.sp_node.specs.Plan.{planned, IsMadeOf, HasRoom};
ghost use Rattle.sp_node.specs.Standing.{IsNodeOf, HasNoNode, IsEntryOf, HasNoEntry, IsLeafOf};
ghost use Rattle.sp_node.specs.Table.{IsShape, IsValid, empty_tree, entries_of, entries_with_id};

use crate::index::{
    count_entries, entry_at, forget, forget_ids, note, note_ids, note_marks, note_marks_in,
};
use crate::marks::Marks;
use crate::node::{Change, Entries, Entry, Node, Shape};
use crate::pair_index::PairIndex;
use crate::plan::Plan;
use crate::table::NodeTable;
use sp_rect::Numbers;
use std::alloc::{AllocError, Global};
use std::collections::HashMap;
use std::marker::Model;

/// A valid R-tree.
#[derive(Drop)]
pub struct Tree {
    shape: Shape,
    root: u64,
    next: u64,
    nodes: NodeTable,
    leaves: HashMap<u64, u64>,
    ids: PairIndex,
    marks: PairIndex,
}

impl Model for Tree {
    ghost use Rattle.std.specs.Prelude.{nat_eq};
    ghost use Rattle.std.specs.HashMap.{get, spare};
    ghost use Rattle.sp_node.specs.Table.{IsValid};
    ghost use Rattle.sp_node.specs.Plan.{Roomy};
    ghost use Rattle.sp_node.specs.Index.{IsIndex, AreAllKnown, AreAllNoted};

    ghost Value = { Roomy };

    ghost view = { λ a. record {
      table = record { shape = a.shape; root = a.root; next = a.next; nodes = a.nodes.nodes };
      node_room = a.nodes.room;
      entry_room = spare a.leaves;
      known = a.ids;
      noted = a.marks;
    } };

    ghost invariant = { λ a. record {
      valid : IsValid (record { shape = a.shape; root = a.root; next = a.next; nodes = a.nodes.nodes });
      index : IsIndex (λ q. get nat_eq a.leaves q) a.nodes.nodes;
      known : AreAllKnown a.ids a.nodes.nodes;
      noted : AreAllNoted a.marks a.nodes.nodes;
    } };
}

impl Tree {
    /// One empty leaf with number 1.
    pub fn new(alloc: Global, shape: Shape) -> Result<Tree, AllocError>
        requires { IsShape shape }
        ensures { IfOk result (λ t. t.table ≡ empty_tree shape) }
    {
        let mut nodes = NodeTable::new(alloc);
        nodes.reserve(1)?;
        nodes.put(1, Node::Leaf(Entries::new(alloc)));
        Ok(Tree {
            shape,
            root: 1,
            next: 2,
            nodes,
            leaves: HashMap::new(alloc),
            ids: PairIndex::new(alloc),
            marks: PairIndex::new(alloc),
        })
    }

    /// The least and the most members of a node.
    pub fn shape(&self) -> Shape
        ensures value { result ≡ self.now.table.shape }
        ensures valid { IsValid self.now.table }
    {
        self.shape
    }

    /// The number of the root.
    pub fn root(&self) -> u64
        ensures value { result ≡ self.now.table.root }
        ensures valid { IsValid self.now.table }
    {
        self.root
    }

    /// The next node number.
    pub fn next(&self) -> u64
        ensures value { result ≡ self.now.table.next }
        ensures valid { IsValid self.now.table }
        ensures rising { IsAscending self.now.table.nodes }
    {
        self.nodes.rises();
        self.next
    }

    /// How many entries the tree has. Takes no memory, and costs nothing.
    pub fn len(&self) -> usize
        ensures { result ≡ length (entries_of self.now.table) }
    {
        self.leaves.len()
    }

    /// The node of this number, or None exactly where the tree lacks the number. Costs one look while no node is gone
    /// from the tree, and else a binary search.
    pub fn node(&self, number: u64) -> Option<&Node>
        ensures value { option_copied result ≡ look self.now.table.nodes number }
        ensures stands { MatchOption (option_copied result) (HasNoNode self.now.table number) (IsNodeOf self.now.table number) }
        ensures valid { IsValid self.now.table }
    {
        self.nodes.get(number)
    }

    /// The leaf in which the entry stands, or None exactly where the tree lacks the entry. Costs a look at
    /// a hash table.
    pub fn leaf_of(&self, entry: u64) -> Option<u64>
        ensures value { result ≡ leaf_with self.now.table.nodes entry }
        ensures stands { MatchOption result (HasNoEntry self.now.table entry) (IsLeafOf self.now.table entry) }
    {
        self.leaves.get(&entry).copied()
    }

    /// The entry of this number, or None exactly where the tree lacks it. Costs a look for its leaf, and
    /// the leaf's entries.
    pub fn entry(&self, number: u64) -> Option<&Entry>
        ensures value { option_copied result ≡ entry_of self.now.table.nodes number }
        ensures stands { MatchOption (option_copied result) (HasNoEntry self.now.table number) (IsEntryOf self.now.table number) }
    {
        let _ = &self.shape;
        self.find(number)
    }

    // The entry of this number, by its leaf.
    fn find(&self, number: u64) -> Option<&Entry>
        ensures { option_copied result ≡ entry_of self.now.table.nodes number }
    {
        match self.node(self.leaf_of(number)?) {
            Some(Node::Leaf(entries)) => entry_at(entries.as_slice(), number),
            _ => None,
        }
    }

    // Whether the tree has an entry of this number with this id.
    fn has(&self, number: u64, id: u64) -> bool
        ensures { result ≡ has_id id (entry_of self.now.table.nodes number) }
    {
        match self.entry(number) {
            Some(entry) => id == entry.id,
            None => false,
        }
    }

    /// The numbers of the entries with this id, ascending. Costs a search in an ordered table, and those
    /// entries' leaves.
    pub fn of_id(&self, alloc: Global, id: u64) -> Result<Numbers, AllocError>
        ensures found { IfOk result (λ numbers. IsPermutation (entries_with_id self.now.table id) numbers) }
        ensures ascending { IfOk result (λ numbers. IsStrictlyIncreasing numbers) }
    {
        let numbers = self.ids.under(alloc, id)?;
        let found = self.keep_with_id(alloc, &numbers, id)?;
        Ok(Numbers::from_vec(found))
    }

    // Those of the numbers whose entries have the id.
    fn keep_with_id(&self, alloc: Global, numbers: &[u64], id: u64) -> Result<Vec<u64>, AllocError>
        ensures { IfOk result (λ kept. kept.items ≡ filter (λ n. has_id id (entry_of self.now.table.nodes n)) numbers.now) }
    {
        let mut kept = Vec::new(alloc);
        for number in numbers {
            if self.has(*number, id) {
                kept.push(*number)?;
            }
        }
        Ok(kept)
    }

    // Whether the entry of this number bears a mark of the transaction.
    fn bears(&self, number: u64, txn: u64) -> bool
        ensures { result ≡ passes (is_marked txn) (entry_of self.now.table.nodes number) }
    {
        match self.entry(number) {
            Some(entry) => entry.is_marked(txn),
            None => false,
        }
    }

    /// The least entry number that is at least `start` and whose entry bears a mark of the transaction, or
    /// None exactly where there is none. Takes no memory. Costs a search in an ordered table, and as `entry`
    /// does.
    pub fn next_marked(&self, txn: u64, start: u64) -> Option<u64>
        ensures { MatchOption result (HasNoMarkFrom self.now.table txn start) (IsNextMarked self.now.table txn start) }
    {
        let mut at = start;
        while let Some(number) = self.marks.first_from(txn, at) {
            if self.bears(number, txn) {
                return Some(number);
            }
            at = number.checked_add(1)?;
        }
        None
    }

    /// The numbers of the entries that bear a mark of the transaction, ascending. Costs a search in an
    /// ordered table, and those entries' leaves.
    pub fn marked(&self, alloc: Global, txn: u64) -> Result<Numbers, AllocError>
        ensures found { IfOk result (λ numbers. IsPermutation (entries_marked self.now.table txn) numbers) }
        ensures ascending { IfOk result (λ numbers. IsStrictlyIncreasing numbers) }
    {
        let numbers = self.marks.under(alloc, txn)?;
        let found = self.keep_marked(alloc, &numbers, txn)?;
        Ok(Numbers::from_vec(found))
    }

    // Those of the numbers whose entries bear a mark of the transaction.
    fn keep_marked(&self, alloc: Global, numbers: &[u64], txn: u64) -> Result<Vec<u64>, AllocError>
        ensures { IfOk result (λ kept. kept.items ≡ filter (λ n. passes (is_marked txn) (entry_of self.now.table.nodes n)) numbers.now) }
    {
        let mut kept = Vec::new(alloc);
        for number in numbers {
            if self.bears(*number, txn) {
                kept.push(*number)?;
            }
        }
        Ok(kept)
    }

    // Changes the entry of this number.
    fn change(&mut self, entry: u64, change: Change)
        requires { IsChangeNoted self.old.noted entry change }
        ensures { self.new ≡ roomy_with (at_number entry (changed change)) self.old }
    {
        if let Some(leaf) = self.leaves.get(&entry).copied() {
            self.nodes.change(leaf, entry, change);
        }
    }

    // Takes the pair of the transaction and the entry out of the index of marks.
    fn forget_mark(&mut self, entry: u64, txn: u64)
        requires { IsClear self.old.table.nodes txn entry }
        ensures table { self.new.table ≡ self.old.table }
        ensures room { IsRoomSame self.old self.new }
        ensures noted { IsMarkForgotten txn entry self.old self.new }
    {
        self.marks.forget(txn, entry);
    }

    /// Makes the room that it takes to give the entry of this number these marks, and changes nothing else,
    /// with or without memory. The room for a transaction's marks stays until they are settled or undone, or
    /// the tree adopts a plan. Costs a search in an ordered table for each transaction that the marks name.
    pub fn note_marks(&mut self, entry: u64, marks: &Marks) -> Result<(), AllocError>
        ensures table { self.new.table ≡ self.old.table }
        ensures room { IsRoomSame self.old self.new }
        ensures kept { IsNotedKept self.old self.new }
        ensures ok { OnOk result (IsNoted self.new.noted entry marks.now) }
        ensures all { AreMarksNoted self.new.noted (entries_of self.new.table) }
    {
        note_marks(&mut self.marks, marks, entry)
    }

    /// Gives the entry of this number these marks, and changes nothing else; nothing at all where the tree
    /// lacks the entry. Needs the room that `note_marks` makes. Takes no memory. Costs as `entry` does.
    pub fn mark(&mut self, entry: u64, marks: Marks)
        requires { IsNoted self.old.noted entry marks }
        ensures { self.new ≡ roomy_with (at_number entry (marked marks)) self.old }
    {
        self.change(entry, Change::Mark(marks));
    }

    /// Makes of the marks of this transaction on the entry what its commit does: what the transaction made
    /// is committed, what it ended is done, and its draft becomes the value. Changes nothing else; the room
    /// for marks of this transaction on the entry goes. Takes no memory. Costs as `entry` does.
    pub fn settle(&mut self, entry: u64, txn: u64)
        ensures table { self.new.table ≡ table_with (at_number entry (settled txn)) self.old.table }
        ensures room { IsRoomSame self.old self.new }
        ensures noted { IsMarkForgotten txn entry self.old self.new }
    {
        self.change(entry, Change::Settle(txn));
        self.forget_mark(entry, txn);
    }

    /// Makes of the marks of this transaction on the entry what its rollback does: what the transaction
    /// made is done, what else it ended is ended by nobody, and its draft goes. Changes nothing else; the
    /// room for marks of this transaction on the entry goes. Takes no memory. Costs as `entry` does.
    pub fn undo(&mut self, entry: u64, txn: u64)
        ensures table { self.new.table ≡ table_with (at_number entry (undone txn)) self.old.table }
        ensures room { IsRoomSame self.old self.new }
        ensures noted { IsMarkForgotten txn entry self.old self.new }
    {
        self.change(entry, Change::Undo(txn));
        self.forget_mark(entry, txn);
    }

    /// Makes the room that adopting the plan takes, and changes nothing else, with or without memory. Costs
    /// the parts, and what growing the tables takes.
    pub fn make_room(&mut self, plan: &Plan) -> Result<(), AllocError>
        ensures table { self.new.table ≡ self.old.table }
        ensures kept { IsNotedKept self.old self.new }
        ensures ok { OnOk result (HasRoom self.new plan.now) }
    {
        let parts = plan.parts.as_slice();
        let entries = count_entries(parts).ok_or(AllocError)?;
        self.nodes.reserve(parts.len())?;
        self.leaves.reserve(entries)?;
        note_ids(&mut self.ids, &self.nodes, parts)?;
        note_marks_in(&mut self.marks, parts)
    }

    /// Puts the plan's nodes in place of the tree's. Takes no memory. Costs the parts, and a look at tables for each
    /// entry that does not stay in front in its leaf.
    pub fn adopt(&mut self, plan: Plan)
        requires made { IsMadeOf self.old.table plan }
        requires room { HasRoom self.old plan }
        ensures { self.new.table ≡ planned self.old.table plan }
    {
        forget(&mut self.leaves, &self.nodes, plan.parts.as_slice());
        note(&mut self.leaves, &self.nodes, plan.parts.as_slice());
        forget_ids(
            &mut self.ids,
            &self.leaves,
            &self.nodes,
            plan.parts.as_slice(),
        );
        self.nodes.take(plan.parts);
        self.root = plan.root;
        self.next = plan.next;
    }
}
