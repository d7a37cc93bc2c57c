// The end of a transaction on the entries that bear its marks.
ghost use Rattle.std.specs.Prelude.{◌≡◌, ℕ, ◌<◌, ◌≤◌, ◌++◌, true, false, IsTrue, List, length, take, drop, filter, cond};
ghost use Rattle.std.specs.Bool.{OnTrue, OnFalse};
ghost use Rattle.std.specs.VecDeque.{deque_capacity};
ghost use Rattle.sp_node.specs.declared.node.Entry.{Entry as AnyEntry};
ghost use Rattle.sp_node.specs.Among.{Among};
ghost use Rattle.sp_node.specs.Change.{at_number, table_with};
ghost use Rattle.sp_node.specs.Marks.{is_done, is_marked};
ghost use Rattle.sp_node.specs.Table.{IsValid, entries_of};
ghost use Rattle.sp_model.specs.Moves.{with_number, newly_dead};
ghost use Rattle.sp_ending.specs.Ends.{ended, EndsOne, AreClean};
ghost use Rattle.sp_ending.specs.Tail.{Rises, IsTail};

use crate::dead::bury;
use sp_node::{Ended, Entry, Tree};
use std::collections::VecDeque;

/// How a transaction ends.
#[derive(Clone, Copy)]
pub enum Ending {
    Commit,
    Rollback,
}

// Makes of the transaction's marks on the entry what its end does.
fn end_mark(tree: &mut Tree, ending: Ending, number: u64, txn: u64)
    ensures { tree.new.table ≡ table_with (at_number number (ended ending txn)) tree.old.table }
{
    match ending {
        Ending::Commit => tree.settle(number, txn),
        Ending::Rollback => tree.undo(number, txn),
    }
}

// Whether the entry is dead.
fn is_over(entry: &Entry) -> bool
    ensures { result ≡ is_done entry.now.marks.ended }
{
    entry.marks.ended == Ended::Done
}

// Whether the entry of this number is dead.
fn is_dead(tree: &Tree, number: u64) -> bool
    ensures { (e : AnyEntry) → Among e (entries_of tree.now.table) → e.number ≡ number → result ≡ is_done e.marks.ended }
{
    let _valid = tree.root();
    match tree.entry(number) {
        Some(entry) => is_over(entry),
        None => false,
    }
}

// Ends the transaction on the entry of this number; where that kills it, it joins the dead from a place on.
fn end_one(
    tree: &mut Tree,
    dead: &mut VecDeque<u64>,
    from: usize,
    ending: Ending,
    number: u64,
    txn: u64,
)
    requires from { from ≤ length dead.old.items }
    requires rises { Rises (drop from dead.old.items) }
    requires room { length dead.old.items < deque_capacity dead.old }
    ensures table { tree.new.table ≡ table_with (at_number number (ended ending txn)) tree.old.table }
    ensures dead { (e : AnyEntry) → Among e (entries_of tree.new.table) → e.number ≡ number
        → dead.new.items ≡ cond (is_done e.marks.ended) (take from dead.old.items ++ with_number number (drop from dead.old.items)) dead.old.items }
    ensures room { deque_capacity dead.old ≤ deque_capacity dead.new }
{
    end_mark(tree, ending, number, txn);
    if is_dead(tree, number) {
        bury(dead, from, number);
    }
}

// Ends the transaction on one of the entries that bear its marks; false where none does.
fn end_next(
    tree: &mut Tree,
    dead: &mut VecDeque<u64>,
    from: usize,
    ending: Ending,
    txn: u64,
) -> bool
    requires tail { (before : List AnyEntry) × IsTail dead.old.items from before (entries_of tree.old.table) }
    requires room { length (entries_of tree.old.table) ≤ deque_capacity dead.old }
    ensures one { OnTrue result (EndsOne ending txn from tree.old.table dead.old.items tree.new.table dead.new.items) }
    ensures same { OnFalse result ((tree.new.table ≡ tree.old.table) × (dead.new.items ≡ dead.old.items)) }
    ensures none { OnFalse result ((e : AnyEntry) → Among e (entries_of tree.old.table) → is_marked txn e ≡ false) }
    ensures valid { OnFalse result (IsValid tree.old.table) }
    ensures room { length (entries_of tree.new.table) ≤ deque_capacity dead.new }
{
    let _valid = tree.root();
    match tree.next_marked(txn, 0) {
        Some(number) => {
            end_one(tree, dead, from, ending, number, txn);
            true
        }
        None => false,
    }
}

/// Ends the transaction on the entries that bear its marks; those that it kills join the dead from a place on,
/// which ascend. Takes no memory. Costs those entries' leaves, and a search in an ordered table for each.
pub(crate) fn end_marks(
    tree: &mut Tree,
    dead: &mut VecDeque<u64>,
    from: usize,
    ending: Ending,
    txn: u64,
)
    requires clean { AreClean ending txn (entries_of tree.old.table) }
    requires tail { (before : List AnyEntry) × IsTail dead.old.items from before (entries_of tree.old.table) }
    requires room { length (entries_of tree.old.table) ≤ deque_capacity dead.old }
    ensures table { tree.new.table ≡ table_with (ended ending txn) tree.old.table }
    ensures tail { (before : List AnyEntry) → IsTail dead.old.items from before (entries_of tree.old.table) → IsTail dead.new.items from before (entries_of tree.new.table) }
    ensures front { take from dead.new.items ≡ take from dead.old.items }
    ensures room { length (entries_of tree.new.table) ≤ deque_capacity dead.new }
{
    'marked: loop {
        if !end_next(tree, dead, from, ending, txn) {
            return;
        }
    }
}
