// What the commit of a transaction changes in the plain store.
ghost use Rattle.std.specs.Prelude.{◌≡◌, not, IfOk, Option, flat_map};
ghost use Rattle.std.specs.Option.{option_and_then, option_to_list};
ghost use Rattle.std.specs.List.Sorted.{IsPermutation, IsSortedBy};
ghost use Rattle.sp_node.specs.Index.{entry_of};
ghost use Rattle.sp_node.specs.Table.{entries_of};
ghost use Rattle.sp_txn.specs.Changes.{change_of, changes_of, id_of, is_drop, precedes};

use crate::visibility::{record_for, value_for};
use sp_node::{Ended, Entry, Tree};
use sp_plain::{Change, Changes};
use std::alloc::{AllocError, Global};

// The change that the transaction makes by its marks on the entry, where they make one.
pub(crate) fn change_of(
    alloc: Global,
    entry: &Entry,
    txn: u64,
) -> Result<Option<Change>, AllocError>
    ensures { IfOk result (λ change. change ≡ change_of txn entry.now) }
{
    let marks = &entry.marks;
    if marks.ended == Ended::Done {
        return Ok(None);
    }
    if marks.made.is_by(txn) {
        if marks.ended.is_by(txn) {
            return Ok(None);
        }
        return Ok(Some(Change::Put(record_for(alloc, entry, txn)?)));
    }
    if marks.ended.is_by(txn) {
        return Ok(Some(Change::Drop(entry.id)));
    }
    if marks.draft.is_of(txn) {
        return Ok(Some(Change::Set(entry.id, value_for(alloc, entry, txn)?)));
    }
    Ok(None)
}

// The change at the entry of this number.
fn change_at(
    alloc: Global,
    tree: &Tree,
    number: u64,
    txn: u64,
) -> Result<Option<Change>, AllocError>
    ensures { IfOk result (λ change. change ≡ option_and_then (change_of txn) (entry_of tree.now.table.nodes number)) }
{
    match tree.entry(number) {
        Some(entry) => change_of(alloc, entry, txn),
        None => Ok(None),
    }
}

// The changes at the entries of these numbers, in their order.
fn changes_at(
    alloc: Global,
    tree: &Tree,
    numbers: &[u64],
    txn: u64,
) -> Result<Vec<Change>, AllocError>
    ensures { IfOk result (λ found. found.items ≡ flat_map (λ n. option_to_list (option_and_then (change_of txn) (entry_of tree.now.table.nodes n))) numbers.now) }
{
    let mut found = Vec::new(alloc);
    for number in numbers {
        if let Some(change) = change_at(alloc, tree, *number, txn)? {
            found.push(change)?;
        }
    }
    Ok(found)
}

// What changes are ordered by: the id, and of one id the drop first.
fn order_of(change: &Change) -> (u64, bool)
    ensures { result ≡ (id_of change.now, not (is_drop change.now)) }
{
    match change {
        Change::Put(record) => (record.id, true),
        Change::Drop(id) => (*id, false),
        Change::Set(id, _) => (*id, true),
    }
}

/// What a commit of the transaction changes in the plain store, by ascending id: a put of each entry that
/// it made and did not end, with the value that it sees; a drop of each that it ended and did not make; and
/// a set of each other one that it gave a draft. A dead entry gives no change. A drop stands before a put
/// of the same id. Costs a search in an ordered table, the leaves of the entries that bear the
/// transaction's marks, copies of their values, and a sort.
pub fn changes(alloc: Global, tree: &Tree, txn: u64) -> Result<Changes, AllocError>
    ensures exact { IfOk result (λ changes. IsPermutation (changes_of txn (entries_of tree.now.table)) changes) }
    ensures ordered { IfOk result (λ changes. IsSortedBy precedes changes) }
{
    let _root = tree.root();
    let numbers = tree.marked(alloc, txn)?;
    let mut found = changes_at(alloc, tree, numbers.as_slice(), txn)?;
    found.sort_by_key(|change| order_of(change))?;
    Ok(Changes::from_vec(found))
}
