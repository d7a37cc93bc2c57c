// Which entries an operation looks at.
ghost use Rattle.std.specs.Prelude.{◌≡◌, IfOk};
ghost use Rattle.std.specs.List.{filter};
ghost use Rattle.std.specs.List.Sorted.{IsPermutation, IsStrictlyIncreasing};
ghost use Rattle.sp_rect.specs.Store.{Area, Id, part_of};
ghost use Rattle.sp_node.specs.Index.{entry_of};
ghost use Rattle.sp_ops.specs.Seen.{numbers_in, numbers_seen, sees};

use sp_node::{Cursor, Tree, meeting};
use sp_rect::{Numbers, Op, Rect};
use sp_txn::visible;
use std::alloc::{AllocError, Global};

/// The numbers of the entries that meet the rectangle, ascending, whatever their marks.
pub(crate) fn in_area(alloc: Global, tree: &Tree, rect: &Rect) -> Result<Numbers, AllocError>
    ensures found { IfOk result (λ numbers. IsPermutation (numbers_in tree.now.table (Area rect.now)) numbers) }
    ensures ascending { IfOk result (λ numbers. IsStrictlyIncreasing numbers) }
{
    meeting(alloc, &mut Cursor::new(tree), rect)
}

// The numbers of the entries with the id, ascending.
fn of_id(alloc: Global, tree: &Tree, id: u64) -> Result<Numbers, AllocError>
    ensures found { IfOk result (λ numbers. IsPermutation (numbers_in tree.now.table (Id id)) numbers) }
    ensures ascending { IfOk result (λ numbers. IsStrictlyIncreasing numbers) }
{
    tree.of_id(alloc, id)
}

/// The numbers of the entries in the part of the records that the operation looks at, ascending, whatever
/// their marks.
pub(crate) fn in_part(alloc: Global, tree: &Tree, op: &Op) -> Result<Numbers, AllocError>
    ensures found { IfOk result (λ numbers. IsPermutation (numbers_in tree.now.table (part_of op.now)) numbers) }
    ensures ascending { IfOk result (λ numbers. IsStrictlyIncreasing numbers) }
{
    match op {
        Op::Put(record) => of_id(alloc, tree, record.id),
        Op::Drop(id) | Op::Set(id, _) | Op::Get(id) => of_id(alloc, tree, *id),
        Op::Find(rect) | Op::Fill(rect, _) | Op::Clear(rect) => in_area(alloc, tree, rect),
    }
}

// Whether the tree has an entry of this number that the transaction sees.
fn sees(tree: &Tree, number: u64, txn: u64) -> bool
    ensures { result ≡ sees txn (entry_of tree.now.table.nodes number) }
{
    match tree.entry(number) {
        Some(entry) => visible(entry, txn),
        None => false,
    }
}

// Those of the numbers whose entries the transaction sees.
fn keep_seen(alloc: Global, tree: &Tree, numbers: &[u64], txn: u64) -> Result<Vec<u64>, AllocError>
    ensures { IfOk result (λ kept. kept.items ≡ filter (λ n. sees txn (entry_of tree.now.table.nodes n)) numbers.now) }
{
    let mut kept = Vec::new(alloc);
    for number in numbers {
        if sees(tree, *number, txn) {
            kept.push(*number)?;
        }
    }
    Ok(kept)
}

/// The numbers of the entries that the operation of the transaction looks at and that the transaction
/// sees, ascending. It costs the entries of the id, or the nodes whose space meets the rectangle.
pub(crate) fn seen_by(alloc: Global, tree: &Tree, op: &Op, txn: u64) -> Result<Numbers, AllocError>
    ensures found { IfOk result (λ numbers. IsPermutation (numbers_seen tree.now.table txn (part_of op.now)) numbers) }
    ensures ascending { IfOk result (λ numbers. IsStrictlyIncreasing numbers) }
{
    let _valid = tree.root();
    let numbers = in_part(alloc, tree, op)?;
    let kept = keep_seen(alloc, tree, numbers.as_slice(), txn)?;
    Ok(Numbers::from_vec(kept))
}
