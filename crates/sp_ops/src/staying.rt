// The locks that an operation wants which leaves the tree as it is.
ghost use Rattle.std.specs.Prelude.{◌≡◌, ◌++◌, ◌∷◌, [], ℕ, IfOk, OnOk, map};
ghost use Rattle.sp_rect.specs.declared.operation.Op.{Op as AnyOp};
ghost use Rattle.sp_rect.specs.declared.operation.Op.TheVariants.{Find as AFind};
ghost use Rattle.sp_locks.specs.declared.row.Duration.TheVariants.{Commit};
ghost use Rattle.sp_node.specs.Table.{entries_of};
ghost use Rattle.sp_granule.specs.Granules.{granules};
ghost use Rattle.sp_protection.specs.Needs.{AreNeedsOf, MarksArea, MarksId, StayWant};
ghost use Rattle.sp_ops.specs.Seen.{entries_at};
ghost use Rattle.sp_ops.specs.Wanted.{AreWants, on_granule, on_leaves, on_object};

use crate::seen::{in_area, seen_by};
use crate::wants::{Want, joined};
use sp_granule::granules_meeting;
use sp_locks::{Duration, Mode, Name, Needs};
use sp_node::Tree;
use sp_rect::{Op, Rect};
use std::alloc::{AllocError, Global};

/// Adds the mode on each of the granules.
pub(crate) fn push_granules(
    wants: &mut Vec<Want>,
    numbers: &[u64],
    mode: Mode,
) -> Result<(), AllocError>
    ensures { OnOk result (wants.new.items ≡ wants.old.items ++ map (on_granule mode) numbers.now) }
{
    for number in numbers {
        let name = Name::Granule(*number);
        wants.push(Want { name, mode })?;
    }
    Ok(())
}

// Adds the mode on the leaf of the entry.
fn push_leaf(wants: &mut Vec<Want>, tree: &Tree, entry: u64, mode: Mode) -> Result<(), AllocError>
    ensures { OnOk result (wants.new.items ≡ wants.old.items ++ on_leaves tree.now.table.nodes mode (entry ∷ [])) }
{
    if let Some(leaf) = tree.leaf_of(entry) {
        let name = Name::Granule(leaf);
        wants.push(Want { name, mode })?;
    }
    Ok(())
}

// Adds the mode on the leaf of each of the entries.
fn push_leaves(
    wants: &mut Vec<Want>,
    tree: &Tree,
    entries: &[u64],
    mode: Mode,
) -> Result<(), AllocError>
    ensures { OnOk result (wants.new.items ≡ wants.old.items ++ on_leaves tree.now.table.nodes mode entries.now) }
{
    for entry in entries {
        push_leaf(wants, tree, *entry, mode)?;
    }
    Ok(())
}

// Adds X on the object of the entry.
fn push_object(wants: &mut Vec<Want>, tree: &Tree, entry: u64) -> Result<(), AllocError>
    ensures { OnOk result (wants.new.items ≡ wants.old.items ++ map on_object (entries_at tree.now.table.nodes (entry ∷ []))) }
{
    if let Some(entry) = tree.entry(entry) {
        let name = Name::Object(entry.id);
        let mode = Mode::X;
        wants.push(Want { name, mode })?;
    }
    Ok(())
}

// Adds X on the object of each of the entries.
fn push_objects(wants: &mut Vec<Want>, tree: &Tree, entries: &[u64]) -> Result<(), AllocError>
    ensures { OnOk result (wants.new.items ≡ wants.old.items ++ map on_object (entries_at tree.now.table.nodes entries.now)) }
{
    for entry in entries {
        push_object(wants, tree, *entry)?;
    }
    Ok(())
}

// What a search of the rectangle wants.
fn search_wants(alloc: Global, tree: &Tree, rect: &Rect) -> Result<Vec<Want>, AllocError>
    ensures { IfOk result (λ wants. (txn : ℕ) → AreWants (StayWant (granules tree.now.table) (entries_of tree.now.table) txn (AFind rect.now)) wants.items) }
{
    let mut wants = Vec::new(alloc);
    let met = granules_meeting(alloc, tree, rect)?;
    push_granules(&mut wants, met.as_slice(), Mode::S)?;
    Ok(wants)
}

// What a drop or a set wants.
fn entry_wants(alloc: Global, tree: &Tree, op: &Op, txn: u64) -> Result<Vec<Want>, AllocError>
    ensures { IfOk result (λ wants. (id : ℕ) → MarksId op.now id → AreWants (StayWant (granules tree.now.table) (entries_of tree.now.table) txn op.now) wants.items) }
{
    let _valid = tree.root();
    let mut wants = Vec::new(alloc);
    let entries = seen_by(alloc, tree, op, txn)?;
    push_leaves(&mut wants, tree, entries.as_slice(), Mode::IX)?;
    Ok(wants)
}

// What a fill or a clear of the rectangle wants.
fn area_wants(alloc: Global, tree: &Tree, rect: &Rect) -> Result<Vec<Want>, AllocError>
    ensures { IfOk result (λ wants. (txn : ℕ) (op : AnyOp) → MarksArea op rect.now → AreWants (StayWant (granules tree.now.table) (entries_of tree.now.table) txn op) wants.items) }
{
    let _valid = tree.root();
    let _in_space = rect.x1();
    let mut wants = Vec::new(alloc);
    let numbers = granules_meeting(alloc, tree, rect)?;
    push_granules(&mut wants, numbers.as_slice(), Mode::S)?;
    let entries = in_area(alloc, tree, rect)?;
    push_leaves(&mut wants, tree, entries.as_slice(), Mode::SIX)?;
    push_objects(&mut wants, tree, entries.as_slice())?;
    Ok(wants)
}

/// What the operation of the transaction wants which leaves the tree as it is: of a put and a get nothing.
pub(crate) fn stay_wants(
    alloc: Global,
    tree: &Tree,
    op: &Op,
    txn: u64,
) -> Result<Vec<Want>, AllocError>
    ensures { IfOk result (λ wants. AreWants (StayWant (granules tree.now.table) (entries_of tree.now.table) txn op.now) wants.items) }
{
    match op {
        Op::Put(_) => Ok(Vec::new(alloc)),
        Op::Drop(_) => entry_wants(alloc, tree, op, txn),
        Op::Set(_, _) => entry_wants(alloc, tree, op, txn),
        Op::Get(_) => Ok(Vec::new(alloc)),
        Op::Find(rect) => search_wants(alloc, tree, rect),
        Op::Fill(rect, _) | Op::Clear(rect) => area_wants(alloc, tree, rect),
    }
}

/// The needs of an operation of the transaction which leaves the tree as it is, until the transaction ends.
pub(crate) fn stay_needs(alloc: Global, tree: &Tree, op: &Op, txn: u64) -> Result<Needs, AllocError>
    ensures { IfOk result (AreNeedsOf (StayWant (granules tree.now.table) (entries_of tree.now.table) txn op.now) Commit) }
{
    let wants = stay_wants(alloc, tree, op, txn)?;
    joined(alloc, wants.as_slice(), Duration::Commit)
}
