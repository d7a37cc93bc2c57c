// Whether a transaction sees one record of an id at most.
ghost use Rattle.std.specs.Prelude.{◌≡◌, ◌↔◌, ◌++◌, ◌∷◌, [], map, IsTrue, IfOk, OnOk};
ghost use Rattle.std.specs.List.Sorted.{IsStrictlyIncreasing};
ghost use Rattle.sp_rect.specs.Store.{IsOrdered};
ghost use Rattle.sp_node.specs.Table.{entries_of};
ghost use Rattle.sp_txn.specs.Visible.{view};
ghost use Rattle.sp_ops.specs.Seen.{entries_at};

use crate::seen::seen_by;
use sp_node::Tree;
use sp_rect::{Op, WHOLE};
use std::alloc::{AllocError, Global};

// Adds the id of the entry of this number.
fn push_id(tree: &Tree, number: u64, ids: &mut Vec<u64>) -> Result<(), AllocError>
    ensures { OnOk result (ids.new.items ≡ ids.old.items ++ map (λ e. e.id) (entries_at tree.now.table.nodes (number ∷ []))) }
{
    if let Some(entry) = tree.entry(number) {
        ids.push(entry.id)?;
    }
    Ok(())
}

// The ids of the entries of these numbers.
fn ids_at(alloc: Global, tree: &Tree, numbers: &[u64]) -> Result<Vec<u64>, AllocError>
    ensures { IfOk result (λ v. v.items ≡ map (λ e. e.id) (entries_at tree.now.table.nodes numbers.now)) }
{
    let mut ids = Vec::new(alloc);
    for number in numbers {
        push_id(tree, *number, &mut ids)?;
    }
    Ok(ids)
}

// Whether each number is below the next.
fn ascend(numbers: &[u64]) -> bool
    ensures { IsTrue result ↔ IsStrictlyIncreasing numbers.now }
{
    for i in 1..numbers.len() {
        if numbers[i - 1] >= numbers[i] {
            return false;
        }
    }
    true
}

/// Whether the records that the transaction sees have distinct ids, as `effect` needs. Costs the whole tree.
pub fn sees_distinct_ids(alloc: Global, tree: &Tree, txn: u64) -> Result<bool, AllocError>
    ensures { IfOk result (λ distinct. IsTrue distinct ↔ IsOrdered (view (entries_of tree.now.table) txn)) }
{
    let _valid = tree.root();
    let all = Op::Find(WHOLE);
    let numbers = seen_by(alloc, tree, &all, txn)?;
    let mut ids = ids_at(alloc, tree, numbers.as_slice())?;
    ids.sort()?;
    Ok(ascend(ids.as_slice()))
}
