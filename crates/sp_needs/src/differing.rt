// Where the areas of two trees' granules may differ.
ghost use Rattle.std.specs.Prelude.{◌↔◌, ◌⊎◌, ℕ, IsTrue, map, IfOk};
ghost use Rattle.sp_node.specs.Among.{Among};
ghost use Rattle.sp_node.specs.Plan.{IsMadeOf, planned, number_of};
ghost use Rattle.sp_node.specs.Table.{IsValid};
ghost use Rattle.sp_granule.specs.Granules.{granules};
ghost use Rattle.sp_needs.specs.Affected.{IsKept, AreKeptBut, IsSameLeaf};

use crate::area::{space_after, space_before};
use sp_node::{Plan, Tree};
use std::alloc::{AllocError, Global};

// Whether a leaf has this number before and after the change, with the same space. Takes no memory.
fn is_same_leaf(tree: &Tree, plan: &Plan, number: u64) -> bool
    requires { IsMadeOf tree.now.table plan.now }
    ensures valid { IsValid tree.now.table }
    ensures same { IsTrue result ↔ IsSameLeaf (granules tree.now.table) (granules (planned tree.now.table plan.now)) number }
{
    let Some(old) = space_before(tree, number) else {
        return false;
    };
    let Some(new) = space_after(tree, plan, number) else {
        return false;
    };
    old == new
}

// The numbers that the parts name, but for those of leaves that have the same space.
fn reshaped(alloc: Global, tree: &Tree, plan: &Plan) -> Result<Vec<u64>, AllocError>
    requires { IsMadeOf tree.now.table plan.now }
    ensures { IfOk result (λ numbers. AreKeptBut (granules tree.now.table) (granules (planned tree.now.table plan.now)) (map number_of plan.now.parts) numbers.items) }
{
    let mut numbers = Vec::new(alloc);
    for part in plan.parts.as_slice() {
        let number = part.number();
        if !is_same_leaf(tree, plan, number) {
            numbers.push(number)?;
        }
    }
    Ok(numbers)
}

/// Numbers among which are all whose granules' areas the change makes, changes or drops: those of the parts,
/// but for leaves that have the same space, and the old and the new root where the root is another. Costs the
/// parts, and the entries of those that are leaves.
pub(crate) fn differing(alloc: Global, tree: &Tree, plan: &Plan) -> Result<Vec<u64>, AllocError>
    requires { IsMadeOf tree.now.table plan.now }
    ensures valid { IsValid tree.now.table }
    ensures differ { IfOk result (λ numbers. (n : ℕ) → IsKept (granules tree.now.table) (granules (planned tree.now.table plan.now)) n ⊎ Among n numbers.items) }
{
    let root = tree.root();
    let mut numbers = reshaped(alloc, tree, plan)?;
    if root != plan.root {
        numbers.push(root)?;
        numbers.push(plan.root)?;
    }
    Ok(numbers)
}
