// What a change takes points from.
ghost use Rattle.std.specs.Prelude.{◌↔◌, IsTrue, IfOk};
ghost use Rattle.sp_node.specs.Plan.{IsMadeOf, planned};
ghost use Rattle.sp_granule.specs.Granules.{granules};
ghost use Rattle.sp_needs.specs.Affected.{IsLost, AreThose};

use crate::area::{after, before};
use sp_node::{Plan, Tree};
use sp_region::exceeds;
use std::alloc::{AllocError, Global};

// Whether the granule of this number loses a point or is gone.
fn is_lost(alloc: Global, tree: &Tree, plan: &Plan, number: u64) -> Result<bool, AllocError>
    requires { IsMadeOf tree.now.table plan.now }
    ensures { IfOk result (λ is. IsTrue is ↔ IsLost (granules tree.now.table) (granules (planned tree.now.table plan.now)) number) }
{
    let Some(old) = before(alloc, tree, number)? else {
        return Ok(false);
    };
    let Some(new) = after(alloc, tree, plan, number)? else {
        return Ok(true);
    };
    exceeds(alloc, &old.space, &old.holes, &new.space, &new.holes)
}

/// Those of the numbers whose granules lose a point or are gone. Costs the members of their nodes, and for
/// each what `exceeds` costs.
pub(crate) fn lost(
    alloc: Global,
    tree: &Tree,
    plan: &Plan,
    numbers: &[u64],
) -> Result<Vec<u64>, AllocError>
    requires { IsMadeOf tree.now.table plan.now }
    ensures { IfOk result (λ found. AreThose (IsLost (granules tree.now.table) (granules (planned tree.now.table plan.now))) numbers.now found.items) }
{
    let mut found = Vec::new(alloc);
    for number in numbers {
        if is_lost(alloc, tree, plan, *number)? {
            found.push(*number)?;
        }
    }
    Ok(found)
}
