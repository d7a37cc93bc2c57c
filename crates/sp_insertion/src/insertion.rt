// The insertion of an entry into a tree.
ghost use Rattle.std.specs.Prelude.{◌≡◌, ◌<◌, ◌+◌, ◌^◌, None, IfOk, OnOk, OnErr};
ghost use Rattle.sp_node.specs.declared.node.Entry.{Entry as AnyEntry};
ghost use Rattle.sp_node.specs.declared.plan.Plan.{Plan as AnyPlan};
ghost use Rattle.sp_node.specs.Index.{leaf_with};
ghost use Rattle.sp_node.specs.Look.{IsAscending};
ghost use Rattle.sp_node.specs.Plan.{IsMadeOf, planned};
ghost use Rattle.sp_node.specs.Table.{Table};
ghost use Rattle.sp_grow.specs.Grown.{IsGrown};
ghost use Rattle.sp_model.specs.Plans.{IsInserted};

use sp_grow::grow;
use sp_node::{Entry, Plan, Tree};
use std::alloc::{AllocError, Global};

/// A law: a plan of the growth of a tree by an entry leaves the tree after the insertion of the entry.
pub fn plans_are_insertions()
    ensures { (t : Table) (e : AnyEntry) (plan : AnyPlan) → IsAscending t.nodes → IsMadeOf t plan → IsGrown t e (planned t plan) → IsInserted t e (planned t plan) }
{}

/// The insertion of an entry as a plan. The one error is want of memory, and then the entry is gone. Costs
/// what `grow` costs.
pub fn plan_insertion(alloc: Global, tree: &Tree, entry: Entry) -> Result<Plan, AllocError>
    requires fresh { leaf_with tree.now.table.nodes entry.number ≡ None }
    requires numbers { tree.now.table.next < 2 ^ 63 + 2 ^ 32 }
    ensures made { IfOk result (IsMadeOf tree.now.table) }
    ensures inserted { IfOk result (λ plan. IsInserted tree.now.table entry (planned tree.now.table plan)) }
{
    // this call's contract says that the nodes ascend
    let _rising = tree.next();
    match grow(alloc, tree, entry) {
        Ok(plan) => Ok(plan),
        Err((_, error)) => Err(error),
    }
}

/// Inserts the entry. The one error is want of memory, and then the tree is as it was and the entry is gone.
/// Costs what `grow` costs.
pub fn insert(alloc: Global, tree: &mut Tree, entry: Entry) -> Result<(), AllocError>
    requires fresh { leaf_with tree.old.table.nodes entry.number ≡ None }
    requires numbers { tree.old.table.next < 2 ^ 63 + 2 ^ 32 }
    ensures inserted { OnOk result (IsInserted tree.old.table entry tree.new.table) }
    ensures same { OnErr result (tree.new.table ≡ tree.old.table) }
{
    let plan = plan_insertion(alloc, tree, entry)?;
    tree.make_room(&plan)?;
    tree.adopt(plan);
    Ok(())
}
