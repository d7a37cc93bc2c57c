// The locks that an operation needs until its transaction ends.
ghost use Rattle.std.specs.Prelude.{IfOk};
ghost use Rattle.std.specs.Option.{option_copied, ForSome};
ghost use Rattle.sp_node.specs.Plan.{IsMadeOf};
ghost use Rattle.sp_ops.specs.Commit.{AreCommitNeeds};

use crate::putting::put_needs;
use crate::staying::stay_needs;
use sp_locks::Needs;
use sp_node::{Plan, Tree};
use sp_rect::{Op, Records2};
use std::alloc::{AllocError, Global};

/// The locks that the operation of the transaction needs until the transaction ends, in the order in which
/// they are asked: on granules by number, then on objects by id, each name once, with the least mode that
/// covers all that the rules want there. After Chakrabarti and Mehrotra, "Dynamic Granular Locking Approach
/// to Phantom Protection in R-Trees", ICDE 1998.
///
/// A find needs S on each granule that meets its rectangle. A drop or a set of an entry that the
/// transaction sees needs IX on its leaf. A fill or a clear needs SIX on each leaf with an entry that meets
/// its rectangle, S on each other granule that meets it, and X on the object of each such entry, whatever
/// its marks. These come without a plan, and so does any operation that changes nothing.
///
/// A plan is that of a put that adds an entry, made of this tree. It needs IX on the leaf in which the
/// entry comes to stand, and, where some granule changes, S on each granule of the changed tree that meets
/// one of `searches`, the rectangles that the transaction searched; new nodes are left out.
///
/// A find costs the nodes that its rectangle meets, a fill and a clear also the entries that they find, a
/// drop and a set the entries of their id. A put costs the nodes of its plan, and where some granule
/// changes a search of the changed tree for each of `searches`.
pub fn commit_needs(
    alloc: Global,
    tree: &Tree,
    plan: Option<&Plan>,
    op: &Op,
    txn: u64,
    searches: &Records2,
) -> Result<Needs, AllocError>
    requires { ForSome (option_copied plan) (IsMadeOf tree.now.table) }
    ensures { IfOk result (AreCommitNeeds tree.now.table (option_copied plan.entry) op.now txn searches.now) }
{
    match plan {
        None => stay_needs(alloc, tree, op, txn),
        Some(plan) => put_needs(alloc, tree, plan, searches),
    }
}
