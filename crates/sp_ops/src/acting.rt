// What an operation of a transaction does to a tree.
ghost use Rattle.std.specs.Prelude.{◌≡◌, IfOk};
ghost use Rattle.sp_rect.specs.Store.{IsOrdered, replied};
ghost use Rattle.sp_node.specs.Table.{entries_of};
ghost use Rattle.sp_txn.specs.Visible.{view};
ghost use Rattle.sp_ops.specs.Effect.{AreMarked};

use crate::effects::Effect;
use crate::marking::marked;
use crate::replies::reply;
use crate::seen::seen_by;
use sp_node::Tree;
use sp_rect::Op;
use std::alloc::{AllocError, Global};

/// What the operation of the transaction does to the entries of the tree: the reply of the plain store on
/// the records that the transaction sees, its own drafts in place of their values, and the marks that the
/// entries get which it changes, each with its number, ascending. A drop and a clear end an entry, a set
/// and a fill give it a draft; the other operations mark none, and the new entry of a put is the caller's
/// to make. What the transaction sees must have distinct ids. The one error is want of memory. A put, a
/// drop, a set and a get cost the entries of their id, the others what a search looks at and the entries
/// that it finds.
pub fn effect(alloc: Global, tree: &Tree, op: &Op, txn: u64) -> Result<Effect, AllocError>
    requires { IsOrdered (view (entries_of tree.now.table) txn) }
    ensures reply { IfOk result (λ effect. effect.reply ≡ replied op.now (view (entries_of tree.now.table) txn)) }
    ensures marks { IfOk result (λ effect. AreMarked (entries_of tree.now.table) txn op.now effect.marks) }
{
    let _valid = tree.root();
    let numbers = seen_by(alloc, tree, op, txn)?;
    let reply = reply(alloc, tree, op, numbers.as_slice(), txn)?;
    let marks = marked(alloc, tree, op, numbers.as_slice(), txn)?;
    Ok(Effect { reply, marks })
}
