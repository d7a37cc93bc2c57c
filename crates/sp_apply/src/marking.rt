// The marks that an operation sets.
ghost use Rattle.std.specs.Prelude.{◌≡◌, ℕ, OnOk};
ghost use Rattle.sp_rect.specs.declared.operation.Op.{Op as AnyOp};
ghost use Rattle.sp_node.specs.Change.{table_with};
ghost use Rattle.sp_node.specs.Table.{entries_of};
ghost use Rattle.sp_protection.specs.Effects.{marked_by};
ghost use Rattle.sp_ops.specs.Effect.{AreMarked};
ghost use Rattle.sp_apply.specs.Noted.{AreNoted};

use sp_node::{Marks, Tree};
use std::alloc::AllocError;

/// Makes the room for these marks of these entries, and changes nothing else, with or without memory.
pub(crate) fn note_all(tree: &mut Tree, marks: &[(u64, Marks)]) -> Result<(), AllocError>
    ensures table { tree.new.table ≡ tree.old.table }
    ensures ok { OnOk result (AreNoted tree.new.noted marks.now) }
{
    'marks: for mark in marks {
        tree.note_marks(mark.0, &mark.1)?;
    }
    Ok(())
}

/// Gives the entries their marks. Takes no memory.
pub(crate) fn mark_all(tree: &mut Tree, mut marks: Vec<(u64, Marks)>)
    requires { AreNoted tree.old.noted marks.items }
    ensures { (txn : ℕ) (op : AnyOp) → AreMarked (entries_of tree.old.table) txn op marks.items → tree.new.table ≡ table_with (marked_by txn op) tree.old.table }
{
    let _valid = tree.root();
    'marks: while let Some(mark) = marks.pop() {
        let (number, given) = mark;
        tree.mark(number, given);
    }
}
