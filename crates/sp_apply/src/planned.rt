// The planned operation of a session.
ghost use Rattle.std.specs.Prelude.{◌≡◌, ◌<◌, List, Some, IsSome, IfOk, length, slice_get};
ghost use Rattle.sp_rect.specs.declared.record.Record.{Record as AnyRecord};
ghost use Rattle.sp_rect.specs.declared.operation.Op.{Op as AnyOp};
ghost use Rattle.sp_rect.specs.Store.{IsOrdered, replied};
ghost use Rattle.sp_node.specs.Table.{entries_of};
ghost use Rattle.sp_txn.specs.Visible.{view};
ghost use Rattle.sp_ops.specs.Effect.{AreMarked};
ghost use Rattle.sp_model.specs.State.{session_at};
ghost use Rattle.sp_model.specs.Plans.{adds};
ghost use Rattle.sp_state.specs.Stages.{op_of};

use crate::counting::is_adding;
use sp_locks::SessionId;
use sp_node::Tree;
use sp_ops::{Effect, effect};
use sp_rect::Reply;
use sp_state::{Seat, place_of};
use std::alloc::{AllocError, Global};

/// The place of the session, which has a transaction.
pub(crate) fn place(seats: &[Seat], session: SessionId) -> usize
    requires { IsSome (session_at session seats.now) }
    ensures stands { session_at session seats.now ≡ slice_get seats.now result }
    ensures bound { result < length seats.now }
{
    match place_of(seats, session) {
        Some(at) => at,
        None => unreachable!(),
    }
}

/// What the planned operation of the session does.
pub(crate) fn effect_of(alloc: Global, tree: &Tree, seat: &Seat) -> Result<Effect, AllocError>
    requires planned { IsSome (op_of seat.now.stage) }
    requires ordered { IsOrdered (view (entries_of tree.now.table) seat.now.txn.number) }
    ensures reply { IfOk result (λ effect. (op : AnyOp) → op_of seat.now.stage ≡ Some op → effect.reply ≡ replied op (view (entries_of tree.now.table) seat.now.txn.number)) }
    ensures marks { IfOk result (λ effect. (op : AnyOp) → op_of seat.now.stage ≡ Some op → AreMarked (entries_of tree.now.table) seat.now.txn.number op effect.marks) }
{
    match seat.op() {
        Some(op) => effect(alloc, tree, op, seat.number()),
        None => unreachable!(),
    }
}

/// Whether the planned operation of the session, which is replied this, adds an entry.
pub(crate) fn adds(seat: &Seat, reply: &Reply) -> bool
    requires { IsSome (op_of seat.now.stage) }
    ensures { (op : AnyOp) (records : List AnyRecord) → op_of seat.now.stage ≡ Some op → reply.now ≡ replied op records → result ≡ adds op records }
{
    match seat.op() {
        Some(op) => is_adding(op, reply),
        None => unreachable!(),
    }
}
