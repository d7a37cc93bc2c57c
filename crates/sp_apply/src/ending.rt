// The end of an operation without effect.
ghost use Rattle.std.specs.Prelude.{◌≡◌};
ghost use Rattle.sp_rect.specs.declared.operation.Op.{Op as AnyOp};
ghost use Rattle.sp_model.specs.declared.session.Session.{Session as AnySession};
ghost use Rattle.sp_model.specs.Moves.{finished};
ghost use Rattle.sp_model.specs.Soundness.{Sound};
ghost use Rattle.sp_state.specs.Held.{kernel_of, Fits};
ghost use Rattle.sp_apply.specs.Acting.{IsReady};

use crate::keeping::rest;
use sp_locks::SessionId;
use sp_state::State;

/// The operation of the session at that place ends without effect: latch and short locks go. Takes no memory.
pub(crate) fn end(state: &mut State, session: SessionId, at: usize)
    requires sound { Sound (kernel_of state.old) }
    requires fits { Fits state.old }
    requires ready { (x : AnySession) × (op : AnyOp) × IsReady (kernel_of state.old) session at x op }
    ensures over { (x : AnySession) (op : AnyOp) → IsReady (kernel_of state.old) session at x op → kernel_of state.new ≡ finished x (kernel_of state.old) }
    ensures fits { Fits state.new }
{
    rest(&mut state.seats, at);
    state.locks.release_short(session);
    state.operations -= 1;
}
