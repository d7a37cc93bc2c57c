// The end of a transaction whose wait would close a cycle.
ghost use Rattle.std.specs.Prelude.{◌≡◌, ◌<◌, IfOk, OnErr, Some, true, length, slice_get};
ghost use Rattle.sp_model.specs.declared.session.Session.{Session as AnySession};
ghost use Rattle.sp_model.specs.State.{is_active};
ghost use Rattle.sp_model.specs.Moves.{rolled_back, let_short_go, with_ended};
ghost use Rattle.sp_model.specs.Soundness.{Sound};
ghost use Rattle.sp_state.specs.Held.{kernel_of, Fits};

use sp_audit::Ended;
use sp_ending::roll_back;
use sp_event::Answer;
use sp_state::State;
use sp_waits::Cycle;
use std::alloc::{AllocError, Global};

/// The active transaction of the session at this place is undone, since its wait would close the cycle, and the
/// audit keeps its end with the cycle. Where there is no memory nothing has changed.
pub(crate) fn end_by_deadlock(
    alloc: Global,
    state: &mut State,
    at: usize,
    cycle: Cycle,
) -> Result<Answer, AllocError>
    requires sound { Sound (kernel_of state.old) }
    requires fits { Fits state.old }
    requires bound { at < length state.old.seats.items }
    requires active { (x : AnySession) → slice_get state.old.seats.items at ≡ Some x → is_active x ≡ true }
    ensures answer { IfOk result (λ answer. answer ≡ Answer.Deadlock cycle) }
    ensures done { IfOk result (λ answer. (x : AnySession) → slice_get state.old.seats.items at ≡ Some x
        → kernel_of state.new ≡ with_ended x.txn.number cycle (rolled_back x (let_short_go x.txn.session (kernel_of state.old)))) }
    ensures same { OnErr result (kernel_of state.new ≡ kernel_of state.old) }
    ensures fits { Fits state.new }
{
    let told = Cycle::from_vec(Vec::from_slice(alloc, cycle.as_slice())?);
    state.audit.reserve(state.seats.len() + 1)?;
    let seat = &state.seats[at];
    let (txn, session) = (seat.number(), seat.session());
    state.audit.end(Ended { txn, cycle: told });
    state.locks.release_short(session);
    roll_back(state, at);
    Ok(Answer::Deadlock(cycle))
}
