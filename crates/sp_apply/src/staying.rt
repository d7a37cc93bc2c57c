// An operation that adds no entry.
ghost use Rattle.std.specs.Prelude.{◌≡◌, false, IfOk, OnErr};
ghost use Rattle.sp_rect.specs.declared.operation.Op.{Op as AnyOp};
ghost use Rattle.sp_event.specs.declared.event.Event.TheVariants.{Apply as AskApply};
ghost use Rattle.sp_model.specs.declared.session.Session.{Session as AnySession};
ghost use Rattle.sp_model.specs.Plans.{is_adding};
ghost use Rattle.sp_model.specs.Removal.{IsTakenOut};
ghost use Rattle.sp_model.specs.Soundness.{Sound};
ghost use Rattle.sp_model.specs.Stepped.{Does};
ghost use Rattle.sp_state.specs.Held.{kernel_of, Fits};
ghost use Rattle.sp_apply.specs.Acting.{IsReady, IsEffect};

use crate::counting::{passes, records_in};
use crate::ending::end;
use crate::keeping::keep;
use crate::marking::{mark_all, note_all};
use sp_event::{Answer, Kind};
use sp_list::Duplicate;
use sp_locks::SessionId;
use sp_ops::Effect;
use sp_state::State;
use std::alloc::{AllocError, Global};

/// The operation of the session at that place reads, or sets these marks.
pub(crate) fn stay(
    alloc: Global,
    state: &mut State,
    session: SessionId,
    at: usize,
    effect: Effect,
) -> Result<Answer, AllocError>
    requires sound { Sound (kernel_of state.old) }
    requires fits { Fits state.old }
    requires ready { (x : AnySession) × (op : AnyOp) × IsReady (kernel_of state.old) session at x op × IsEffect (kernel_of state.old) x op effect × (is_adding (kernel_of state.old) x op ≡ false) }
    ensures done { IfOk result (λ answer. Does IsTakenOut (kernel_of state.old) (AskApply session) answer (kernel_of state.new)) }
    ensures same { OnErr result (kernel_of state.new ≡ kernel_of state.old) }
    ensures fits { Fits state.new }
{
    let count = records_in(&effect.reply);
    if passes(state.records, count) {
        end(state, session, at);
        return Ok(Answer::Full(Kind::Replies));
    }
    let answer = effect.reply.copy(alloc)?;
    state.sketch = None;
    note_all(&mut state.tree, effect.marks.as_slice())?;
    keep(&mut state.seats, at, effect.reply)?;
    mark_all(&mut state.tree, effect.marks.into_vec());
    state.locks.release_short(session);
    state.records += count;
    Ok(Answer::Reply(answer))
}
