// The event.
ghost use Rattle.std.specs.Prelude.{◌≡◌, None, IfOk, OnErr};
ghost use Rattle.sp_event.specs.declared.event.Event.TheVariants.{Apply as AskApply};
ghost use Rattle.sp_model.specs.Refusals.{turned_away};
ghost use Rattle.sp_model.specs.Removal.{IsTakenOut};
ghost use Rattle.sp_model.specs.Soundness.{Sound};
ghost use Rattle.sp_model.specs.Stepped.{Does};
ghost use Rattle.sp_state.specs.Held.{kernel_of, Fits};

use crate::planned::{adds, effect_of, place};
use crate::putting::put;
use crate::staying::stay;
use sp_event::Answer;
use sp_locks::SessionId;
use sp_state::State;
use std::alloc::{AllocError, Global};

/// Does the planned operation of the session, which is not turned away, and answers its reply: it reads, it
/// marks the entries that it changes, or it adds an entry with the locks that the transaction gets on new
/// nodes. Latch and short locks go. `Full` where an entry, a number or the records in kept replies would pass
/// their limit, and then the operation ends without effect. Where there is no memory nothing has changed.
///
/// Costs what `effect` costs, and for an entry its insertion and, for each new node, a look at the rectangles
/// that the transaction searched; besides the release of its short locks.
pub fn apply(alloc: Global, state: &mut State, session: SessionId) -> Result<Answer, AllocError>
    requires sound { Sound (kernel_of state.old) }
    requires fits { Fits state.old }
    requires goes { turned_away (kernel_of state.old) (AskApply session) ≡ None }
    ensures done { IfOk result (λ answer. Does IsTakenOut (kernel_of state.old) (AskApply session) answer (kernel_of state.new)) }
    ensures same { OnErr result (kernel_of state.new ≡ kernel_of state.old) }
    ensures fits { Fits state.new }
{
    let at = place(state.seats.as_slice(), session);
    let seat = &state.seats[at];
    let effect = effect_of(alloc, &state.tree, seat)?;
    if adds(seat, &effect.reply) {
        put(alloc, state, session, at)
    } else {
        stay(alloc, state, session, at, effect)
    }
}
