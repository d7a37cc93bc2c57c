// The lock on the object of an operation.
ghost use Rattle.std.specs.Prelude.{◌≡◌, IfOk, OnErr, None};
ghost use Rattle.sp_model.specs.Refusals.{turned_away};
ghost use Rattle.sp_model.specs.Removal.{IsTakenOut};
ghost use Rattle.sp_model.specs.Soundness.{Sound};
ghost use Rattle.sp_model.specs.Stepped.{Does};
ghost use Rattle.sp_state.specs.Held.{kernel_of, Fits};
ghost use Rattle.sp_requests.specs.Wanted.{object_need};

use crate::deadlocks::end_by_deadlock;
use crate::places::place_in;
use crate::requesting::{Outcome, request};
use sp_event::{Answer, Event};
use sp_locks::{Duration, Need, SessionId};
use sp_model::Stage;
use sp_ops::name_of;
use sp_state::State;
use std::alloc::{AllocError, Global};

// The lock on the object of an operation that is started, where it asks one.
fn object_need(stage: &Stage) -> Option<Need>
    ensures { result ≡ object_need stage.now }
{
    let Stage::Started(op) = stage else {
        return None;
    };
    let (name, mode) = name_of(op)?;
    Some(Need {
        name,
        mode,
        duration: Duration::Commit,
    })
}

/// The session's operation asks for the lock on its object. `Granted` where it gets it, asks none, or has waited
/// for it; `Waits` tells the sessions for which it waits, and `Deadlock` the cycle that a wait would close, for
/// which the transaction is undone. Where there is no memory nothing has changed. Costs the sessions that have a
/// transaction and the rows on the object; where it must wait the lock table, and what `cycle` costs; after a
/// deadlock what `roll_back` costs.
pub fn name(alloc: Global, state: &mut State, session: SessionId) -> Result<Answer, AllocError>
    requires sound { Sound (kernel_of state.old) }
    requires fits { Fits state.old }
    requires goes { turned_away (kernel_of state.old) (Event.Name session) ≡ None }
    ensures done { IfOk result (λ answer. Does IsTakenOut (kernel_of state.old) (Event.Name session) answer (kernel_of state.new)) }
    ensures same { OnErr result (kernel_of state.new ≡ kernel_of state.old) }
    ensures fits { Fits state.new }
{
    let at = place_in(state.seats.as_slice(), session);
    let seat = &mut state.seats[at];
    let Some(need) = object_need(seat.stage()) else {
        seat.name();
        return Ok(Answer::Granted);
    };
    match request(alloc, &mut state.locks, session, &need)? {
        Outcome::Granted => {
            seat.name();
            Ok(Answer::Granted)
        }
        Outcome::Waits(blockers) => {
            seat.await_name();
            Ok(Answer::Waits(need.name, need.mode, blockers))
        }
        Outcome::Closes(cycle) => end_by_deadlock(alloc, state, at, cycle),
    }
}
