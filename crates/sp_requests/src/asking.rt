// The locks that a planned operation needs.
ghost use Rattle.std.specs.Prelude.{◌≡◌, IfOk, OnErr, None};
ghost use Rattle.sp_model.specs.Refusals.{turned_away};
ghost use Rattle.sp_model.specs.Removal.{IsTakenOut};
ghost use Rattle.sp_model.specs.Soundness.{Sound};
ghost use Rattle.sp_model.specs.Stepped.{Does};
ghost use Rattle.sp_state.specs.Held.{kernel_of, Fits};
ghost use Rattle.sp_requests.specs.Wanted.{next_need};

use crate::deadlocks::end_by_deadlock;
use crate::places::place_in;
use crate::requesting::{Outcome, request};
use sp_event::{Answer, Event};
use sp_locks::{Need, SessionId};
use sp_model::Stage;
use sp_state::State;
use std::alloc::{AllocError, Global};

// The first of the needs that are left to a planned operation.
fn next_need(stage: &Stage) -> Option<Need>
    ensures { result ≡ next_need stage.now }
{
    match stage {
        Stage::Planned(_, left) => left.first(),
        _ => None,
    }
}

/// The session's planned operation asks for the next lock that it needs. `Granted` where it gets it; `Waits` tells
/// the sessions for which it waits, without the latch and its short locks; `Deadlock` tells the cycle that a wait
/// would close, for which the transaction is undone. Where there is no memory nothing has changed. Costs the
/// sessions that have a transaction and the rows on the lock's name; where it must wait the lock table, and what
/// `cycle` costs; after a deadlock what `roll_back` costs.
pub fn ask(alloc: Global, state: &mut State, session: SessionId) -> Result<Answer, AllocError>
    requires sound { Sound (kernel_of state.old) }
    requires fits { Fits state.old }
    requires goes { turned_away (kernel_of state.old) (Event.Ask session) ≡ None }
    ensures done { IfOk result (λ answer. Does IsTakenOut (kernel_of state.old) (Event.Ask session) answer (kernel_of state.new)) }
    ensures same { OnErr result (kernel_of state.new ≡ kernel_of state.old) }
    ensures fits { Fits state.new }
{
    let at = place_in(state.seats.as_slice(), session);
    let seat = &mut state.seats[at];
    let Some(need) = next_need(seat.stage()) else {
        unreachable!()
    };
    match request(alloc, &mut state.locks, session, &need)? {
        Outcome::Granted => {
            seat.pass_need();
            Ok(Answer::Granted)
        }
        Outcome::Waits(blockers) => {
            seat.await_need();
            Ok(Answer::Waits(need.name, need.mode, blockers))
        }
        Outcome::Closes(cycle) => end_by_deadlock(alloc, state, at, cycle),
    }
}
