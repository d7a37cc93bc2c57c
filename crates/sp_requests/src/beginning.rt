// The begin of a transaction.
ghost use Rattle.std.specs.Prelude.{◌≡◌, IfOk, OnErr, None};
ghost use Rattle.sp_model.specs.Refusals.{turned_away};
ghost use Rattle.sp_model.specs.Removal.{IsTakenOut};
ghost use Rattle.sp_model.specs.Soundness.{Sound};
ghost use Rattle.sp_model.specs.Stepped.{Does};
ghost use Rattle.sp_state.specs.Held.{kernel_of, Fits};

use sp_event::{Answer, Event};
use sp_locks::SessionId;
use sp_state::{Seat, State, admit};
use std::alloc::{AllocError, Global};

/// A transaction of the session begins: it gets the next number, and its session stands among those that have
/// one. Room for its end is made in the audit. `Began` tells its number, and how many places were taken.
/// Where there is no memory nothing has changed. Costs the sessions that have a transaction.
pub fn begin(alloc: Global, state: &mut State, session: SessionId) -> Result<Answer, AllocError>
    requires sound { Sound (kernel_of state.old) }
    requires fits { Fits state.old }
    requires goes { turned_away (kernel_of state.old) (Event.Begin session) ≡ None }
    ensures done { IfOk result (λ answer. Does IsTakenOut (kernel_of state.old) (Event.Begin session) answer (kernel_of state.new)) }
    ensures same { OnErr result (kernel_of state.new ≡ kernel_of state.old) }
    ensures fits { Fits state.new }
{
    let txn = state.next_txn;
    let seen = state.audit.commits().len() as u64;
    state.audit.reserve(state.seats.len() + 1)?;
    admit(&mut state.seats, Seat::new(alloc, txn, session, seen))?;
    state.next_txn = txn + 1;
    Ok(Answer::Began { txn, seen })
}
