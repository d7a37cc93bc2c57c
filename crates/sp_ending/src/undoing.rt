// Transactions that are undone.
ghost use Rattle.std.specs.Prelude.{◌≡◌, ◌<◌, true, None, Some, length, slice_get};
ghost use Rattle.sp_model.specs.declared.session.Session.{Session as AnySession};
ghost use Rattle.sp_model.specs.State.{is_active};
ghost use Rattle.sp_model.specs.Refusals.{turned_away};
ghost use Rattle.sp_model.specs.Moves.{rolled_back};
ghost use Rattle.sp_model.specs.Stepped.{Does};
ghost use Rattle.sp_model.specs.Removal.{IsTakenOut};
ghost use Rattle.sp_model.specs.Soundness.{Sound};
ghost use Rattle.sp_state.specs.Held.{kernel_of, Fits};
ghost use Rattle.sp_ending.specs.Ends.{MayEnd};

use crate::counts::lower;
use crate::marks::{Ending, end_marks};
use sp_event::{Answer, Event};
use sp_locks::SessionId;
use sp_state::{State, dismiss, place_of};

/// Undoes the active transaction of the session at this place: its marks go, with what they kill at the end of
/// the dead list, its locks go, and the session has no transaction. Nothing else changes, and it takes no memory.
/// What it rests on, `MayEnd`, speaks of no locks: it may be called after some of them went. Costs the entries
/// that bear its marks, the sessions that have a transaction, and the release of its locks.
pub fn roll_back(state: &mut State, at: usize)
    requires bound { at < length state.old.seats.items }
    requires active { (x : AnySession) → slice_get state.old.seats.items at ≡ Some x → is_active x ≡ true }
    requires may { MayEnd (kernel_of state.old) }
    requires fits { Fits state.old }
    ensures done { (x : AnySession) → slice_get state.old.seats.items at ≡ Some x → kernel_of state.new ≡ rolled_back x (kernel_of state.old) }
    ensures fits { Fits state.new }
{
    state.sketch = None;
    let from = state.dead.len();
    let seat = dismiss(&mut state.seats, at);
    end_marks(
        &mut state.tree,
        &mut state.dead,
        from,
        Ending::Rollback,
        seat.number(),
    );
    lower(&mut state.operations, &mut state.records, &seat);
    state.locks.release_all(seat.session());
    drop(seat);
}

/// The rollback of a session's transaction, which is answered `RolledBack`. Takes no memory, and costs what
/// `roll_back` does.
pub fn rollback(state: &mut State, session: SessionId) -> Answer
    requires sound { Sound (kernel_of state.old) }
    requires fits { Fits state.old }
    requires goes { turned_away (kernel_of state.old) (Event.Rollback session) ≡ None }
    ensures done { Does IsTakenOut (kernel_of state.old) (Event.Rollback session) result (kernel_of state.new) }
    ensures fits { Fits state.new }
{
    match place_of(state.seats.as_slice(), session) {
        Some(at) => {
            roll_back(state, at);
            Answer::RolledBack
        }
        None => Answer::RolledBack,
    }
}
