// The answers that change nothing.
ghost use Rattle.std.specs.Prelude.{◌≡◌};
ghost use Rattle.std.specs.Option.{option_copied};
ghost use Rattle.sp_model.specs.Refusals.{turned_away, found_for, still};
ghost use Rattle.sp_model.specs.Soundness.{Sound};
ghost use Rattle.sp_state.specs.Held.{kernel_of, Fits};

use crate::holders::latched;
use crate::limits::full;
use crate::refusals::{refusal, session_of, stops};
use crate::seats::place_of;
use crate::{Seat, State};
use sp_event::{Answer, Event};
use sp_locks::Table;

// The session that the event names, where it has a transaction.
fn found_for<'a>(event: &Event, seats: &'a [Seat]) -> Option<&'a Seat>
    ensures { option_copied result ≡ found_for event.now seats.now }
{
    seats.get(place_of(seats, session_of(event)?)?)
}

// The name that the session's own row still waits for.
fn still(event: &Event, locks: &Table) -> Option<Answer>
    ensures { result ≡ still event.now locks.now }
{
    let session = match event {
        Event::Name(session) | Event::Plan(session) => *session,
        _ => return None,
    };
    let row = locks.waiting(session)?;
    Some(Answer::Still(row.name))
}

/// The answer to an event that changes nothing, if it is one: the first, in this order, whose condition holds.
/// `Stopped` after a fault of the disk; `Refused` in a wrong phase; `Full` of a begin or a start; `Still` where
/// the session's own row waits; `LatchBusy` where another session holds the latch against the event. Takes no
/// memory. Costs the sessions that have a transaction.
pub fn turned_away(state: &State, event: &Event) -> Option<Answer>
    requires sound { Sound (kernel_of state.now) }
    requires fits { Fits state.now }
    ensures { result ≡ turned_away (kernel_of state.now) event.now }
{
    let seats = state.seats.as_slice();
    let seat = found_for(event, seats);
    if let Some(answer) = stops(state.stopped, event, seat) {
        return Some(answer);
    }
    if let Some(why) = refusal(event, seat) {
        return Some(Answer::Refused(why));
    }
    if let Some(kind) = full(event, seat, state) {
        return Some(Answer::Full(kind));
    }
    if let Some(answer) = still(event, &state.locks) {
        return Some(answer);
    }
    latched(event, seat, seats)
}
