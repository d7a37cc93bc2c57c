// Where the session of an event stands.
ghost use Rattle.std.specs.Prelude.{◌≡◌, ◌≢◌, ◌<◌, length, slice_get, None};
ghost use Rattle.sp_model.specs.State.{session_at};

use sp_locks::SessionId;
use sp_state::{Seat, place_of};

/// The place of a session that has a transaction. Costs the sessions that have one.
pub(crate) fn place_in(seats: &[Seat], session: SessionId) -> usize
    requires { session_at session seats.now ≢ None }
    ensures bound { result < length seats.now }
    ensures found { session_at session seats.now ≡ slice_get seats.now result }
{
    match place_of(seats, session) {
        Some(at) => at,
        None => unreachable!(),
    }
}
