// The sessions that have a transaction, by ascending number.
ghost use Rattle.std.specs.Prelude.{◌≡◌, ◌<◌, ◌≤◌, IfSome, IfNone, None, position, nat_lt, length, slice_get, if◌then◌else◌, is_ok};
ghost use Rattle.sp_model.specs.declared.session.Session.{Session as AnySession};
ghost use Rattle.sp_model.specs.State.{is_session, is_active, session_at, sessions_without, with_session};
ghost use Rattle.std.specs.List.{position_or_len};
ghost use Rattle.sp_model.specs.Refusals.{open_transactions};
ghost use Rattle.sp_model.specs.Soundness.{AreAscending};

use crate::Seat;
use sp_locks::SessionId;
use sp_model::Stage;
use std::alloc::AllocError;

// The place of the first session of that number.
fn position_of(seats: &[Seat], session: SessionId) -> Option<usize>
    ensures { result ≡ position (is_session session) seats.now }
{
    seats.iter().position(|seat| seat.session() == session)
}

/// The place of the session among them, or None exactly where it has no transaction. Costs the sessions that
/// have one.
pub fn place_of(seats: &[Seat], session: SessionId) -> Option<usize>
    ensures found { IfSome result (λ i. session_at session seats.now ≡ slice_get seats.now i) }
    ensures bound { IfSome result (λ i. i < length seats.now) }
    ensures none { IfNone result (session_at session seats.now ≡ None) }
{
    position_of(seats, session)
}

// The place of the first session of a greater number.
fn first_above(seats: &[Seat], session: SessionId) -> Option<usize>
    ensures { result ≡ position (λ (y : AnySession). nat_lt session y.txn.session) seats.now }
{
    seats.iter().position(|seat| session < seat.session())
}

// Where the first session of a greater number stands, or the end.
fn place_for(seats: &[Seat], session: SessionId) -> usize
    ensures bound { result ≤ length seats.now }
    ensures place { result ≡ position_or_len (λ (y : AnySession). nat_lt session y.txn.session) seats.now }
{
    match first_above(seats, session) {
        Some(at) => at,
        None => seats.len(),
    }
}

/// A session joins them, in its place by number. Where there is no memory they are as they were. Costs the
/// sessions behind it.
pub fn admit(seats: &mut Vec<Seat>, seat: Seat) -> Result<(), AllocError>
    ensures { seats.new.items ≡ (if is_ok result then with_session seat seats.old.items else seats.old.items) }
{
    let at = place_for(seats.as_slice(), seat.session());
    seats.insert(at, seat)?;
    Ok(())
}

/// The session at that place leaves them. Takes no memory. Costs the sessions behind it.
pub fn dismiss(seats: &mut Vec<Seat>, at: usize) -> Seat
    requires bound { at < length seats.old.items }
    requires ascending { AreAscending seats.old.items }
    ensures one { slice_get seats.old.items at ≡ Some result }
    ensures others { seats.new.items ≡ sessions_without result.txn.session seats.old.items }
{
    seats.remove(at)
}

/// Whether the session's transaction has no place yet.
pub fn is_active(seat: &Seat) -> bool
    ensures { result ≡ is_active seat.now }
{
    !matches!(seat.stage(), Stage::Placed)
}

/// How many transactions are open. Costs the sessions.
pub fn count_open(seats: &[Seat]) -> usize
    ensures { result ≡ open_transactions seats.now }
{
    let mut open = 0;
    'all: for seat in seats {
        if is_active(seat) {
            open += 1;
        }
    }
    open
}
