// Transactions whose commits wait for the next batch, and those that are told their places.
ghost use Rattle.std.specs.Prelude.{◌≡◌, ◌<◌, true, None, IsOk, IfOk, OnErr, take};
ghost use Rattle.std.specs.Vec.{vec_len, vec_capacity};
ghost use Rattle.sp_model.specs.declared.session.Session.{Session as AnySession};
ghost use Rattle.sp_model.specs.State.{is_active, is_session};
ghost use Rattle.sp_model.specs.Refusals.{turned_away};
ghost use Rattle.sp_model.specs.Stepped.{Does, IsAt, has_changes, last_place};
ghost use Rattle.sp_model.specs.Removal.{IsTakenOut};
ghost use Rattle.sp_model.specs.Soundness.{Sound};
ghost use Rattle.sp_state.specs.Held.{kernel_of, Fits};

use sp_audit::Commit;
use sp_event::{Answer, Event};
use sp_locks::SessionId;
use sp_model::Stage;
use sp_state::{State, dismiss, place_of};
use std::alloc::AllocError;

/// The commit of an idle session's transaction that has changes: it joins the queue, and is answered `Queued`.
/// Where there is no memory for the queue nothing changes, and with room in it none is taken. Costs the sessions
/// that have a transaction.
pub fn join_queue(state: &mut State, session: SessionId) -> Result<Answer, AllocError>
    requires sound { Sound (kernel_of state.old) }
    requires fits { Fits state.old }
    requires goes { turned_away (kernel_of state.old) (Event.Commit session) ≡ None }
    requires idle { (x : AnySession) → IsAt (kernel_of state.old) session x → x.stage ≡ Stage.Idle }
    requires changes { (x : AnySession) → IsAt (kernel_of state.old) session x → has_changes (kernel_of state.old) x ≡ true }
    ensures done { IfOk result (λ answer. Does IsTakenOut (kernel_of state.old) (Event.Commit session) answer (kernel_of state.new)) }
    ensures same { OnErr result (kernel_of state.new ≡ kernel_of state.old) }
    ensures sure { vec_len state.old.queue < vec_capacity state.old.queue → IsOk result }
    ensures queued { IfOk result (λ answer. answer ≡ Answer.Queued) }
    ensures fits { Fits state.new }
{
    let Some(at) = place_of(state.seats.as_slice(), session) else {
        return Ok(Answer::Queued);
    };
    state.queue.push(session)?;
    let seat = &mut state.seats[at];
    seat.rest(Stage::Queued);
    Ok(Answer::Queued)
}

// The place of the session's last commit. Costs the commits since.
fn last_place(commits: &[Commit], session: SessionId) -> u64
    ensures { result ≡ last_place session commits.now 0 }
{
    'back: for i in (0..commits.len()).rev() {
        let commit = &commits[i];
        if commit.session == session {
            return commit.place;
        }
    }
    0
}

/// The news of a placed session's place: it is answered `Committed` with the place, and has no transaction then.
/// Takes no memory. Costs the commits since its own, and the sessions that have a transaction.
pub fn tell_place(state: &mut State, session: SessionId) -> Answer
    requires sound { Sound (kernel_of state.old) }
    requires fits { Fits state.old }
    requires goes { turned_away (kernel_of state.old) (Event.Commit session) ≡ None }
    requires placed { (x : AnySession) → IsAt (kernel_of state.old) session x → x.stage ≡ Stage.Placed }
    ensures done { Does IsTakenOut (kernel_of state.old) (Event.Commit session) result (kernel_of state.new) }
    ensures fits { Fits state.new }
{
    match place_of(state.seats.as_slice(), session) {
        Some(at) => {
            let seat = dismiss(&mut state.seats, at);
            drop(seat);
            Answer::Committed(last_place(state.audit.commits(), session))
        }
        None => Answer::Committed(0),
    }
}
