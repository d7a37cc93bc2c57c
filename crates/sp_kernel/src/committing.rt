// The commit of a transaction.
ghost use Rattle.std.specs.Prelude.{◌≡◌, ◌<◌, true, IsTrue, None, Some, IfOk, OnErr, length, slice_get};
ghost use Rattle.sp_model.specs.declared.session.Session.{Session as AnySession};
ghost use Rattle.sp_model.specs.State.{session_at};
ghost use Rattle.sp_model.specs.Refusals.{turned_away};
ghost use Rattle.sp_model.specs.Removal.{IsTakenOut};
ghost use Rattle.sp_model.specs.Stepped.{Does, has_changes};
ghost use Rattle.sp_model.specs.Soundness.{Sound};
ghost use Rattle.sp_state.specs.Held.{kernel_of, Fits};
ghost use Rattle.sp_durable.specs.Standing.{Counted};
ghost use Rattle.sp_kernel.specs.Whole.{Agrees};
ghost use Rattle.sp_kernel.specs.Answers.{HasToQueue};
ghost use Rattle.sp_kernel.specs.Standing.{StandsSo};

use sp_disk::Disk;
use sp_ending::{commit_unchanged, has_changes, join_queue, tell_place};
use sp_event::{Answer, Event};
use sp_journal::Journal;
use sp_locks::SessionId;
use sp_model::Stage;
use sp_state::{Seat, State, place_of};
use sp_txn::changes;
use std::alloc::{AllocError, Global};

// The changes of an idle session's transaction are queued in the journal, and its session joins the queue.
fn queue_commit<D: Disk>(
    alloc: Global,
    state: &mut State,
    journal: &mut Journal<D>,
    session: SessionId,
    at: usize,
) -> Result<Answer, AllocError>
    requires sound { Sound (kernel_of state.old) }
    requires fits { Fits state.old }
    requires goes { turned_away (kernel_of state.old) (Event.Commit session) ≡ None }
    requires counted { Counted (kernel_of state.old) journal.old.work }
    requires bound { at < length state.old.seats.items }
    requires found { session_at session state.old.seats.items ≡ slice_get state.old.seats.items at }
    requires idle { (x : AnySession) → slice_get state.old.seats.items at ≡ Some x → x.stage ≡ Stage.Idle }
    requires changed { (x : AnySession) → slice_get state.old.seats.items at ≡ Some x → has_changes (kernel_of state.old) x ≡ true }
    ensures done { IfOk result (λ answer. Does IsTakenOut (kernel_of state.old) (Event.Commit session) answer (kernel_of state.new)) }
    ensures same { OnErr result (kernel_of state.new ≡ kernel_of state.old) }
    ensures fits { Fits state.new }
    ensures counted { Counted (kernel_of state.new) journal.new.work }
    ensures agrees { IsTrue (D.tells journal.old.disk) → Agrees (kernel_of state.old) journal.old.work (D.reads journal.old.disk) (D.images journal.old.disk (D.moment journal.old.disk)) → Agrees (kernel_of state.new) journal.new.work (D.reads journal.new.disk) (D.images journal.new.disk (D.moment journal.new.disk)) }
    ensures disk { journal.new.disk ≡ journal.old.disk }
{
    state.queue.reserve(1)?;
    let changes = changes(alloc, &state.tree, state.seats[at].number())?;
    journal.queue(&changes)?;
    join_queue(state, session)
}

// Where a session that may commit stands.
#[derive(Clone, Copy)]
pub enum Standing {
    Idle,
    Queued,
    Placed,
}

fn standing_of(seat: &Seat) -> Standing
    ensures { StandsSo result seat.now.stage }
{
    match seat.stage() {
        Stage::Queued => Standing::Queued,
        Stage::Placed => Standing::Placed,
        Stage::Idle
        | Stage::Started(_)
        | Stage::NameWait(_)
        | Stage::Named(_)
        | Stage::NeedWait(_)
        | Stage::Planned(_, _) => Standing::Idle,
    }
}

// The commit of the session at that place.
fn commit_at<D: Disk>(
    alloc: Global,
    state: &mut State,
    journal: &mut Journal<D>,
    session: SessionId,
    at: usize,
) -> Result<Answer, AllocError>
    requires sound { Sound (kernel_of state.old) }
    requires fits { Fits state.old }
    requires goes { turned_away (kernel_of state.old) (Event.Commit session) ≡ None }
    requires counted { Counted (kernel_of state.old) journal.old.work }
    requires bound { at < length state.old.seats.items }
    requires found { session_at session state.old.seats.items ≡ slice_get state.old.seats.items at }
    ensures done { IfOk result (λ answer. Does IsTakenOut (kernel_of state.old) (Event.Commit session) answer (kernel_of state.new)) }
    ensures same { OnErr result (kernel_of state.new ≡ kernel_of state.old) }
    ensures sure { OnErr result (HasToQueue (kernel_of state.old) session) }
    ensures fits { Fits state.new }
    ensures counted { Counted (kernel_of state.new) journal.new.work }
    ensures agrees { IsTrue (D.tells journal.old.disk) → Agrees (kernel_of state.old) journal.old.work (D.reads journal.old.disk) (D.images journal.old.disk (D.moment journal.old.disk)) → Agrees (kernel_of state.new) journal.new.work (D.reads journal.new.disk) (D.images journal.new.disk (D.moment journal.new.disk)) }
    ensures disk { journal.new.disk ≡ journal.old.disk }
{
    match standing_of(&state.seats[at]) {
        Standing::Placed => Ok(tell_place(state, session)),
        Standing::Queued => Ok(Answer::Queued),
        Standing::Idle => {
            if has_changes(state, at) {
                queue_commit(alloc, state, journal, session, at)
            } else {
                Ok(commit_unchanged(state, session))
            }
        }
    }
}

/// The commit of the session's transaction: in place at once where it has no changes, into the queue where it has,
/// and the news of its place once it has one. Where there is no memory nothing changes; only a commit that has to queue
/// changes takes any.
pub(crate) fn commit<D: Disk>(
    alloc: Global,
    state: &mut State,
    journal: &mut Journal<D>,
    session: SessionId,
) -> Result<Answer, AllocError>
    requires sound { Sound (kernel_of state.old) }
    requires fits { Fits state.old }
    requires goes { turned_away (kernel_of state.old) (Event.Commit session) ≡ None }
    requires counted { Counted (kernel_of state.old) journal.old.work }
    ensures done { IfOk result (λ answer. Does IsTakenOut (kernel_of state.old) (Event.Commit session) answer (kernel_of state.new)) }
    ensures same { OnErr result (kernel_of state.new ≡ kernel_of state.old) }
    ensures sure { OnErr result (HasToQueue (kernel_of state.old) session) }
    ensures fits { Fits state.new }
    ensures counted { Counted (kernel_of state.new) journal.new.work }
    ensures agrees { IsTrue (D.tells journal.old.disk) → Agrees (kernel_of state.old) journal.old.work (D.reads journal.old.disk) (D.images journal.old.disk (D.moment journal.old.disk)) → Agrees (kernel_of state.new) journal.new.work (D.reads journal.new.disk) (D.images journal.new.disk (D.moment journal.new.disk)) }
    ensures disk { journal.new.disk ≡ journal.old.disk }
{
    match place_of(state.seats.as_slice(), session) {
        Some(at) => commit_at(alloc, state, journal, session, at),
        None => unreachable!(),
    }
}
