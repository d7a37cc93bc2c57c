// Commits that take their places.
ghost use Rattle.std.specs.Prelude.{◌≡◌, ◌+◌, ◌<◌, ◌≤◌, ◌++◌, ◌∷◌, ◌^◌, [], true, false, None, Some, List, length, take};
ghost use Rattle.sp_rect.specs.Serial.{Serial};
ghost use Rattle.sp_node.specs.declared.node.Entry.{Entry as AnyEntry};
ghost use Rattle.sp_model.specs.declared.session.Session.{Session as AnySession};
ghost use Rattle.sp_model.specs.declared.session.Stage.TheVariants.{Idle};
ghost use Rattle.sp_model.specs.State.{entries_in};
ghost use Rattle.sp_model.specs.Refusals.{turned_away, under_way};
ghost use Rattle.sp_model.specs.Moves.{placed_commit, placed_found};
ghost use Rattle.sp_model.specs.Stepped.{Does, IsAt, has_changes};
ghost use Rattle.sp_model.specs.Removal.{IsTakenOut};
ghost use Rattle.sp_model.specs.Soundness.{Sound};
ghost use Rattle.sp_state.specs.Held.{kernel_of, Fits};
ghost use Rattle.sp_ending.specs.Ends.{MayPlace};
ghost use Rattle.sp_ending.specs.Tail.{IsTail};

use crate::marks::{Ending, end_marks};
use sp_audit::Commit;
use sp_event::{Answer, Event};
use sp_locks::SessionId;
use sp_state::{State, dismiss, place_of};
use std::alloc::Global;

// The next place.
fn next_place(commits: &[Commit]) -> u64
    ensures { result ≡ length commits.now + 1 }
{
    commits.len() as u64 + 1
}

/// The commit of an idle session's transaction without changes: it takes the next place at once, and is answered
/// `Committed` with it. What it made and ended itself is dead then, its locks go, and its session has no
/// transaction. Takes no memory. Costs the entries that bear its marks, the sessions that have a transaction, and
/// the release of its locks.
pub fn commit_unchanged(state: &mut State, session: SessionId) -> Answer
    requires sound { Sound (kernel_of state.old) }
    requires fits { Fits state.old }
    requires goes { turned_away (kernel_of state.old) (Event.Commit session) ≡ None }
    requires idle { (x : AnySession) → IsAt (kernel_of state.old) session x → x.stage ≡ Idle }
    requires unchanged { (x : AnySession) → IsAt (kernel_of state.old) session x → has_changes (kernel_of state.old) x ≡ false }
    ensures done { Does IsTakenOut (kernel_of state.old) (Event.Commit session) result (kernel_of state.new) }
    ensures fits { Fits state.new }
{
    let Some(at) = place_of(state.seats.as_slice(), session) else {
        return Answer::Committed(0);
    };
    state.sketch = None;
    let from = state.dead.len();
    let place = next_place(state.audit.commits());
    let seat = dismiss(&mut state.seats, at);
    end_marks(
        &mut state.tree,
        &mut state.dead,
        from,
        Ending::Commit,
        seat.number(),
    );
    state.audit.add(seat.into_commit(place));
    state.locks.release_all(session);
    Answer::Committed(place)
}

/// The queued transaction of the session takes the next place: its marks are settled, and what dies by that joins
/// the dead from a place on, which ascend; its locks go, and its operations go to the audit. Takes no memory, and
/// costs what a commit without changes does.
pub(crate) fn place_one(alloc: Global, state: &mut State, from: usize, session: SessionId)
    requires may { MayPlace session (kernel_of state.old) }
    requires tail { (before : List AnyEntry) × IsTail state.old.dead.items from before (entries_in (kernel_of state.old)) }
    requires fits { Fits state.old }
    ensures placed { (x : AnySession) → IsAt (kernel_of state.old) session x → kernel_of state.new ≡ record (placed_found (Some x) (kernel_of state.old)) { dead = state.new.dead.items } }
    ensures tail { (before : List AnyEntry) → IsTail state.old.dead.items from before (entries_in (kernel_of state.old)) → IsTail state.new.dead.items from before (entries_in (kernel_of state.new)) }
    ensures front { take from state.new.dead.items ≡ take from state.old.dead.items }
    ensures fits { Fits state.new }
{
    let Some(at) = place_of(state.seats.as_slice(), session) else {
        return;
    };
    state.sketch = None;
    let place = next_place(state.audit.commits());
    let seat = &mut state.seats[at];
    let number = seat.number();
    let commit = seat.take_place(alloc, place);
    end_marks(
        &mut state.tree,
        &mut state.dead,
        from,
        Ending::Commit,
        number,
    );
    state.audit.add(commit);
    state.locks.release_all(session);
}
