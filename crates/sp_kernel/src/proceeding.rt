// One event that is not turned away.
ghost use Rattle.std.specs.Prelude.{◌≡◌, ◌≢◌, ◌≤◌, ◌+◌, Bool, None, IsTrue};
ghost use Rattle.sp_disk.specs.Faults.{Rose};
ghost use Rattle.sp_disk.specs.Moments.{LeavesOnly};
ghost use Rattle.sp_journal.specs.Kinds.{KeepsOneOf};
ghost use Rattle.sp_model.specs.Refusals.{turned_away};
ghost use Rattle.sp_model.specs.Soundness.{Sound};
ghost use Rattle.sp_state.specs.Held.{kernel_of, Fits};
ghost use Rattle.sp_durable.specs.Standing.{Counted};
ghost use Rattle.sp_durable.specs.Recovered.{IsLeftInCall};
ghost use Rattle.sp_kernel.specs.Answers.{Answers, NeedsNoDisk, MayWant, HasToQueue};
ghost use Rattle.sp_kernel.specs.Whole.{Agrees};

use crate::acting::act;
use crate::committing::commit;
use crate::flushing::flush;
use sp_disk::Disk;
use sp_event::{Answer, Event};
use sp_journal::Journal;
use sp_locks::SessionId;
use sp_state::State;
use std::alloc::Global;

// An event that needs no disk.
fn proceed_apart<D: Disk>(
    alloc: Global,
    state: &mut State,
    journal: &mut Journal<D>,
    event: Event,
) -> Answer
    requires sound { Sound (kernel_of state.old) }
    requires fits { Fits state.old }
    requires goes { turned_away (kernel_of state.old) event ≡ None }
    requires counted { Counted (kernel_of state.old) journal.old.work }
    requires apart { NeedsNoDisk event }
    ensures answers { Answers (kernel_of state.old) event result (kernel_of state.new) }
    ensures fits { Fits state.new }
    ensures counted { Counted (kernel_of state.new) journal.new.work }
    ensures agrees { IsTrue (D.tells journal.old.disk) → Agrees (kernel_of state.old) journal.old.work (D.reads journal.old.disk) (D.images journal.old.disk (D.moment journal.old.disk)) → Agrees (kernel_of state.new) journal.new.work (D.reads journal.new.disk) (D.images journal.new.disk (D.moment journal.new.disk)) }
    ensures disk { journal.new.disk ≡ journal.old.disk }
    ensures no_fault { result ≢ Answer.DiskFault }
    ensures memory { result ≡ Answer.Memory → (takes : Bool) → MayWant takes (kernel_of state.old) event }
{
    match act(alloc, state, event) {
        Ok(answer) => answer,
        Err(_) => Answer::Memory,
    }
}

// The commit of a session's transaction.
fn proceed_commit<D: Disk>(
    alloc: Global,
    state: &mut State,
    journal: &mut Journal<D>,
    session: SessionId,
) -> Answer
    requires sound { Sound (kernel_of state.old) }
    requires fits { Fits state.old }
    requires goes { turned_away (kernel_of state.old) (Event.Commit session) ≡ None }
    requires counted { Counted (kernel_of state.old) journal.old.work }
    ensures answers { Answers (kernel_of state.old) (Event.Commit session) result (kernel_of state.new) }
    ensures fits { Fits state.new }
    ensures counted { Counted (kernel_of state.new) journal.new.work }
    ensures agrees { IsTrue (D.tells journal.old.disk) → Agrees (kernel_of state.old) journal.old.work (D.reads journal.old.disk) (D.images journal.old.disk (D.moment journal.old.disk)) → Agrees (kernel_of state.new) journal.new.work (D.reads journal.new.disk) (D.images journal.new.disk (D.moment journal.new.disk)) }
    ensures disk { journal.new.disk ≡ journal.old.disk }
    ensures no_fault { result ≢ Answer.DiskFault }
    ensures memory { result ≡ Answer.Memory → HasToQueue (kernel_of state.old) session }
{
    match commit(alloc, state, journal, session) {
        Ok(answer) => answer,
        Err(_) => Answer::Memory,
    }
}

/// Does an event that is not turned away, and answers it.
pub(crate) fn proceed<D: Disk>(
    alloc: Global,
    state: &mut State,
    journal: &mut Journal<D>,
    event: Event,
) -> Answer
    requires sound { Sound (kernel_of state.old) }
    requires fits { Fits state.old }
    requires goes { turned_away (kernel_of state.old) event ≡ None }
    requires counted { Counted (kernel_of state.old) journal.old.work }
    ensures answers { Answers (kernel_of state.old) event result (kernel_of state.new) }
    ensures fits { Fits state.new }
    ensures counted { Counted (kernel_of state.new) journal.new.work }
    ensures agrees { IsTrue (D.tells journal.old.disk) → Agrees (kernel_of state.old) journal.old.work (D.reads journal.old.disk) (D.images journal.old.disk (D.moment journal.old.disk)) → Agrees (kernel_of state.new) journal.new.work (D.reads journal.new.disk) (D.images journal.new.disk (D.moment journal.new.disk)) }
    ensures crash { IsTrue (D.tells journal.old.disk) → Agrees (kernel_of state.old) journal.old.work (D.reads journal.old.disk) (D.images journal.old.disk (D.moment journal.old.disk)) → LeavesOnly (D.moment journal.old.disk) (D.moment journal.new.disk) (D.images journal.old.disk) (D.images journal.new.disk) (IsLeftInCall journal.old.work.phase (kernel_of state.old)) }
    ensures kinds { IsTrue (D.tells journal.old.disk) → Agrees (kernel_of state.old) journal.old.work (D.reads journal.old.disk) (D.images journal.old.disk (D.moment journal.old.disk)) → LeavesOnly (D.moment journal.old.disk) (D.moment journal.new.disk) (D.images journal.old.disk) (D.images journal.new.disk) (KeepsOneOf (D.images journal.old.disk (D.moment journal.old.disk))) }
    ensures still { event ≢ Event.Flush → journal.new.disk ≡ journal.old.disk }
    ensures once { D.moment journal.new.disk ≤ D.moment journal.old.disk + 1 }
    ensures memory { result ≡ Answer.Memory → MayWant (D.takes_memory journal.old.disk) (kernel_of state.old) event }
    ensures later { D.faults journal.old.disk ≤ D.faults journal.new.disk }
    ensures fault { result ≡ Answer.DiskFault → Rose (D.faults journal.old.disk) (D.faults journal.new.disk) }
    ensures tells { D.tells journal.new.disk ≡ D.tells journal.old.disk }
    ensures takes { D.takes_memory journal.new.disk ≡ D.takes_memory journal.old.disk }
{
    match event {
        Event::Commit(session) => proceed_commit(alloc, state, journal, session),
        Event::Flush => flush(alloc, state, journal),
        event => proceed_apart(alloc, state, journal, event),
    }
}
