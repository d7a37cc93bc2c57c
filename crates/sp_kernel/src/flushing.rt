// One disk call of the batch in flight.
ghost use Rattle.std.specs.Prelude.{◌≡◌, ◌≤◌, ◌<◌, ◌+◌, ℕ, None, [], IsTrue, if◌then◌else◌};
ghost use Rattle.sp_list.specs.Emptiness.{is_empty};
ghost use Rattle.sp_disk.specs.Faults.{Rose};
ghost use Rattle.sp_disk.specs.Moments.{LeavesOnly};
ghost use Rattle.sp_journal.specs.Kinds.{KeepsOneOf};
ghost use Rattle.sp_model.specs.Refusals.{turned_away};
ghost use Rattle.sp_model.specs.Moves.{taken_off};
ghost use Rattle.sp_model.specs.Soundness.{Sound};
ghost use Rattle.sp_state.specs.Held.{kernel_of, Fits};
ghost use Rattle.sp_durable.specs.Standing.{Counted};
ghost use Rattle.sp_durable.specs.Recovered.{IsLeftInCall};
ghost use Rattle.sp_kernel.specs.Answers.{Answers};
ghost use Rattle.sp_kernel.specs.Following.{MayTell, followed, with_call};
ghost use Rattle.sp_kernel.specs.Whole.{Agrees};

use sp_disk::Disk;
use sp_ending::{note_call, place_all, take_off};
use sp_event::{Answer, Event};
use sp_journal::{Call, Journal};
use sp_state::State;
use std::alloc::Global;

// The call was made: it is the first of the commits that wait, or one more of the batch in flight.
fn advance(state: &mut State)
    requires few { state.old.calls < 3 }
    requires fits { Fits state.old }
    ensures done { kernel_of state.new ≡ (if is_empty state.old.flight.items then taken_off (kernel_of state.old) else with_call (kernel_of state.old)) }
    ensures fits { Fits state.new }
{
    if state.flight.is_empty() {
        take_off(state);
    } else {
        note_call(state);
    }
}

// The kernel follows the call of the disk.
fn follow(alloc: Global, state: &mut State, call: Call) -> Answer
    requires sound { Sound (kernel_of state.old) }
    requires fits { Fits state.old }
    requires goes { turned_away (kernel_of state.old) Event.Flush ≡ None }
    requires may { MayTell (kernel_of state.old) call }
    ensures done { kernel_of state.new ≡ followed call (kernel_of state.old) }
    ensures answers { Answers (kernel_of state.old) Event.Flush result (kernel_of state.new) }
    ensures fault { result ≡ Answer.DiskFault → (at : ℕ) × (call ≡ Call.Fault at) }
    ensures memory { result ≡ Answer.Memory → call ≡ Call.Memory }
    ensures fits { Fits state.new }
{
    match call {
        Call::Nothing => Answer::Nothing,
        Call::Wrote => {
            advance(state);
            Answer::Wrote
        }
        Call::Durable(_) => place_all(alloc, state),
        Call::Fault(offset) => {
            state.stopped = Some(offset);
            Answer::DiskFault
        }
        Call::Memory => Answer::Memory,
    }
}

/// Makes one disk call of the batch in flight, which the commits that wait become where none is.
pub(crate) fn flush<D: Disk>(alloc: Global, state: &mut State, journal: &mut Journal<D>) -> Answer
    requires sound { Sound (kernel_of state.old) }
    requires fits { Fits state.old }
    requires goes { turned_away (kernel_of state.old) Event.Flush ≡ None }
    requires counted { Counted (kernel_of state.old) journal.old.work }
    ensures answers { Answers (kernel_of state.old) Event.Flush result (kernel_of state.new) }
    ensures fits { Fits state.new }
    ensures counted { Counted (kernel_of state.new) journal.new.work }
    ensures agrees { IsTrue (D.tells journal.old.disk) → Agrees (kernel_of state.old) journal.old.work (D.reads journal.old.disk) (D.images journal.old.disk (D.moment journal.old.disk)) → Agrees (kernel_of state.new) journal.new.work (D.reads journal.new.disk) (D.images journal.new.disk (D.moment journal.new.disk)) }
    ensures crash { IsTrue (D.tells journal.old.disk) → Agrees (kernel_of state.old) journal.old.work (D.reads journal.old.disk) (D.images journal.old.disk (D.moment journal.old.disk)) → LeavesOnly (D.moment journal.old.disk) (D.moment journal.new.disk) (D.images journal.old.disk) (D.images journal.new.disk) (IsLeftInCall journal.old.work.phase (kernel_of state.old)) }
    ensures kinds { IsTrue (D.tells journal.old.disk) → Agrees (kernel_of state.old) journal.old.work (D.reads journal.old.disk) (D.images journal.old.disk (D.moment journal.old.disk)) → LeavesOnly (D.moment journal.old.disk) (D.moment journal.new.disk) (D.images journal.old.disk) (D.images journal.new.disk) (KeepsOneOf (D.images journal.old.disk (D.moment journal.old.disk))) }
    ensures once { D.moment journal.new.disk ≤ D.moment journal.old.disk + 1 }
    ensures later { D.faults journal.old.disk ≤ D.faults journal.new.disk }
    ensures fault { result ≡ Answer.DiskFault → Rose (D.faults journal.old.disk) (D.faults journal.new.disk) }
    ensures memory { result ≡ Answer.Memory → IsTrue (D.takes_memory journal.old.disk) × (journal.new.disk ≡ journal.old.disk) }
    ensures tells { D.tells journal.new.disk ≡ D.tells journal.old.disk }
    ensures takes { D.takes_memory journal.new.disk ≡ D.takes_memory journal.old.disk }
{
    let call = journal.next_call();
    follow(alloc, state, call)
}
