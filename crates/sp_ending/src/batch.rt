// The batch of commits that a flush puts on the disk.
ghost use Rattle.std.specs.Prelude.{◌≡◌, ◌+◌, ◌<◌, ◌≤◌, [], ℕ, length};
ghost use Rattle.sp_model.specs.State.{Kernel};
ghost use Rattle.sp_model.specs.Moves.{placed_all, taken_off};
ghost use Rattle.sp_model.specs.Soundness.{Sound};
ghost use Rattle.sp_state.specs.Held.{kernel_of, Fits};
ghost use Rattle.sp_ending.specs.Ends.{Placing};

use crate::commits::place_one;
use sp_event::Answer;
use sp_state::State;
use std::alloc::Global;
use std::mem::swap;

/// The commits that wait become the batch, and its first call is made. Takes no memory.
pub fn take_off(state: &mut State)
    requires none { state.old.flight.items ≡ [] }
    requires fits { Fits state.old }
    ensures done { kernel_of state.new ≡ taken_off (kernel_of state.old) }
    ensures fits { Fits state.new }
{
    swap(&mut state.queue, &mut state.flight);
    state.calls = 1;
}

/// One more call was made for the batch. Takes no memory.
pub fn note_call(state: &mut State)
    requires few { state.old.calls < 3 }
    requires fits { Fits state.old }
    ensures done { kernel_of state.new ≡ record (kernel_of state.old) { calls = state.old.calls + 1 } }
    ensures fits { Fits state.new }
{
    state.calls += 1;
}

// Each commit of the batch takes its place.
fn place_each(alloc: Global, state: &mut State, from: usize)
    requires placing { (before : Kernel) × Placing before state.old.flight.items from (kernel_of state.old) }
    requires fits { Fits state.old }
    ensures placed { (before : Kernel) → Placing before state.old.flight.items from (kernel_of state.old) → Placing before [] from (kernel_of state.new) }
    ensures fits { Fits state.new }
{
    'batch: for i in 0..state.flight.len() {
        let session = state.flight[i];
        place_one(alloc, state, from, session);
    }
}

/// The batch is on the disk: its commits take the next places in order, and what dies by them all goes to the end
/// of the dead list, by ascending number. It is answered `Durable` with the first place and how many they are.
/// Takes no memory. Costs what a commit without changes does for each of them.
pub fn place_all(alloc: Global, state: &mut State) -> Answer
    requires sound { Sound (kernel_of state.old) }
    requires fits { Fits state.old }
    ensures done { kernel_of state.new ≡ placed_all (kernel_of state.old) }
    ensures answer { result ≡ Answer.Durable (length state.old.audit.commits + 1) (length state.old.flight.items) }
    ensures fits { Fits state.new }
{
    let first = state.audit.commits().len() as u64 + 1;
    let count = state.flight.len() as u64;
    let from = state.dead.len();
    place_each(alloc, state, from);
    state.flight.clear();
    state.calls = 0;
    Answer::Durable { first, count }
}
