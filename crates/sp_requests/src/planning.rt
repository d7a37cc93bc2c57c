// The plan of an operation.
ghost use Rattle.std.specs.Prelude.{◌≡◌, ◌≢◌, IfOk, OnErr, None, true};
ghost use Rattle.sp_node.specs.Among.{Among};
ghost use Rattle.sp_model.specs.State.{is_active};
ghost use Rattle.sp_model.specs.Refusals.{turned_away};
ghost use Rattle.sp_model.specs.Removal.{IsTakenOut};
ghost use Rattle.sp_model.specs.Soundness.{Sound};
ghost use Rattle.sp_model.specs.Stepped.{Does};
ghost use Rattle.sp_state.specs.Held.{kernel_of, Fits};
ghost use Rattle.sp_state.specs.Sketches.{IsSketchOf};
ghost use Rattle.sp_state.specs.Stages.{op_of};
ghost use Rattle.sp_requests.specs.Wanted.{IsLeft};

use crate::left::left_to_ask;
use crate::needing::needs;
use crate::places::place_in;
use sp_event::{Answer, Event};
use sp_locks::{Needs, SessionId};
use sp_state::{Seat, Sketch, State};
use std::alloc::{AllocError, Global};

// The needs that are left to ask, and the insertion that was planned for them.
#[derive(Drop)]
struct Left {
    needs: Needs,
    sketch: Option<Sketch>,
}

// The needs of the session's operation that are left to ask.
fn left_of(alloc: Global, state: &State, seat: &Seat) -> Result<Left, AllocError>
    requires sound { Sound (kernel_of state.now) }
    requires among { Among seat.now state.now.seats.items }
    requires active { is_active seat.now ≡ true }
    requires under_way { op_of seat.now.stage ≢ None }
    ensures left { IfOk result (λ left. IsLeft (kernel_of state.now) seat.now left.needs) }
    ensures sketch { IfOk result (λ left. IsSketchOf state.now.tree.table left.sketch) }
{
    let Some(op) = seat.op() else { unreachable!() };
    let asking = needs(alloc, state, seat, op)?;
    let needs = left_to_ask(
        alloc,
        &state.locks,
        seat.session(),
        asking.commit.as_slice(),
        asking.short.as_slice(),
    )?;
    Ok(Left {
        needs,
        sketch: asking.sketch,
    })
}

/// The session's operation is planned: it takes the latch, and what it needs in the present tree is left to ask,
/// but for what locks cover that the session holds to its end. The insertion of a put's entry is kept. `Planned` tells how many locks are left. Where
/// there is no memory nothing has changed. Costs the sessions that have a transaction, what the needs of the
/// operation cost, and for each of them the rows on its name.
pub fn plan(alloc: Global, state: &mut State, session: SessionId) -> Result<Answer, AllocError>
    requires sound { Sound (kernel_of state.old) }
    requires fits { Fits state.old }
    requires goes { turned_away (kernel_of state.old) (Event.Plan session) ≡ None }
    ensures done { IfOk result (λ answer. Does IsTakenOut (kernel_of state.old) (Event.Plan session) answer (kernel_of state.new)) }
    ensures same { OnErr result (kernel_of state.new ≡ kernel_of state.old) }
    ensures fits { Fits state.new }
{
    let at = place_in(state.seats.as_slice(), session);
    let left = left_of(alloc, state, &state.seats[at])?;
    let count = left.needs.len() as u64;
    let seat = &mut state.seats[at];
    seat.plan(left.needs);
    state.sketch = left.sketch;
    Ok(Answer::Planned(count))
}
