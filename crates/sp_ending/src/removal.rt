// Dead entries that leave the tree.
ghost use Rattle.std.specs.Prelude.{◌≡◌, ◌≤◌, ◌<◌, ◌^◌, ◌↔◌, IsTrue, IfOk, OnErr, None};
ghost use Rattle.sp_model.specs.Refusals.{turned_away};
ghost use Rattle.sp_model.specs.Stepped.{Does};
ghost use Rattle.sp_model.specs.Removal.{IsTakenOut};
ghost use Rattle.sp_model.specs.Soundness.{Sound};
ghost use Rattle.sp_state.specs.Held.{kernel_of, Fits};

use crate::dead::{first_dead, put_off};
use crate::opposing::first_opposed;
use sp_condense::remove;
use sp_event::{Answer, Event, Kind};
use sp_needs::short_needs;
use sp_node::{Plan, Tree};
use sp_state::State;
use std::alloc::{AllocError, Global};

// Node numbers are used below this one.
const FIRST_UNUSED: u64 = 1 << 63;

// Whether the plan needs numbers that are not to be used.
fn passes_numbers(tree: &Tree, plan: &Plan) -> bool
    ensures { IsTrue result ↔ ((2 ^ 63 ≤ tree.now.table.next) × (tree.now.table.next < plan.now.next)) }
{
    tree.next() >= FIRST_UNUSED && tree.next() < plan.next
}

/// The removal of the first dead entry from the tree. It is answered `Nothing` where none is dead; `Full` where the
/// removal needs node numbers that are not to be used; `Later` with a granule, the least session that holds a lock
/// there against the removal, and what it holds there: then the entry goes to the end of the dead list; and
/// `Removed` with its number. Where there is no memory nothing changes. Costs what `remove` and `short_needs` do,
/// and the rows on the granules of the needs.
pub fn clean(alloc: Global, state: &mut State) -> Result<Answer, AllocError>
    requires sound { Sound (kernel_of state.old) }
    requires fits { Fits state.old }
    requires goes { turned_away (kernel_of state.old) Event.Clean ≡ None }
    ensures done { IfOk result (λ answer. Does IsTakenOut (kernel_of state.old) Event.Clean answer (kernel_of state.new)) }
    ensures same { OnErr result (kernel_of state.new ≡ kernel_of state.old) }
    ensures fits { Fits state.new }
{
    let Some(number) = first_dead(&state.dead) else {
        return Ok(Answer::Nothing);
    };
    let plan = remove(alloc, &state.tree, number)?;
    if passes_numbers(&state.tree, &plan) {
        return Ok(Answer::Full(Kind::Numbers));
    }
    let needs = short_needs(alloc, &state.tree, &plan, None)?;
    if let Some(found) = first_opposed(&state.locks, needs.as_slice()) {
        put_off(&mut state.dead);
        return Ok(Answer::Later {
            granule: found.granule,
            holder: found.holder,
            mode: found.mode,
        });
    }
    state.sketch = None;
    state.tree.make_room(&plan)?;
    state.tree.adopt(plan);
    let _first = state.dead.pop_front();
    Ok(Answer::Removed(number))
}
