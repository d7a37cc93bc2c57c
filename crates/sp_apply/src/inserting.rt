// The insertion of a put's entry.
ghost use Rattle.std.specs.Prelude.{◌≡◌, ◌+◌, ◌<◌, ◌≤◌, ◌^◌, IfOk, OnOk, OnErr};
ghost use Rattle.std.specs.VecDeque.{deque_capacity};
ghost use Rattle.sp_rect.specs.declared.operation.Op.TheVariants.{Put};
ghost use Rattle.sp_rect.specs.declared.record.Record.{Record as AnyRecord};
ghost use Rattle.sp_event.specs.declared.event.Event.TheVariants.{Apply as AskApply};
ghost use Rattle.sp_model.specs.declared.session.Session.{Session as AnySession};
ghost use Rattle.sp_model.specs.Removal.{IsTakenOut};
ghost use Rattle.sp_model.specs.Soundness.{Sound};
ghost use Rattle.sp_model.specs.Stepped.{Does};
ghost use Rattle.sp_state.specs.Held.{kernel_of, Fits};
ghost use Rattle.sp_apply.specs.Acting.{IsReady, IsGoing};

use crate::gifts::gifts;
use crate::keeping::keep;
use sp_event::Answer;
use sp_locks::SessionId;
use sp_node::Plan;
use sp_rect::Reply;
use sp_state::State;
use std::alloc::{AllocError, Global};
use std::collections::VecDeque;

// Makes room for so many dead entries, and changes nothing else, with or without memory.
fn make_graves(dead: &mut VecDeque<u64>, entries: usize) -> Result<(), AllocError>
    ensures same { dead.new.items ≡ dead.old.items }
    ensures no_less { deque_capacity dead.old ≤ deque_capacity dead.new }
    ensures room { OnOk result (entries ≤ deque_capacity dead.new) }
{
    dead.reserve(entries.saturating_sub(dead.len()))
}

/// The tree of this plan takes the place of the state's, with the locks that the transaction gets on new
/// nodes, and the put is over.
pub(crate) fn insert(
    alloc: Global,
    state: &mut State,
    session: SessionId,
    at: usize,
    plan: Plan,
) -> Result<Answer, AllocError>
    requires sound { Sound (kernel_of state.old) }
    requires fits { Fits state.old }
    requires going { (x : AnySession) × (r : AnyRecord) × IsReady (kernel_of state.old) session at x (Put r) × IsGoing (kernel_of state.old) x r plan }
    ensures done { IfOk result (λ answer. Does IsTakenOut (kernel_of state.old) (AskApply session) answer (kernel_of state.new)) }
    ensures same { OnErr result (kernel_of state.new ≡ kernel_of state.old) }
    ensures fits { Fits state.new }
{
    state.sketch = None;
    let gifts = gifts(alloc, &state.tree, &plan, &state.seats[at])?;
    state.tree.make_room(&plan)?;
    make_graves(&mut state.dead, state.tree.len() + 1)?;
    state.locks.give(alloc, session, &gifts)?;
    keep(&mut state.seats, at, Reply::Done)?;
    state.tree.adopt(plan);
    state.next_entry += 1;
    state.locks.release_short(session);
    Ok(Answer::Reply(Reply::Done))
}
