// The events that need no disk.
ghost use Rattle.std.specs.Prelude.{◌≡◌, Bool, None, IfOk, OnErr};
ghost use Rattle.sp_model.specs.Refusals.{turned_away};
ghost use Rattle.sp_model.specs.Removal.{IsTakenOut};
ghost use Rattle.sp_model.specs.Stepped.{Does};
ghost use Rattle.sp_model.specs.Soundness.{Sound};
ghost use Rattle.sp_state.specs.Held.{kernel_of, Fits};
ghost use Rattle.sp_kernel.specs.Answers.{NeedsNoDisk, MayWant};

use sp_apply::apply;
use sp_ending::{clean, rollback};
use sp_event::{Answer, Event};
use sp_requests::{ask, begin, name, plan, start};
use sp_state::State;
use std::alloc::{AllocError, Global};

/// Does an event that needs no disk and is not turned away. Where there is no memory nothing changes.
pub(crate) fn act(alloc: Global, state: &mut State, event: Event) -> Result<Answer, AllocError>
    requires sound { Sound (kernel_of state.old) }
    requires fits { Fits state.old }
    requires goes { turned_away (kernel_of state.old) event ≡ None }
    requires memory { NeedsNoDisk event }
    ensures done { IfOk result (λ answer. Does IsTakenOut (kernel_of state.old) event answer (kernel_of state.new)) }
    ensures same { OnErr result (kernel_of state.new ≡ kernel_of state.old) }
    ensures sure { OnErr result ((takes : Bool) → MayWant takes (kernel_of state.old) event) }
    ensures fits { Fits state.new }
{
    match event {
        Event::Begin(session) => begin(alloc, state, session),
        Event::Start(session, op) => start(alloc, state, session, op),
        Event::Name(session) => name(alloc, state, session),
        Event::Plan(session) => plan(alloc, state, session),
        Event::Ask(session) => ask(alloc, state, session),
        Event::Apply(session) => apply(alloc, state, session),
        Event::Rollback(session) => Ok(rollback(state, session)),
        Event::Clean => clean(alloc, state),
        Event::Commit(_) | Event::Flush => unreachable!(),
    }
}
