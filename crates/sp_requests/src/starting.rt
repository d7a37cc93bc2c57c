// The start of an operation.
ghost use Rattle.std.specs.Prelude.{◌≡◌, IfOk, OnErr, None};
ghost use Rattle.sp_rect.specs.declared.operation.Op.{Op as AnyOp};
ghost use Rattle.sp_model.specs.Plans.{HasRectangle};
ghost use Rattle.sp_model.specs.Refusals.{turned_away};
ghost use Rattle.sp_model.specs.Removal.{IsTakenOut};
ghost use Rattle.sp_model.specs.Soundness.{Sound};
ghost use Rattle.sp_model.specs.Stepped.{Does};
ghost use Rattle.sp_state.specs.Held.{kernel_of, Fits};

use crate::places::place_in;
use sp_event::{Answer, Event};
use sp_locks::SessionId;
use sp_rect::Op;
use sp_state::State;
use std::alloc::{AllocError, Global};

// The area that an operation looks at is in space, as every rectangle is.
fn looks_in_space(op: &Op)
    ensures { HasRectangle op.now }
{
    match op {
        Op::Find(rect) | Op::Fill(rect, _) | Op::Clear(rect) => {
            let _in_space = rect.x1();
        }
        Op::Put(_) | Op::Drop(_) | Op::Set(_, _) | Op::Get(_) => {}
    }
}

/// The session's transaction starts an operation, which has asked for nothing yet. `Started` says that it is
/// kept. Where there is no memory nothing has changed. Costs the sessions that have a transaction.
pub fn start(
    _alloc: Global,
    state: &mut State,
    session: SessionId,
    op: Op,
) -> Result<Answer, AllocError>
    requires sound { Sound (kernel_of state.old) }
    requires fits { Fits state.old }
    requires goes { turned_away (kernel_of state.old) (Event.Start session op) ≡ None }
    ensures done { IfOk result (λ answer. Does IsTakenOut (kernel_of state.old) (Event.Start session op) answer (kernel_of state.new)) }
    ensures same { OnErr result (kernel_of state.new ≡ kernel_of state.old) }
    ensures fits { Fits state.new }
{
    looks_in_space(&op);
    let at = place_in(state.seats.as_slice(), session);
    let seat = &mut state.seats[at];
    seat.start(op)?;
    state.operations += 1;
    Ok(Answer::Started)
}
