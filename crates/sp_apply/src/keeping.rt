// Sessions whose operation is over.
ghost use Rattle.std.specs.Prelude.{◌≡◌, ◌<◌, Some, None, OnOk, OnErr, IsOk, length, slice_get};
ghost use Rattle.sp_locks.specs.declared.needs.Need.{Need as AnyNeed};
ghost use Rattle.sp_rect.specs.declared.operation.Op.{Op as AnyOp};
ghost use Rattle.std.specs.Prelude.{List};
ghost use Rattle.sp_model.specs.declared.session.Session.{Session as AnySession};
ghost use Rattle.sp_model.specs.declared.session.Stage.TheVariants.{Idle, Planned};
ghost use Rattle.sp_model.specs.State.{staged, with_change};
ghost use Rattle.sp_model.specs.Moves.{lengthened};
ghost use Rattle.sp_model.specs.Soundness.{AreAscending};
ghost use Rattle.sp_state.specs.Stages.{area};

use sp_model::Stage;
use sp_rect::Reply;
use sp_state::Seat;
use std::alloc::AllocError;

/// The planned operation of the session at that place joins those of its transaction, and is over. Where there
/// is no memory the sessions are as they were; an operation that looks at no rectangle takes none.
pub(crate) fn keep(seats: &mut Vec<Seat>, at: usize, reply: Reply) -> Result<(), AllocError>
    requires bound { at < length seats.old.items }
    requires ascending { AreAscending seats.old.items }
    ensures ok { OnOk result ((x : AnySession) (op : AnyOp) (left : List AnyNeed) → slice_get seats.old.items at ≡ Some x → x.stage ≡ Planned op left
        → seats.new.items ≡ staged x.txn.session Idle (with_change x.txn.session (lengthened op reply) seats.old.items)) }
    ensures err { OnErr result (seats.new.items ≡ seats.old.items) }
    ensures sure { (x : AnySession) (op : AnyOp) (left : List AnyNeed) → slice_get seats.old.items at ≡ Some x → x.stage ≡ Planned op left → area op ≡ None → IsOk result }
{
    let seat = &mut seats[at];
    seat.keep(reply)
}

/// The session at that place has no operation any more. Takes no memory.
pub(crate) fn rest(seats: &mut Vec<Seat>, at: usize)
    requires bound { at < length seats.old.items }
    requires ascending { AreAscending seats.old.items }
    ensures { (x : AnySession) → slice_get seats.old.items at ≡ Some x → seats.new.items ≡ staged x.txn.session Idle seats.old.items }
{
    let seat = &mut seats[at];
    seat.rest(Stage::Idle);
}
