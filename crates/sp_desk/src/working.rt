// An operation, from one point to its answer.
ghost use Rattle.std.specs.Option.{IfSome};
ghost use Rattle.std.specs.Prelude.{◌≡◌, None, true, false, MatchOption};
ghost use Rattle.sp_desk.specs.Course.{Course, StopsAt};
ghost use Rattle.sp_desk.specs.Cleaning.{fault_in};
ghost use Rattle.sp_desk.specs.Waiting.{still_waits};
ghost use Rattle.sp_desk.specs.Working.{Proceeds, Operates};

use crate::Point;
use crate::course::step;
use sp_disk::Disk;
use sp_event::{Answer, Event};
use sp_kernel::Kernel;
use sp_locks::SessionId;
use sp_rect::Op;

/// The answer to an operation, and where it stood then.
#[derive(Drop)]
pub struct Ending {
    pub answer: Answer,
    pub point: Point,
}

/// The operation goes on from that point until it is answered.
pub(crate) fn proceed<D: Disk>(kernel: &mut Kernel<D>, session: SessionId, from: Point) -> Ending
    ensures proceeds { Proceeds session from kernel.old.kernel result.answer result.point kernel.new.kernel }
    ensures course { Course D.tells D.takes_memory D.faults D.moment D.images kernel.old kernel.new }
    ensures stops { StopsAt (fault_in result.answer) kernel.new.kernel }
{
    let mut point = from;
    loop {
        let answer = step(kernel, point.event(session));
        match point.after(&answer) {
            Some(next) => point = next,
            None => return Ending { answer, point },
        }
    }
}

/// The operation is started, and goes on until it is answered.
pub(crate) fn operate<D: Disk>(kernel: &mut Kernel<D>, session: SessionId, op: Op) -> Ending
    ensures operates { Operates session op kernel.old.kernel result.answer result.point kernel.new.kernel }
    ensures course { Course D.tells D.takes_memory D.faults D.moment D.images kernel.old kernel.new }
    ensures stops { StopsAt (fault_in result.answer) kernel.new.kernel }
{
    match step(kernel, Event::Start(session, op)) {
        Answer::Started => proceed(kernel, session, Point::Object),
        answer => Ending {
            answer,
            point: Point::Object,
        },
    }
}

/// The operation that waited there goes on until it is answered, unless it still waits.
pub(crate) fn wake<D: Disk>(
    kernel: &mut Kernel<D>,
    session: SessionId,
    from: Point,
) -> Option<Ending>
    ensures wakes { MatchOption result (still_waits kernel.old.kernel session from ≡ true) (λ ending. Proceeds session from kernel.old.kernel ending.answer ending.point kernel.new.kernel) }
    ensures awake { MatchOption result (kernel.new.kernel ≡ kernel.old.kernel) (λ ending. fault_in ending.answer ≡ None → still_waits kernel.old.kernel session from ≡ false) }
    ensures course { Course D.tells D.takes_memory D.faults D.moment D.images kernel.old kernel.new }
    ensures stops { IfSome result (λ ending. StopsAt (fault_in ending.answer) kernel.new.kernel) }
{
    let answer = step(kernel, from.event(session));
    match (from.after(&answer), answer) {
        (_, Answer::Still(_)) => None,
        (Some(next), _) => Some(proceed(kernel, session, next)),
        (None, answer) => Some(Ending {
            answer,
            point: from,
        }),
    }
}
