// Operations that wait.
ghost use Rattle.std.specs.Option.{IfSome};
ghost use Rattle.std.specs.Prelude.{◌≡◌, None, MatchOption};
ghost use Rattle.sp_desk.specs.Course.{Course, StopsAt};
ghost use Rattle.sp_desk.specs.Cleaning.{fault_in};
ghost use Rattle.sp_desk.specs.Waiting.{AllWait, WakesSo};

use crate::Point;
use crate::working::{Ending, wake};
use sp_disk::Disk;
use sp_kernel::Kernel;
use sp_locks::SessionId;
use sp_rect::Op;

/// An operation that waits, and where it goes on.
#[derive(Drop)]
pub struct Stalled {
    pub session: SessionId,
    pub op: Op,
    pub point: Point,
}

/// Which of these operations was the first that no longer waits, and how it ended.
#[derive(Drop)]
pub struct Woken {
    pub at: usize,
    pub ending: Ending,
}

/// The first of these operations that no longer waits goes on until it is answered.
pub(crate) fn wake_first<D: Disk>(kernel: &mut Kernel<D>, stalled: &[Stalled]) -> Option<Woken>
    ensures wakes { MatchOption result (AllWait kernel.old.kernel stalled.now) (λ woken. WakesSo kernel.old.kernel stalled.now woken.at woken.ending.answer woken.ending.point kernel.new.kernel) }
    ensures same { result ≡ None → kernel.new.kernel ≡ kernel.old.kernel }
    ensures course { Course D.tells D.takes_memory D.faults D.moment D.images kernel.old kernel.new }
    ensures stops { IfSome result (λ woken. StopsAt (fault_in woken.ending.answer) kernel.new.kernel) }
{
    for (at, waiter) in stalled.iter().enumerate() {
        if let Some(ending) = wake(kernel, waiter.session, waiter.point) {
            return Some(Woken { at, ending });
        }
    }
    None
}
