// The commit of a transaction, up to its place.
ghost use Rattle.std.specs.Prelude.{◌≡◌, Some, OnOk, IfOk, IfErr, IsErrOf, MatchResult};
ghost use Rattle.sp_desk.specs.Course.{Course, StopsAt};
ghost use Rattle.sp_desk.specs.Cleaning.{fault_in};
ghost use Rattle.sp_desk.specs.Committing.{Commits, Stores};

use crate::course::{failure_of, step};
use sp_disk::Disk;
use sp_event::{Answer, Event};
use sp_kernel::Kernel;
use sp_lines::Fault;
use sp_locks::SessionId;

/// How many calls of the disk a batch takes.
const CALLS: usize = 4;

/// How many batches a commit that waits is behind at most: the one in flight, and its own.
const BATCHES: usize = 2;

/// The batch in flight, or else the one that waits, is written call by call, until it is durable. That comes within these calls: what is answered
/// behind them is for the reader who has not counted.
fn write_batch<D: Disk>(kernel: &mut Kernel<D>) -> Result<(), Fault>
    ensures stores { OnOk result (Stores kernel.old.kernel kernel.new.kernel) }
    ensures course { Course D.tells D.takes_memory D.faults D.moment D.images kernel.old kernel.new }
    ensures stops { IfErr result (λ fault. StopsAt (Some fault) kernel.new.kernel) }
    ensures unwritten { IsErrOf result Fault.Write → ⊥ }
{
    for _ in 0..CALLS {
        match step(kernel, Event::Flush) {
            Answer::Wrote => (),
            Answer::Durable { .. } => return Ok(()),
            answer => return Err(failure_of(&answer)),
        }
    }
    Err(Fault::Memory)
}

/// Commits the session's transaction. Where that is queued the batches before it and its own are written.
pub(crate) fn commit<D: Disk>(kernel: &mut Kernel<D>, session: SessionId) -> Result<Answer, Fault>
    ensures commits { IfOk result (λ answer. Commits session kernel.old.kernel answer kernel.new.kernel) }
    ensures course { Course D.tells D.takes_memory D.faults D.moment D.images kernel.old kernel.new }
    ensures stops { MatchResult result (λ answer. StopsAt (fault_in answer) kernel.new.kernel) (λ fault. StopsAt (Some fault) kernel.new.kernel) }
    ensures unwritten { IsErrOf result Fault.Write → ⊥ }
{
    for _ in 0..BATCHES {
        match step(kernel, Event::Commit(session)) {
            Answer::Queued => write_batch(kernel)?,
            answer => return Ok(answer),
        }
    }
    match step(kernel, Event::Commit(session)) {
        Answer::Queued => Err(Fault::Memory),
        answer => Ok(answer),
    }
}
