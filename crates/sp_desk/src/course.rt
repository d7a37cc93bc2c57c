// One event.
ghost use Rattle.std.specs.Prelude.{◌≡◌, ◌≢◌, Some};
ghost use Rattle.sp_kernel.specs.Answers.{Answers};
ghost use Rattle.sp_desk.specs.Cleaning.{fault_in, fault_told};
ghost use Rattle.sp_desk.specs.Course.{Course, StopsAt};

use sp_disk::Disk;
use sp_event::{Answer, Event};
use sp_kernel::Kernel;
use sp_lines::Fault;

/// Does one event.
pub(crate) fn step<D: Disk>(kernel: &mut Kernel<D>, event: Event) -> Answer
    ensures answers { Answers kernel.old.kernel event result kernel.new.kernel }
    ensures course { Course D.tells D.takes_memory D.faults D.moment D.images kernel.old kernel.new }
    ensures stops { StopsAt (fault_in result) kernel.new.kernel }
{
    kernel.step(event)
}

/// The fault that an answer is, if it is one.
pub(crate) fn fault_of(answer: &Answer) -> Option<Fault>
    ensures fault { result ≡ fault_in answer.now }
    ensures unwritten { result ≡ Some Fault.Write → ⊥ }
{
    match answer {
        Answer::Memory => Some(Fault::Memory),
        Answer::Stopped(_) | Answer::DiskFault => Some(Fault::Disk),
        _ => None,
    }
}

/// The fault by which a run ends after that answer. One that no run gives is told as want of memory.
pub(crate) fn failure_of(answer: &Answer) -> Fault
    ensures told { result ≡ fault_told (fault_in answer.now) }
    ensures unwritten { result ≡ Fault.Write → ⊥ }
{
    match fault_of(answer) {
        Some(fault) => fault,
        None => Fault::Memory,
    }
}
