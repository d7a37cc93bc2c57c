// The answer to one event.
ghost use Rattle.std.specs.Prelude.{◌≡◌, ◌≢◌, IfOk, IfErr};
ghost use Rattle.sp_disk.specs.Faults.{Rose};
ghost use Rattle.sp_kernel.specs.Answers.{Answers};
ghost use Rattle.sp_drill.specs.Leading.{Leads};
ghost use Rattle.sp_drill.specs.Hearing.{MayHaveDone};

use sp_disk::Disk;
use sp_event::{Answer, Event};
use sp_kernel::Kernel;
use sp_lines::Fault;
use sp_list::Duplicate;
use std::alloc::Global;

/// Does the event, and hands it back with its answer. Where there is no memory the event may be done all the same.
pub(crate) fn answer_to<D: Disk>(
    alloc: Global,
    kernel: &mut Kernel<D>,
    event: Event,
) -> Result<(Event, Answer), Fault>
    ensures same { IfOk result (λ p. p.0 ≡ event) }
    ensures some { IfOk result (λ p. p.1 ≢ Answer.Memory) }
    ensures answers { IfOk result (λ p. Answers kernel.old.kernel event p.1 kernel.new.kernel) }
    ensures cause { IfOk result (λ p. p.1 ≡ Answer.DiskFault → Rose (D.faults kernel.old.disk) (D.faults kernel.new.disk)) }
    ensures fault { IfErr result (λ fault. fault ≡ Fault.Memory) }
    ensures lacks { IfErr result (λ fault. MayHaveDone kernel.old.kernel event kernel.new.kernel) }
    ensures leads { Leads D.tells D.takes_memory D.faults D.moment D.images kernel.old kernel.new }
{
    let copy = match event.copy(alloc) {
        Ok(copy) => copy,
        Err(_) => return Err(Fault::Memory),
    };
    match kernel.step(copy) {
        Answer::Memory => Err(Fault::Memory),
        answer => Ok((event, answer)),
    }
}
