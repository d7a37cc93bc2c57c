// The dead entries after a command.
ghost use Rattle.std.specs.Prelude.{◌≡◌, length, OnOk, IfErr, IsErrOf, Some};
ghost use Rattle.sp_desk.specs.Course.{Course, StopsAt};
ghost use Rattle.sp_desk.specs.Cleaning.{Cleans};

use crate::course::{fault_of, step};
use sp_disk::Disk;
use sp_event::Event;
use sp_kernel::Kernel;
use sp_lines::Fault;

/// Tries to remove as many dead entries as there are.
pub(crate) fn clean<D: Disk>(kernel: &mut Kernel<D>) -> Result<(), Fault>
    ensures cleans { OnOk result (Cleans kernel.old.kernel (length kernel.old.kernel.dead) kernel.new.kernel) }
    ensures course { Course D.tells D.takes_memory D.faults D.moment D.images kernel.old kernel.new }
    ensures stops { IfErr result (λ fault. StopsAt (Some fault) kernel.new.kernel) }
    ensures unwritten { IsErrOf result Fault.Write → ⊥ }
{
    for _ in 0..kernel.dead() {
        if let Some(fault) = fault_of(&step(kernel, Event::Clean)) {
            return Err(fault);
        }
    }
    Ok(())
}
