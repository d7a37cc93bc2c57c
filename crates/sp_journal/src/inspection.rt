// A file is read, and stays as it is.
ghost use Rattle.std.specs.Prelude.{◌≡◌, ◌≤◌, ℕ, IsTrue, IfOk, IfErr, IsErrOf};
ghost use Rattle.sp_disk.specs.Faults.{Rose};
ghost use Rattle.sp_journal.specs.Looking.{OnlyReads};
ghost use Rattle.sp_journal.specs.Opening.{Refused};
ghost use Rattle.sp_journal.specs.Recovery.{Recovers, Holds};

use crate::scan::scan_file;
use crate::scanned::Scan;
use crate::{JournalError, Recovered};
use sp_disk::Disk;
use std::alloc::Global;

/// Tells what the journal on the disk holds. It writes nothing and makes no sync. A file whose making was
/// not finished holds nothing.
pub fn inspect<D: Disk>(alloc: Global, disk: &mut D) -> Result<Recovered, JournalError>
    ensures recovered { IsTrue (D.tells disk.old) → IfOk result (λ found. Recovers (D.reads disk.old) (Holds found)) }
    ensures refused { IsTrue (D.tells disk.old) → IfErr result (λ e. Refused e (D.reads disk.old) (D.reads disk.new)) }
    ensures looks { IsTrue (D.tells disk.old) → OnlyReads (D.moment disk.old) (D.moment disk.new) (D.reads disk.old) (D.reads disk.new) (D.images disk.old) (D.images disk.new) }
    ensures later { D.faults disk.old ≤ D.faults disk.new }
    ensures fault { IsErrOf result JournalError.Fault → Rose (D.faults disk.old) (D.faults disk.new) }
    ensures tells { D.tells disk.new ≡ D.tells disk.old }
    ensures takes { D.takes_memory disk.new ≡ D.takes_memory disk.old }
{
    let Scan {
        found,
        kind: _,
        end: _,
    } = scan_file(alloc, disk)?;
    Ok(found)
}
