// Disks that are settled and looked at.
ghost use Rattle.std.specs.Prelude.{◌≡◌, ◌≤◌, ℕ, List, IsTrue, IfOk, OnOk, OnErr};
ghost use Rattle.sp_disk.specs.Faults.{HasCause};
ghost use Rattle.sp_journal.specs.Kinds.{IsKind};
ghost use Rattle.sp_journal.specs.Looking.{OnlyReads};
ghost use Rattle.sp_pair.specs.Settling.{IsSettled, IsUntouched};

use sp_disk::{Disk, DiskError};
use sp_journal::{Kind, kind_on};

/// Settles the disk.
pub fn settle<D: Disk>(disk: &mut D) -> Result<(), DiskError>
    ensures settled { IsTrue (D.tells disk.old) → OnOk result (IsSettled (D.moment disk.old) (D.moment disk.new) (D.reads disk.old) (D.reads disk.new) (D.images disk.old) (D.images disk.new)) }
    ensures untouched { IsTrue (D.tells disk.old) → OnErr result (IsUntouched (D.moment disk.old) (D.moment disk.new) (D.reads disk.old) (D.reads disk.new) (D.images disk.old) (D.images disk.new)) }
    ensures cause { HasCause (D.takes_memory disk.old) (D.faults disk.old) (D.faults disk.new) result }
    ensures tells { D.tells disk.new ≡ D.tells disk.old }
    ensures takes { D.takes_memory disk.new ≡ D.takes_memory disk.old }
{
    disk.sync()?;
    Ok(())
}

/// What the file on the disk is.
pub fn look<D: Disk>(disk: &mut D) -> Result<Kind, DiskError>
    ensures kind { IsTrue (D.tells disk.old) → IfOk result (IsKind (D.reads disk.old)) }
    ensures looks { IsTrue (D.tells disk.old) → OnlyReads (D.moment disk.old) (D.moment disk.new) (D.reads disk.old) (D.reads disk.new) (D.images disk.old) (D.images disk.new) }
    ensures cause { HasCause (D.takes_memory disk.old) (D.faults disk.old) (D.faults disk.new) result }
    ensures tells { D.tells disk.new ≡ D.tells disk.old }
    ensures takes { D.takes_memory disk.new ≡ D.takes_memory disk.old }
{
    let len = disk.len()?;
    Ok(kind_on(disk, len)?)
}
