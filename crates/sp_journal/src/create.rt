// A file that is made anew.
ghost use Rattle.std.specs.Prelude.{◌≡◌, ◌≤◌, ℕ, IsTrue, List, [], OnOk, IsErrOf};
ghost use Rattle.sp_disk.specs.Faults.{HasCause};
ghost use Rattle.sp_disk.specs.Moments.{LeavesOnly};
ghost use Rattle.sp_journal.specs.Recovery.{new_file, NeedsMaking};

use sp_disk::{Disk, DiskError};

// Empties a file that is to be made anew, and settles that. The cut has to be settled first: behind a
// header that is written over old bytes these would count.
fn empty<D: Disk>(disk: &mut D) -> Result<(), DiskError>
    ensures crash { IsTrue (D.tells disk.old) → NeedsMaking (D.reads disk.old) → ((file : List ℕ) → D.images disk.old (D.moment disk.old) file → file ≡ D.reads disk.old) → LeavesOnly (D.moment disk.old) (D.moment disk.new) (D.images disk.old) (D.images disk.new) NeedsMaking }
    ensures settled { IsTrue (D.tells disk.old) → OnOk result ((D.reads disk.new ≡ []) × ((file : List ℕ) → D.images disk.new (D.moment disk.new) file → file ≡ [])) }
    ensures cause { HasCause (D.takes_memory disk.old) (D.faults disk.old) (D.faults disk.new) result }
    ensures tells { D.tells disk.new ≡ D.tells disk.old }
    ensures takes { D.takes_memory disk.new ≡ D.takes_memory disk.old }
{
    disk.cut(0)?;
    disk.sync()?;
    Ok(())
}

// The header of version 2 and generation 1, and a closed gate.
const NEW_FILE: [u8; 17] = *b"SPJL\0\0\0\x02\0\0\0\0\0\0\0\x01\0";

// Writes a new file over an empty one, and settles that.
fn begin<D: Disk>(disk: &mut D) -> Result<(), DiskError>
    ensures crash { IsTrue (D.tells disk.old) → ((file : List ℕ) → D.images disk.old (D.moment disk.old) file → file ≡ []) → LeavesOnly (D.moment disk.old) (D.moment disk.new) (D.images disk.old) (D.images disk.new) NeedsMaking }
    ensures settled { IsTrue (D.tells disk.old) → D.reads disk.old ≡ [] → OnOk result ((D.reads disk.new ≡ new_file) × ((file : List ℕ) → D.images disk.new (D.moment disk.new) file → file ≡ new_file)) }
    ensures cause { HasCause (D.takes_memory disk.old) (D.faults disk.old) (D.faults disk.new) result }
    ensures tells { D.tells disk.new ≡ D.tells disk.old }
    ensures takes { D.takes_memory disk.new ≡ D.takes_memory disk.old }
{
    disk.write_at(0, &NEW_FILE)?;
    disk.sync()?;
    Ok(())
}

/// Makes the file anew: it is cut to nothing, which is settled, and a header with a closed gate is written
/// in one call, which is settled too. A stop at any moment leaves a file that is to be made anew.
pub fn create<D: Disk>(disk: &mut D) -> Result<(), DiskError>
    ensures crash { IsTrue (D.tells disk.old) → NeedsMaking (D.reads disk.old) → ((file : List ℕ) → D.images disk.old (D.moment disk.old) file → file ≡ D.reads disk.old) → LeavesOnly (D.moment disk.old) (D.moment disk.new) (D.images disk.old) (D.images disk.new) NeedsMaking }
    ensures settled { IsTrue (D.tells disk.old) → OnOk result ((D.reads disk.new ≡ new_file) × ((file : List ℕ) → D.images disk.new (D.moment disk.new) file → file ≡ new_file)) }
    ensures cause { HasCause (D.takes_memory disk.old) (D.faults disk.old) (D.faults disk.new) result }
    ensures tells { D.tells disk.new ≡ D.tells disk.old }
    ensures takes { D.takes_memory disk.new ≡ D.takes_memory disk.old }
{
    empty(disk)?;
    begin(disk)?;
    Ok(())
}
