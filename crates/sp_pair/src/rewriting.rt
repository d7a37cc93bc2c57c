// A file is written anew, in two halves of four calls each.
ghost use Rattle.std.specs.Prelude.{◌≡◌, ◌<◌, ◌≤◌, ◌^◌, ℕ, List, [], ◌∷◌, ◌++◌, length, IsTrue, OnOk};
ghost use Rattle.sp_disk.specs.Faults.{HasCause};
ghost use Rattle.sp_disk.specs.Files.{put, Torn, Shortened};
ghost use Rattle.sp_disk.specs.Moments.{LeavesOnly};
ghost use Rattle.sp_journal.specs.Format.{header_bytes};
ghost use Rattle.sp_pair.specs.Compacting.{begun, IsCleared, IsFilled};

use sp_disk::{Disk, DiskError};
use sp_journal::write_header;

// Cuts the file to nothing, and settles that.
fn empty<D: Disk>(disk: &mut D) -> Result<(), DiskError>
    ensures crash { IsTrue (D.tells disk.old) → ((file : List ℕ) → D.images disk.old (D.moment disk.old) file → file ≡ D.reads disk.old) → LeavesOnly (D.moment disk.old) (D.moment disk.new) (D.images disk.old) (D.images disk.new) (Shortened 0 (D.reads disk.old)) }
    ensures settled { IsTrue (D.tells disk.old) → OnOk result ((D.reads disk.new ≡ []) × ((file : List ℕ) → D.images disk.new (D.moment disk.new) file → file ≡ D.reads disk.new)) }
    ensures cause { HasCause (D.takes_memory disk.old) (D.faults disk.old) (D.faults disk.new) result }
    ensures tells { D.tells disk.new ≡ D.tells disk.old }
    ensures takes { D.takes_memory disk.new ≡ D.takes_memory disk.old }
{
    disk.cut(0)?;
    disk.sync()?;
    Ok(())
}

// Writes the bytes from that offset on, and settles them.
fn write<D: Disk>(disk: &mut D, at: u64, bytes: &[u8]) -> Result<(), DiskError>
    ensures crash { IsTrue (D.tells disk.old) → ((file : List ℕ) → D.images disk.old (D.moment disk.old) file → file ≡ D.reads disk.old) → LeavesOnly (D.moment disk.old) (D.moment disk.new) (D.images disk.old) (D.images disk.new) (Torn at (length bytes.now) (D.reads disk.old)) }
    ensures settled { IsTrue (D.tells disk.old) → OnOk result ((D.reads disk.new ≡ put (D.reads disk.old) at bytes.now) × ((file : List ℕ) → D.images disk.new (D.moment disk.new) file → file ≡ D.reads disk.new)) }
    ensures cause { HasCause (D.takes_memory disk.old) (D.faults disk.old) (D.faults disk.new) result }
    ensures tells { D.tells disk.new ≡ D.tells disk.old }
    ensures takes { D.takes_memory disk.new ≡ D.takes_memory disk.old }
{
    disk.write_at(at, bytes)?;
    Ok(disk.sync()?)
}

// The header of that generation and a closed gate.
fn front(generation: u64) -> [u8; 17]
    ensures { result ≡ begun generation }
{
    let mut bytes = [0; 17];
    bytes[..16].copy_from_slice(&write_header(2, generation));
    bytes
}

/// The first half: the file is cut to nothing, and gets a header of that generation and a closed gate.
/// The cut has to be settled first: behind a header that is written over old bytes these would count.
pub fn begin<D: Disk>(disk: &mut D, generation: u64) -> Result<(), DiskError>
    ensures crash { IsTrue (D.tells disk.old) → ((file : List ℕ) → D.images disk.old (D.moment disk.old) file → file ≡ D.reads disk.old) → LeavesOnly (D.moment disk.old) (D.moment disk.new) (D.images disk.old) (D.images disk.new) (IsCleared (D.reads disk.old)) }
    ensures begun { IsTrue (D.tells disk.old) → OnOk result ((D.reads disk.new ≡ begun generation) × ((file : List ℕ) → D.images disk.new (D.moment disk.new) file → file ≡ D.reads disk.new)) }
    ensures cause { HasCause (D.takes_memory disk.old) (D.faults disk.old) (D.faults disk.new) result }
    ensures tells { D.tells disk.new ≡ D.tells disk.old }
    ensures takes { D.takes_memory disk.new ≡ D.takes_memory disk.old }
{
    empty(disk)?;
    write(disk, 0, &front(generation))?;
    Ok(())
}

// The offset of the first gate, and of what stands behind it.
const GATE: u64 = 16;

const BODY: u64 = 17;

/// The second half: the body of the first entry is written behind the closed gate, and then that is
/// opened. Until it is, a stop leaves a file that holds nothing.
pub fn finish<D: Disk>(disk: &mut D, body: &[u8]) -> Result<(), DiskError>
    ensures crash { (generation : ℕ) → 2 ≤ generation → generation < 2 ^ 63 → IsTrue (D.tells disk.old) → D.reads disk.old ≡ begun generation → ((file : List ℕ) → D.images disk.old (D.moment disk.old) file → file ≡ D.reads disk.old) → LeavesOnly (D.moment disk.old) (D.moment disk.new) (D.images disk.old) (D.images disk.new) (IsFilled (header_bytes 2 generation ++ 1 ∷ body.now)) }
    ensures filled { (generation : ℕ) → IsTrue (D.tells disk.old) → D.reads disk.old ≡ begun generation → OnOk result ((D.reads disk.new ≡ header_bytes 2 generation ++ 1 ∷ body.now) × ((file : List ℕ) → D.images disk.new (D.moment disk.new) file → file ≡ D.reads disk.new)) }
    ensures cause { HasCause (D.takes_memory disk.old) (D.faults disk.old) (D.faults disk.new) result }
    ensures tells { D.tells disk.new ≡ D.tells disk.old }
    ensures takes { D.takes_memory disk.new ≡ D.takes_memory disk.old }
{
    write(disk, BODY, body)?;
    write(disk, GATE, &[1])?;
    Ok(())
}
