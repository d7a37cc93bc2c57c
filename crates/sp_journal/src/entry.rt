// The bytes of one entry on a disk.
ghost use Rattle.std.specs.Prelude.{◌≡◌, ◌+◌, ◌<◌, ◌≤◌, ◌^◌, ◌++◌, ◌∷◌, ℕ, List, length, drop, IsTrue, IfOk, IfSome, IfNone, IsErrOf};
ghost use Rattle.sp_disk.specs.Faults.{HasCause, Rose};
ghost use Rattle.sp_journal.specs.Format.{u32_bytes};
ghost use Rattle.sp_journal.specs.Looking.{OnlyReads};

use byteorder::{BigEndian, ByteOrder};
use sp_disk::{Disk, DiskError};
use std::alloc::Global;

/// A gate, and the size of the payload behind it.
#[derive(Clone, Copy)]
pub struct Front {
    pub gate: u8,
    pub size: u32,
}

// The gate and the size that these bytes are.
fn front_of(bytes: &[u8; 5]) -> Front
    ensures { (gate : ℕ) (rest behind : List ℕ) → bytes.now ≡ gate ∷ rest → (result.gate ≡ gate) × (rest ≡ u32_bytes result.size) }
{
    Front {
        gate: bytes[0],
        size: BigEndian::read_u32(&bytes[1..]),
    }
}

/// The gate at that offset, and the size behind it. For what is not there it has zeros.
pub fn read_front<D: Disk>(disk: &mut D, at: u64) -> Result<Front, DiskError>
    ensures gate { IsTrue (D.tells disk.old) → (gate : ℕ) (rest : List ℕ) → drop at (D.reads disk.old) ≡ gate ∷ rest → IfOk result (λ front. front.gate ≡ gate) }
    ensures small { IfOk result (λ front. front.size < 2 ^ 32) }
    ensures size { IsTrue (D.tells disk.old) → (gate : ℕ) (rest : List ℕ) → drop at (D.reads disk.old) ≡ gate ∷ rest → 4 ≤ length rest → IfOk result (λ front. rest ≡ u32_bytes front.size ++ drop 4 rest) }
    ensures looks { IsTrue (D.tells disk.old) → OnlyReads (D.moment disk.old) (D.moment disk.new) (D.reads disk.old) (D.reads disk.new) (D.images disk.old) (D.images disk.new) }
    ensures cause { HasCause (D.takes_memory disk.old) (D.faults disk.old) (D.faults disk.new) result }
    ensures tells { D.tells disk.new ≡ D.tells disk.old }
    ensures takes { D.takes_memory disk.new ≡ D.takes_memory disk.old }
{
    let mut bytes = [0; 5];
    let _read = disk.read_at(at, &mut bytes)?;
    Ok(front_of(&bytes))
}

/// The payload of that size behind the gate at that offset of a file of that length. `None` comes where the
/// payload and the next gate do not lie in the file: then no memory is taken.
pub fn read_payload<D: Disk>(
    alloc: Global,
    disk: &mut D,
    at: u64,
    size: u32,
    len: u64,
) -> Result<Option<Vec<u8>>, DiskError>
    requires inside { at < len }
    requires small { len < 2 ^ 63 }
    ensures whole { IsTrue (D.tells disk.old) → length (D.reads disk.old) ≡ len → IfOk result (λ read. IfSome read (λ bytes. drop (at + 5) (D.reads disk.old) ≡ bytes.items ++ drop (at + 5 + size) (D.reads disk.old))) }
    ensures size { IfOk result (λ read. IfSome read (λ bytes. length bytes.items ≡ size)) }
    ensures within { IfOk result (λ read. IfSome read (λ bytes. at + 5 + size < len)) }
    ensures none { IsTrue (D.tells disk.old) → length (D.reads disk.old) ≡ len → IfOk result (λ read. IfNone read (len ≤ at + 5 + size)) }
    ensures looks { IsTrue (D.tells disk.old) → OnlyReads (D.moment disk.old) (D.moment disk.new) (D.reads disk.old) (D.reads disk.new) (D.images disk.old) (D.images disk.new) }
    ensures later { D.faults disk.old ≤ D.faults disk.new }
    ensures fault { IsErrOf result DiskError.Fault → Rose (D.faults disk.old) (D.faults disk.new) }
    ensures tells { D.tells disk.new ≡ D.tells disk.old }
    ensures takes { D.takes_memory disk.new ≡ D.takes_memory disk.old }
{
    if len <= at + 5 + u64::from(size) {
        return Ok(None);
    }
    let mut bytes = Vec::new(alloc);
    bytes.resize(size as usize, 0)?;
    let read = disk.read_at(at + 5, bytes.as_mut_slice())?;
    if read < bytes.len() {
        return Ok(None);
    }
    Ok(Some(bytes))
}
