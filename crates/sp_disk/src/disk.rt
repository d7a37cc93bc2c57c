// A file on a disk that may stop at any moment.
ghost use Rattle.std.specs.Prelude.{◌≡◌, ◌+◌, ◌-◌, ◌^◌, ◌<◌, ◌≤◌, ◌↔◌, min, ℕ, Bool, IsTrue, List, ◌++◌, length, take, drop, IfOk, OnOk, OnErr, IsErrOf};
ghost use Rattle.sp_disk.specs.declared.disk.DiskError.TheVariants.{Memory};
ghost use Rattle.sp_disk.specs.Faults.{HasCause};
ghost use Rattle.sp_disk.specs.Files.{put, Torn, Shortened};
ghost use Rattle.sp_disk.specs.Moments.{Passes};

use std::alloc::{AllocError, AllocFailed};
use thiserror::Error;

/// Why a call of a disk was refused.
#[derive(Clone, Copy, Debug, PartialEq, Eq, Error)]
pub enum DiskError {
    /// The disk failed. Its count of faults has risen.
    #[error("the disk failed")]
    Fault,
    /// There was no memory, and the call has changed nothing.
    #[error("out of memory")]
    Memory,
}

impl From<AllocError> for DiskError {
    ghost from_gives = { λ _ e. e ≡ Memory };

    fn from(_: AllocError) -> Self {
        DiskError::Memory
    }
}

impl<T: Drop> From<AllocFailed<T>> for DiskError {
    ghost from_gives = { λ _ e. e ≡ Memory };

    fn from(_: AllocFailed<T>) -> Self {
        DiskError::Memory
    }
}

/// A file on a disk that may stop at any moment.
///
/// Between two syncs a stop may leave any bytes where something was written and behind the old end, and
/// of what was cut any part; all other bytes stay. After a sync that answers `Ok` it leaves what a read
/// gives. A write or a cut that answers [`DiskError::Fault`] counts as made in this, and a sync that
/// does settles nothing.
///
/// What is said of the bytes is said of a disk that tells them. One in memory does. Of a real file
/// nobody knows them.
pub trait Disk: Send + Drop {
    /// Whether the disk tells its bytes. No call changes it.
    ghost tells: { Self → Bool };

    /// Whether the disk takes memory. No call changes it, and one that takes none never answers
    /// `Memory`.
    ghost takes_memory: { Self → Bool };

    /// How often the disk has failed.
    ghost faults: { Self → ℕ };

    /// The bytes that a read gives.
    ghost reads: { Self → List ℕ };

    /// The present moment: a number that never falls.
    ghost moment: { Self → ℕ };

    /// The files that a stop at that moment may leave, or might have left.
    ghost images: { Self → ℕ → List ℕ → Type 0 };

    /// The number of bytes, which is below 2^63.
    fn len(&mut self) -> Result<u64, DiskError>
        ensures small { IfOk result (λ n. n < 2 ^ 63) }
        ensures length { IsTrue (tells self.old) → IfOk result (λ n. n ≡ length (reads self.old)) }
        ensures bytes { IsTrue (tells self.old) → reads self.new ≡ reads self.old }
        ensures stop { IsTrue (tells self.old) → (file : List ℕ) → images self.new (moment self.new) file ↔ images self.old (moment self.old) file }
        ensures time { Passes (moment self.old) (moment self.new) (images self.old) (images self.new) }
        ensures cause { HasCause (takes_memory self.old) (faults self.old) (faults self.new) result }
        ensures refused { IsErrOf result Memory → self.new ≡ self.old }
        ensures tells { tells self.new ≡ tells self.old }
        ensures takes { takes_memory self.new ≡ takes_memory self.old };

    /// Fills the buffer with the bytes from `at` on, as far as the file reaches, and gives their number.
    fn read_at(&mut self, at: u64, buf: &mut [u8]) -> Result<usize, DiskError>
        ensures small { IfOk result (λ n. n ≤ length buf.old) }
        ensures count { IsTrue (tells self.old) → IfOk result (λ n. n ≡ min (length buf.old) (length (reads self.old) - at)) }
        ensures filled { IsTrue (tells self.old) → IfOk result (λ n. buf.new ≡ take n (drop at (reads self.old)) ++ drop n buf.old) }
        ensures bytes { IsTrue (tells self.old) → reads self.new ≡ reads self.old }
        ensures stop { IsTrue (tells self.old) → (file : List ℕ) → images self.new (moment self.new) file ↔ images self.old (moment self.old) file }
        ensures time { Passes (moment self.old) (moment self.new) (images self.old) (images self.new) }
        ensures cause { HasCause (takes_memory self.old) (faults self.old) (faults self.new) result }
        ensures refused { IsErrOf result Memory → self.new ≡ self.old }
        ensures tells { tells self.new ≡ tells self.old }
        ensures takes { takes_memory self.new ≡ takes_memory self.old };

    /// Writes the bytes from `at` on, over what is there and past the end. A write that would reach
    /// 2^63 is refused, and changes nothing.
    fn write_at(&mut self, at: u64, bytes: &[u8]) -> Result<(), DiskError>
        ensures short { OnOk result (at + length bytes.now < 2 ^ 63) }
        ensures written { IsTrue (tells self.old) → OnOk result (reads self.new ≡ put (reads self.old) at bytes.now) }
        ensures at_most { IsTrue (tells self.old) → (file : List ℕ) → images self.new (moment self.new) file → (was : List ℕ) × images self.old (moment self.old) was × Torn at (length bytes.now) was file }
        ensures at_least { IsTrue (tells self.old) → at + length bytes.now < 2 ^ 63 → (IsErrOf result Memory → ⊥) → (was file : List ℕ) → images self.old (moment self.old) was → Torn at (length bytes.now) was file → images self.new (moment self.new) file }
        ensures too_long { IsTrue (tells self.old) → 2 ^ 63 ≤ at + length bytes.now → (reads self.new ≡ reads self.old) × ((file : List ℕ) → images self.new (moment self.new) file ↔ images self.old (moment self.old) file) }
        ensures time { Passes (moment self.old) (moment self.new) (images self.old) (images self.new) }
        ensures cause { HasCause (takes_memory self.old) (faults self.old) (faults self.new) result }
        ensures refused { IsErrOf result Memory → self.new ≡ self.old }
        ensures tells { tells self.new ≡ tells self.old }
        ensures takes { takes_memory self.new ≡ takes_memory self.old };

    /// Makes the file no longer than that. A shorter one stays as it is.
    fn cut(&mut self, len: u64) -> Result<(), DiskError>
        ensures cut { IsTrue (tells self.old) → OnOk result (reads self.new ≡ take len (reads self.old)) }
        ensures at_most { IsTrue (tells self.old) → (file : List ℕ) → images self.new (moment self.new) file → (was : List ℕ) × images self.old (moment self.old) was × Shortened len was file }
        ensures at_least { IsTrue (tells self.old) → (IsErrOf result Memory → ⊥) → (was file : List ℕ) → images self.old (moment self.old) was → Shortened len was file → images self.new (moment self.new) file }
        ensures time { Passes (moment self.old) (moment self.new) (images self.old) (images self.new) }
        ensures cause { HasCause (takes_memory self.old) (faults self.old) (faults self.new) result }
        ensures refused { IsErrOf result Memory → self.new ≡ self.old }
        ensures tells { tells self.new ≡ tells self.old }
        ensures takes { takes_memory self.new ≡ takes_memory self.old };

    /// After it, where it answers `Ok`, a stop leaves what a read gives. Otherwise it settles nothing.
    fn sync(&mut self) -> Result<(), DiskError>
        ensures bytes { IsTrue (tells self.old) → reads self.new ≡ reads self.old }
        ensures settled { IsTrue (tells self.old) → OnOk result ((file : List ℕ) → images self.new (moment self.new) file → file ≡ reads self.old) }
        ensures at_most { IsTrue (tells self.old) → (file : List ℕ) → images self.new (moment self.new) file → images self.old (moment self.old) file }
        ensures nothing { IsTrue (tells self.old) → OnErr result ((file : List ℕ) → images self.old (moment self.old) file → images self.new (moment self.new) file) }
        ensures time { Passes (moment self.old) (moment self.new) (images self.old) (images self.new) }
        ensures cause { HasCause (takes_memory self.old) (faults self.old) (faults self.new) result }
        ensures refused { IsErrOf result Memory → self.new ≡ self.old }
        ensures tells { tells self.new ≡ tells self.old }
        ensures takes { takes_memory self.new ≡ takes_memory self.old };

    /// The disk as it reads is one of the files that a stop may leave.
    ghost as_it_reads: { (d : Self) → IsTrue (tells d) → images d (moment d) (reads d) };
}
