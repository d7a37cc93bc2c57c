// Where disks are found by their names.
ghost use Rattle.std.specs.Prelude.{◌≡◌, ◌≢◌, ◌≤◌, ◌++◌, ◌∷◌, [], ℕ, Bool, IsTrue, List, IfOk, OnOk, OnErr, IsErrOf};
ghost use Rattle.sp_disk.specs.declared.shelf.ShelfFault.TheVariants.{Fault, Memory};
ghost use Rattle.sp_disk.specs.Faults.{Rose};

use crate::Disk;
use std::alloc::{AllocError, AllocFailed};
use thiserror::Error;

/// Why a shelf handed out no disk.
#[derive(Clone, Copy, Debug, PartialEq, Eq, Error)]
pub enum ShelfFault {
    /// The disk of that name could not be opened or made. The shelf's count of faults has risen.
    #[error("the disk could not be opened")]
    Fault,
    #[error("out of memory")]
    Memory,
}

impl From<AllocError> for ShelfFault {
    ghost from_gives = { λ _ e. e ≡ Memory };

    fn from(_: AllocError) -> Self {
        ShelfFault::Memory
    }
}

impl<T: Drop> From<AllocFailed<T>> for ShelfFault {
    ghost from_gives = { λ _ e. e ≡ Memory };

    fn from(_: AllocFailed<T>) -> Self {
        ShelfFault::Memory
    }
}

/// Hands out disks by their names.
pub trait Shelf: Drop {
    type Disk: Disk;

    /// Whether the shelf tells what it holds. No call changes it.
    ghost tells: { Self → Bool };

    /// The bytes that it holds under a name, none where there is nothing.
    ghost holds: { Self → List ℕ → List ℕ };

    /// The names that it was asked for, in order.
    ghost asked: { Self → List (List ℕ) };

    /// How often it has failed.
    ghost faults: { Self → ℕ };

    /// Hands out the disk of that name, and makes an empty one where there is none.
    fn fetch(&mut self, name: &str) -> Result<Self::Disk, ShelfFault>
        ensures unfailed { IfOk result (λ disk. Self.Disk.faults disk ≡ 0) }
        ensures disk { IsTrue (tells self.old) → IfOk result (λ disk. IsTrue (Self.Disk.tells disk) × (Self.Disk.reads disk ≡ holds self.old name.now)) }
        ensures others { IsTrue (tells self.old) → OnOk result ((other : List ℕ) → other ≢ name.now → holds self.new other ≡ holds self.old other) }
        ensures refused { IsTrue (tells self.old) → OnErr result ((other : List ℕ) → holds self.new other ≡ holds self.old other) }
        ensures asked { OnOk result (asked self.new ≡ asked self.old ++ name.now ∷ []) }
        ensures asked_in_vain { IsErrOf result Fault → asked self.new ≡ asked self.old ++ name.now ∷ [] }
        ensures nothing { IsErrOf result Memory → asked self.new ≡ asked self.old }
        ensures later { faults self.old ≤ faults self.new }
        ensures fault { IsErrOf result Fault → Rose (faults self.old) (faults self.new) }
        ensures tells { tells self.new ≡ tells self.old };
}
