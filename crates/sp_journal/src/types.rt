// What is recovered, and what calls answer.
use sp_disk::DiskError;
use sp_rect::Records;
use std::alloc::AllocError;
use thiserror::Error;

/// What a journal holds: the records after all its entries, and how many batches and commits it has
/// behind its checkpoint, or from its start where it has none.
#[derive(Drop)]
pub struct Recovered {
    pub records: Records,
    pub batches: u64,
    pub commits: u64,
}

/// Why a journal could not be read.
#[derive(Debug, Drop, Error)]
pub enum JournalError {
    /// More than 17 bytes are there, and the first 16 are no header.
    #[error("not a journal")]
    Foreign,
    /// The gate at this offset is open, and no whole entry that can be applied stands behind it.
    #[error("damaged at {0}")]
    Damaged(u64),
    /// The generation is the last that there is, so the journal can't be compacted any more.
    #[error("worn")]
    Worn,
    /// The disk failed.
    #[error("the disk failed")]
    Fault,
    #[error("out of memory")]
    Memory,
}

/// What one step of writing did.
#[derive(Clone, Copy, Debug, PartialEq, Eq)]
pub enum Call {
    /// No batch is in flight and none is queued.
    Nothing,
    /// One call of the disk was made, and the batch in flight is not yet settled.
    Wrote,
    /// The last call of the disk was made: the batch, of so many commits, stays.
    Durable(u64),
    /// The disk failed while the entry at this offset was written. Nothing more is written.
    Fault(u64),
    /// The disk wants memory. Nothing has changed.
    Memory,
}

impl From<AllocError> for JournalError {
    ghost use Rattle.std.specs.Prelude.{◌≡◌};
    ghost use Rattle.sp_journal.specs.declared.types.JournalError.TheVariants.{Memory};

    ghost from_gives = { λ _ e. e ≡ Memory };

    fn from(_: AllocError) -> Self {
        JournalError::Memory
    }
}

impl From<DiskError> for JournalError {
    ghost use Rattle.std.specs.Prelude.{◌≡◌};
    ghost use Rattle.sp_journal.specs.Faulting.{of_disk};

    ghost from_gives = { λ e gave. gave ≡ of_disk e };

    fn from(error: DiskError) -> Self {
        match error {
            DiskError::Fault => JournalError::Fault,
            DiskError::Memory => JournalError::Memory,
        }
    }
}
