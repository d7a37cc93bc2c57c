// Checkpoints as they are written into a file.
ghost use Rattle.std.specs.Prelude.{◌≡◌, [], ◌∷◌, ◌++◌, IfOk, OnOk};
ghost use Rattle.sp_rect.specs.Store.{IsOrdered};
ghost use Rattle.sp_journal.specs.Format.{body_bytes, checkpoint_bytes, IsCheckpoint};

use sp_journal::checkpoint;
use sp_rect::Records;
use std::alloc::{AllocError, Global};

// The most records that a file holds.
const MOST_RECORDS: usize = 1048576;

/// What stands behind the first gate where the first entry is the checkpoint of these records: the length
/// of the payload, the payload, and a closed gate. Records that no file holds are refused as if there
/// were no memory for them.
#[tactic(auto, unfolding(sp_journal::specs::Format::u32_bytes, sp_journal::specs::Format::body_bytes))]
pub fn checkpoint_body(alloc: Global, records: &Records) -> Result<Vec<u8>, AllocError>
    ensures bytes { IfOk result (λ body. body.items ≡ body_bytes (checkpoint_bytes records.now) ++ 0 ∷ []) }
    ensures valid { IsOrdered records.now → OnOk result (IsCheckpoint records.now) }
{
    if records.len() > MOST_RECORDS {
        return Err(AllocError);
    }
    let payload = checkpoint(alloc, records)?;
    let Ok(size) = u32::try_from(payload.len()) else {
        return Err(AllocError);
    };
    let mut body = size.to_be_bytes().to_vec(alloc)?;
    body.extend_from_slice(payload.as_slice())?;
    body.push(0)?;
    Ok(body)
}
