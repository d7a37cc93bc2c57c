// Payloads of entries, read exactly: what is accepted is what is written, byte for byte.
ghost use Rattle.std.specs.Prelude.{◌≡◌, ◌≢◌, ◌<◌, ◌^◌, ◌+◌, ℕ, true, false, List, length, slice_index_or, IfOk, IsErrOf};
ghost use Rattle.sp_plain.specs.declared.change.Change.{Change};
ghost use Rattle.sp_journal.specs.Format.{batch_bytes, checkpoint_bytes, AllCommits, IsBatch, IsCheckpoint};
ghost use Rattle.sp_rect.specs.declared.record.Record.{Record as RecordOf};

use crate::decode::{self, Unread};
use crate::encode::{self, Commits};
use sp_rect::{Record, Records};
use std::alloc::{AllocError, Global};

/// The commits of a batch. `Bad` comes exactly where the payload is none. It takes as much memory as the
/// payload warrants.
pub fn read_batch(alloc: Global, payload: &[u8]) -> Result<Commits, Unread>
    requires { length payload.now < 2 ^ 32 }
    ensures whole { IfOk result (λ q. IsBatch q × (payload.now ≡ batch_bytes q)) }
    ensures only { (q : List (List Change)) → IsBatch q → payload.now ≡ batch_bytes q → IfOk result (λ read. read ≡ q) }
    ensures refused { IsErrOf result Unread.Bad → (q : List (List Change)) → IsBatch q → payload.now ≢ batch_bytes q }
{
    let commits = decode::batch(alloc, payload)?;
    if commits.is_empty() || !is_written(alloc, &commits, payload)? {
        return Err(Unread::Bad);
    }
    Ok(commits)
}

// Whether the payload is what these commits are written as.
fn is_written(alloc: Global, commits: &Commits, payload: &[u8]) -> Result<bool, AllocError>
    ensures yes { IfOk result (λ is. is ≡ true → AllCommits commits.now × (length commits.now < 2 ^ 32) × (payload.now ≡ batch_bytes commits.now)) }
    ensures no { IfOk result (λ is. is ≡ false → IsBatch commits.now → payload.now ≢ batch_bytes commits.now) }
{
    match encode::batch(alloc, commits)? {
        Some(bytes) => Ok(bytes.as_slice() == payload),
        None => Ok(false),
    }
}

/// The records of a checkpoint. `Bad` comes exactly where the payload is none. It takes as much memory as
/// the payload warrants.
pub fn read_checkpoint(alloc: Global, payload: &[u8]) -> Result<Records, Unread>
    ensures whole { IfOk result (λ rs. IsCheckpoint rs × (payload.now ≡ checkpoint_bytes rs)) }
    ensures only { (rs : List RecordOf) → IsCheckpoint rs → payload.now ≡ checkpoint_bytes rs → IfOk result (λ read. read ≡ rs) }
    ensures refused { IsErrOf result Unread.Bad → (rs : List RecordOf) → IsCheckpoint rs → payload.now ≢ checkpoint_bytes rs }
{
    let records = decode::checkpoint(alloc, payload)?;
    if records.len() > MOST_RECORDS || !ascend(records.as_slice()) {
        return Err(Unread::Bad);
    }
    let written = encode::checkpoint(alloc, &records)?;
    if written.as_slice() != payload {
        return Err(Unread::Bad);
    }
    Ok(records)
}

// The most records that a checkpoint has.
const MOST_RECORDS: usize = 1048576;

// Whether each id is below the next.
fn ascend(records: &[Record]) -> bool
    ensures yes { result ≡ true → (k : ℕ) (d : RecordOf) → k + 1 < length records.now → (slice_index_or records.now k d).id < (slice_index_or records.now (k + 1) d).id }
    ensures no { result ≡ false → ((k : ℕ) (d : RecordOf) → k + 1 < length records.now → (slice_index_or records.now k d).id < (slice_index_or records.now (k + 1) d).id) → ⊥ }
{
    for i in 1..records.len() {
        if records[i - 1].id >= records[i].id {
            return false;
        }
    }
    true
}
