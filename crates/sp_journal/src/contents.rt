// What the payloads of entries do to the records.
ghost use Rattle.std.specs.Prelude.{◌≡◌, ◌+◌, ◌<◌, ◌≤◌, ◌^◌, [], ℕ, true, false, List, length, Some, None, IfOk, IsErrOf, if◌then◌else◌};
ghost use Rattle.sp_plain.specs.Taking.{most_records, taken};
ghost use Rattle.sp_journal.specs.Recovery.{all_changes, Enters};
ghost use Rattle.sp_journal.specs.declared.types.Recovered.{Recovered as RecoveredOf};
ghost use Rattle.sp_journal.specs.Format.{IsCheckpoint};

use crate::decode::Unread;
use crate::encode::Commits;
use crate::payload::{read_batch, read_checkpoint};
use sp_plain::{Change, Changes, Plain};
use sp_rect::Records;
use std::alloc::{AllocError, Global};

// Makes the changes, all or none, and tells whether they can be made.
fn take(store: &mut Plain, changes: &Changes) -> Result<bool, AllocError>
    ensures made { IfOk result (λ made. taken changes.now store.old ≡ (if made then Some store.new else None)) }
    ensures small { length store.old ≤ most_records → length store.new ≤ most_records }
{
    store.take(changes)
}

// Makes the changes of the commits, one after the other, and tells whether they can be made.
fn make_all(store: &mut Plain, commits: &Commits) -> Result<bool, AllocError>
    ensures made { IfOk result (λ made. taken (all_changes commits.now) store.old ≡ (if made then Some store.new else None)) }
    ensures small { length store.old ≤ most_records → length store.new ≤ most_records }
{
    for commit in commits.as_slice() {
        if !take(store, commit)? {
            return Ok(false);
        }
    }
    Ok(true)
}

/// Makes the changes of a batch of that payload. `Bad` comes where it is none, or they can't be made.
pub fn make_batch(alloc: Global, store: &mut Plain, payload: &[u8]) -> Result<u64, Unread>
    requires { length payload.now < 2 ^ 32 }
    ensures made { (generation : ℕ) (front : List ℕ) (found : RecoveredOf) → found.records ≡ store.old → (2 ≤ generation → 1 ≤ length front) → IfOk result (λ count. Enters generation front found payload.now (record { records = store.new; batches = found.batches + 1; commits = found.commits + count })) }
    ensures few { IfOk result (λ count. count ≤ length payload.now) }
    ensures small { length store.old ≤ most_records → length store.new ≤ most_records }
    ensures refused { (generation : ℕ) (front : List ℕ) (found after : RecoveredOf) → found.records ≡ store.old → (2 ≤ generation → 1 ≤ length front) → IsErrOf result Unread.Bad → Enters generation front found payload.now after → ⊥ }
{
    let commits = read_batch(alloc, payload)?;
    if !make_all(store, &commits)? {
        return Err(Unread::Bad);
    }
    Ok(commits.len() as u64)
}

// The records as changes that put them.
fn puts(alloc: Global, records: Records) -> Result<Changes, AllocError>
    ensures { IfOk result (λ changes. IsCheckpoint records → taken changes [] ≡ Some records) }
{
    let mut changes = Changes::new(alloc);
    for record in records.into_vec() {
        changes.push(Change::Put(record))?;
    }
    Ok(changes)
}

/// The store with the records of a checkpoint of that payload.
pub fn load(alloc: Global, payload: &[u8]) -> Result<Plain, Unread>
    ensures small { IfOk result (λ store. length store ≤ most_records) }
    ensures loaded { (generation : ℕ) (found : RecoveredOf) → 2 ≤ generation → IfOk result (λ store. Enters generation [] found payload.now (record { records = store; batches = 0; commits = 0 })) }
    ensures refused { (generation : ℕ) (found after : RecoveredOf) → 2 ≤ generation → IsErrOf result Unread.Bad → Enters generation [] found payload.now after → ⊥ }
{
    let changes = puts(alloc, read_checkpoint(alloc, payload)?)?;
    let mut store = Plain::new(alloc);
    if !take(&mut store, &changes)? {
        return Err(Unread::Bad);
    }
    Ok(store)
}
