// Changes as bytes.
ghost use Rattle.std.specs.Prelude.{◌≡◌, ◌+◌, ◌*◌, ◌≤◌, ◌<◌, ◌^◌, ◌++◌, ◌∷◌, [], ℕ, true, false, length, slice_index_or, IfOk, IfSome, IfNone, OnOk, IsTrue};
ghost use Rattle.std.specs.List.{flat_map};
ghost use Rattle.sp_rect.specs.Plane.{IsRectangle};
ghost use Rattle.sp_rect.specs.Value.{is_value};
ghost use Rattle.sp_rect.specs.declared.record.Record.{Record as RecordOf};
ghost use Rattle.sp_journal.specs.Format.{u32_bytes, u64_bytes, coordinate_bytes, rect_bytes, value_bytes, put_bytes, drop_bytes, set_bytes, change_bytes, commit_bytes, batch_bytes, checkpoint_bytes, IsChange, AllChanges, AllCommits, IsPut};

use byteorder::{BigEndian, ByteOrder};
use sp_list::Sequence;
use sp_plain::{Change, Changes};
use sp_rect::{Record, Records, Rect, Value};
use std::alloc::{AllocError, Global};

/// Adds the number in four bytes.
#[tactic(auto, unfolding(crate::specs::Format::u32_bytes))]
pub fn push_u32(out: &mut Vec<u8>, n: u32) -> Result<(), AllocError>
    ensures { OnOk result (out.new.items ≡ out.old.items ++ u32_bytes n) }
{
    let mut bytes = [0; 4];
    BigEndian::write_u32(&mut bytes, n);
    out.extend_from_slice(&bytes)
}

#[tactic(auto, unfolding(crate::specs::Format::u64_bytes))]
fn push_u64(out: &mut Vec<u8>, n: u64) -> Result<(), AllocError>
    ensures { OnOk result (out.new.items ≡ out.old.items ++ u64_bytes n) }
{
    let mut bytes = [0; 8];
    BigEndian::write_u64(&mut bytes, n);
    out.extend_from_slice(&bytes)
}

#[tactic(auto, unfolding(crate::specs::Format::u32_bytes, crate::specs::Format::coordinate_bytes))]
fn push_coordinate(out: &mut Vec<u8>, z: i32) -> Result<(), AllocError>
    ensures { OnOk result (out.new.items ≡ out.old.items ++ coordinate_bytes z) }
{
    let mut bytes = [0; 4];
    BigEndian::write_i32(&mut bytes, z);
    out.extend_from_slice(&bytes)
}

#[tactic(auto, unfolding(crate::specs::Format::rect_bytes))]
fn push_rect(out: &mut Vec<u8>, rect: &Rect) -> Result<(), AllocError>
    ensures valid { OnOk result (IsRectangle rect.now) }
    ensures bytes { OnOk result (out.new.items ≡ out.old.items ++ rect_bytes rect.now) }
{
    push_coordinate(out, rect.x1())?;
    push_coordinate(out, rect.y1())?;
    push_coordinate(out, rect.x2())?;
    push_coordinate(out, rect.y2())?;
    Ok(())
}

#[tactic(auto, unfolding(crate::specs::Format::value_bytes))]
fn push_value(out: &mut Vec<u8>, value: &Value) -> Result<(), AllocError>
    ensures valid { OnOk result (IsTrue (is_value value.now)) }
    ensures bytes { OnOk result (out.new.items ≡ out.old.items ++ value_bytes value.now) }
{
    let bytes = value.bytes();
    out.push(bytes.len() as u8)?;
    out.extend_from_slice(bytes)?;
    Ok(())
}

#[tactic(auto, unfolding(crate::specs::Format::put_bytes))]
fn push_put(out: &mut Vec<u8>, member: &Record) -> Result<(), AllocError>
    ensures valid { OnOk result (IsPut member.now) }
    ensures bytes { OnOk result (out.new.items ≡ out.old.items ++ put_bytes member.now) }
{
    out.push(1)?;
    push_u64(out, member.id)?;
    push_rect(out, &member.rect)?;
    push_value(out, &member.value)?;
    Ok(())
}

#[tactic(auto, unfolding(crate::specs::Format::drop_bytes))]
fn push_drop(out: &mut Vec<u8>, id: u64) -> Result<(), AllocError>
    ensures { OnOk result (out.new.items ≡ out.old.items ++ drop_bytes id) }
{
    out.push(2)?;
    push_u64(out, id)?;
    Ok(())
}

#[tactic(auto, unfolding(crate::specs::Format::set_bytes))]
fn push_set(out: &mut Vec<u8>, id: u64, value: &Value) -> Result<(), AllocError>
    ensures valid { OnOk result (IsTrue (is_value value.now)) }
    ensures bytes { OnOk result (out.new.items ≡ out.old.items ++ set_bytes id value.now) }
{
    out.push(3)?;
    push_u64(out, id)?;
    push_value(out, value)?;
    Ok(())
}

fn push_change(out: &mut Vec<u8>, change: &Change) -> Result<(), AllocError>
    ensures valid { OnOk result (IsChange change.now) }
    ensures bytes { OnOk result (out.new.items ≡ out.old.items ++ change_bytes change.now) }
{
    match change {
        Change::Put(member) => Ok(push_put(out, member)?),
        Change::Drop(id) => Ok(push_drop(out, *id)?),
        Change::Set(id, value) => Ok(push_set(out, *id, value)?),
    }
}

/// The bytes of a commit, and a closed gate behind them.
pub fn commit(alloc: Global, changes: &Changes) -> Result<Vec<u8>, AllocError>
    requires { length changes.now < 2 ^ 32 }
    ensures valid { OnOk result (AllChanges changes.now) }
    ensures bytes { IfOk result (λ bytes. bytes.items ≡ commit_bytes changes.now ++ 0 ∷ []) }
    ensures size { IfOk result (λ bytes. length bytes.items ≤ 5 + 90 * length changes.now) }
{
    let mut out = Vec::new(alloc);
    push_commit(&mut out, changes)?;
    out.push(0)?;
    Ok(out)
}

#[tactic(auto, unfolding(crate::specs::Format::commit_bytes))]
fn push_commit(out: &mut Vec<u8>, changes: &Changes) -> Result<(), AllocError>
    requires { length changes.now < 2 ^ 32 }
    ensures valid { OnOk result (AllChanges changes.now) }
    ensures bytes { OnOk result (out.new.items ≡ out.old.items ++ commit_bytes changes.now) }
{
    push_u32(out, changes.len() as u32)?;
    for change in changes.as_slice() {
        push_change(out, change)?;
    }
    Ok(())
}

/// The commits of a batch.
pub type Commits = Sequence<Changes>;

/// The payload of a batch of these commits. `None` comes exactly where they are none of a batch: where a
/// commit has no change, or there are 2^32 of something.
pub fn batch(alloc: Global, commits: &Commits) -> Result<Option<Vec<u8>>, AllocError>
    ensures some { IfOk result (λ written. IfSome written (λ bytes. (bytes.items ≡ batch_bytes commits.now) × AllCommits commits.now × (length commits.now < 2 ^ 32))) }
    ensures none { IfOk result (λ written. IfNone written (AllCommits commits.now → length commits.now < 2 ^ 32 → ⊥)) }
{
    if commits.len() > MOST {
        return Ok(None);
    }
    let mut out = Vec::new(alloc);
    push_u32(&mut out, commits.len() as u32)?;
    for commit in commits.as_slice() {
        if !has_changes(commit) {
            return Ok(None);
        }
        push_commit(&mut out, commit)?;
    }
    Ok(Some(out))
}

/// The payload of a checkpoint of these records.
pub fn checkpoint(alloc: Global, records: &Records) -> Result<Vec<u8>, AllocError>
    requires { length records.now < 2 ^ 32 }
    ensures bytes { IfOk result (λ bytes. bytes.items ≡ checkpoint_bytes records.now) }
    ensures valid { OnOk result ((k : ℕ) (d : RecordOf) → k < length records.now → IsPut (slice_index_or records.now k d)) }
{
    let mut out = Vec::new(alloc);
    push_u32(&mut out, 0)?;
    push_u32(&mut out, records.len() as u32)?;
    for member in records.as_slice() {
        push_put(&mut out, member)?;
    }
    Ok(out)
}

// Whether a commit has at least one change, and as many as a count of four bytes holds.
fn has_changes(commit: &Changes) -> bool
    ensures yes { result ≡ true → (1 ≤ length commit.now) × (length commit.now < 2 ^ 32) }
    ensures no { result ≡ false → 1 ≤ length commit.now → length commit.now < 2 ^ 32 → ⊥ }
{
    let count = commit.len();
    1 <= count && count <= MOST
}

// The most that a count of four bytes holds.
const MOST: usize = u32::MAX as usize;
