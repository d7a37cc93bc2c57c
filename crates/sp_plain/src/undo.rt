// Lists of changes, all or none. Each change that is made notes what takes it back: an id, or what it
// took out of the list. So nothing is copied for that, and taking back needs no memory.
ghost use Rattle.std.specs.Prelude.{◌≡◌, ℕ, ◌+◌, List, ◌≤◌, ◌<◌, ◌∷◌, [], false, Some, None, is_some, IfSome, IfOk, OnErr, if◌then◌else◌, length, reverse};
ghost use Rattle.std.specs.Vec.{vec_len, vec_capacity};
ghost use Rattle.sp_rect.specs.Store.{IsOrdered};
ghost use Rattle.sp_plain.specs.Taking.{can_change, left_by, taken};
ghost use Rattle.sp_plain.specs.Undoing.{CanMake, CanMakeAll, left_by_all, LeadsBack};

use crate::{Change, keep};
use sp_rect::{Record, Value};
use std::alloc::{AllocError, Global};

// The most records that changes may make.
const MOST_RECORDS: usize = 1048576;

// Makes all changes, or none. The answer is whether they can be made.
pub(crate) fn make_all(
    alloc: Global,
    records: &mut Vec<Record>,
    changes: &[Change],
) -> Result<bool, AllocError>
    requires { IsOrdered records.old.items }
    ensures made { IfOk result (λ made. taken changes.now records.old.items ≡ (if made then Some records.new.items else None)) }
    ensures refused { IfOk result (λ made. made ≡ false → records.new.items ≡ records.old.items) }
    ensures err { OnErr result (records.new.items ≡ records.old.items) }
    ensures ordered { IsOrdered records.new.items }
{
    let mut undo = Vec::with_capacity(alloc, changes.len())?;
    let outcome = make_each(alloc, records, changes, &mut undo);
    if !matches!(outcome, Ok(true)) {
        take_back(records, undo);
    }
    outcome
}

// Makes the changes up to the first that can't be made, and notes how to take them back.
fn make_each(
    alloc: Global,
    records: &mut Vec<Record>,
    changes: &[Change],
    undo: &mut Vec<Change>,
) -> Result<bool, AllocError>
    requires ordered { IsOrdered records.old.items }
    requires empty { undo.old.items ≡ [] }
    requires room { length changes.now ≤ vec_capacity undo.old }
    ensures made { IfOk result (λ made. taken changes.now records.old.items ≡ (if made then Some records.new.items else None)) }
    ensures back { LeadsBack (vec_capacity records.new) (reverse undo.new.items) records.new.items records.old.items }
    ensures ordered { IsOrdered records.new.items }
{
    for change in changes {
        if !make(alloc, records, change, undo)? {
            return Ok(false);
        }
    }
    Ok(true)
}

// Makes one change, if it can be made, and notes how to take it back.
fn make(
    alloc: Global,
    records: &mut Vec<Record>,
    change: &Change,
    undo: &mut Vec<Change>,
) -> Result<bool, AllocError>
    requires ordered { IsOrdered records.old.items }
    requires room { vec_len undo.old < vec_capacity undo.old }
    ensures can { IfOk result (λ made. made ≡ can_change change.now records.old.items) }
    ensures after { IfOk result (λ made. records.new.items ≡ (if made then left_by change.now records.old.items else records.old.items)) }
    ensures back { (old : List Record) → LeadsBack (vec_capacity records.old) (reverse undo.old.items) records.old.items old → LeadsBack (vec_capacity records.new) (reverse undo.new.items) records.new.items old }
    ensures ordered { IsOrdered records.new.items }
    ensures noted { vec_len undo.new ≤ vec_len undo.old + 1 }
    ensures room { vec_capacity undo.new ≡ vec_capacity undo.old }
{
    match change_one(alloc, records, change)? {
        Some(back) => {
            undo.push_reserved(back);
            Ok(true)
        }
        None => Ok(false),
    }
}

// Makes one change, if it can be made. What is given takes it back.
fn change_one(
    alloc: Global,
    records: &mut Vec<Record>,
    change: &Change,
) -> Result<Option<Change>, AllocError>
    requires { IsOrdered records.old.items }
    ensures can { IfOk result (λ back. is_some back ≡ can_change change.now records.old.items) }
    ensures after { IfOk result (λ back. records.new.items ≡ (if is_some back then left_by change.now records.old.items else records.old.items)) }
    ensures back { IfOk result (λ back. IfSome back (λ c. LeadsBack (vec_capacity records.new) (c ∷ []) records.new.items records.old.items)) }
    ensures err { OnErr result (records.new.items ≡ records.old.items) }
    ensures room { vec_capacity records.old ≤ vec_capacity records.new }
{
    match change {
        Change::Put(member) => put(alloc, records, member),
        Change::Drop(id) => Ok(take_out(records, *id)),
        Change::Set(id, value) => set(alloc, records, *id, value),
    }
}

fn put(
    alloc: Global,
    records: &mut Vec<Record>,
    member: &Record,
) -> Result<Option<Change>, AllocError>
    requires { IsOrdered records.old.items }
    ensures can { IfOk result (λ back. is_some back ≡ can_change (Change.Put member.now) records.old.items) }
    ensures after { IfOk result (λ back. records.new.items ≡ (if is_some back then left_by (Change.Put member.now) records.old.items else records.old.items)) }
    ensures back { IfOk result (λ back. IfSome back (λ c. LeadsBack (vec_capacity records.new) (c ∷ []) records.new.items records.old.items)) }
    ensures err { OnErr result (records.new.items ≡ records.old.items) }
    ensures room { vec_capacity records.old ≤ vec_capacity records.new }
{
    if records.len() < MOST_RECORDS && keep::add(alloc, records, member)? {
        Ok(Some(Change::Drop(member.id)))
    } else {
        Ok(None)
    }
}

fn take_out(records: &mut Vec<Record>, id: u64) -> Option<Change>
    requires { IsOrdered records.old.items }
    ensures can { is_some result ≡ can_change (Change.Drop id) records.old.items }
    ensures after { records.new.items ≡ (if is_some result then left_by (Change.Drop id) records.old.items else records.old.items) }
    ensures back { IfSome result (λ c. LeadsBack (vec_capacity records.new) (c ∷ []) records.new.items records.old.items) }
    ensures room { vec_capacity records.old ≤ vec_capacity records.new }
{
    match keep::remove(records, id) {
        Some(member) => Some(Change::Put(member)),
        None => None,
    }
}

fn set(
    alloc: Global,
    records: &mut Vec<Record>,
    id: u64,
    value: &Value,
) -> Result<Option<Change>, AllocError>
    requires { IsOrdered records.old.items }
    ensures can { IfOk result (λ back. is_some back ≡ can_change (Change.Set id value.now) records.old.items) }
    ensures after { IfOk result (λ back. records.new.items ≡ (if is_some back then left_by (Change.Set id value.now) records.old.items else records.old.items)) }
    ensures back { IfOk result (λ back. IfSome back (λ c. LeadsBack (vec_capacity records.new) (c ∷ []) records.new.items records.old.items)) }
    ensures err { OnErr result (records.new.items ≡ records.old.items) }
    ensures room { vec_capacity records.old ≤ vec_capacity records.new }
{
    match keep::set(alloc, records, id, value)? {
        Some(had) => Ok(Some(Change::Set(id, had))),
        None => Ok(None),
    }
}

// Takes changes back, the last one first.
fn take_back(records: &mut Vec<Record>, mut undo: Vec<Change>)
    requires ordered { IsOrdered records.old.items }
    requires can { CanMakeAll (vec_capacity records.old) (reverse undo.items) records.old.items }
    ensures { records.new.items ≡ left_by_all (reverse undo.items) records.old.items }
{
    while let Some(change) = undo.pop() {
        make_back(records, change);
    }
}

// Makes a change that can be made without memory.
fn make_back(records: &mut Vec<Record>, change: Change)
    requires ordered { IsOrdered records.old.items }
    requires can { CanMake (vec_capacity records.old) change records.old.items }
    ensures after { records.new.items ≡ left_by change records.old.items }
    ensures ordered { IsOrdered records.new.items }
    ensures room { vec_capacity records.new ≡ vec_capacity records.old }
{
    match change {
        Change::Put(member) => keep::put_back(records, member),
        Change::Drop(id) => {
            let _member = keep::remove(records, id);
        }
        Change::Set(id, value) => keep::set_back(records, id, value),
    }
}
