// Records by ascending id in a vector: where one stands, and how the list is kept.
ghost use Rattle.std.specs.Prelude.{◌≡◌, ℕ, ◌+◌, List, ◌≤◌, ◌<◌, ◌∷◌, [], not, is_some, IfSome, IfNone, IfOk, IfErr, OnOk, OnErr, OnSome, if◌then◌else◌, length, replicate};
ghost use Rattle.std.specs.Vec.{vec_capacity};
ghost use Rattle.sp_rect.specs.Store.{Id, Area, IsOrdered, within, without, written, with_value, with_record};
ghost use Rattle.sp_plain.specs.Place.{place, StandsAt};
ghost use Rattle.sp_plain.specs.Taking.{is_there};

use sp_rect::{Duplicate, Record, Records, Rect, Value};
use std::alloc::{AllocError, Global};
use std::mem;

// How many records stand in front of the id's place. Costs the logarithm of their number.
fn place_of(records: &[Record], id: u64) -> usize
    requires { IsOrdered records.now }
    ensures place { result ≡ place id records.now }
    ensures bound { result ≤ length records.now }
{
    records.partition_point(|r| r.id < id)
}

// Where the record of the id stands, or where it would stand.
pub(crate) fn search(records: &[Record], id: u64) -> Result<usize, usize>
    requires { IsOrdered records.now }
    ensures found { IfOk result (StandsAt id records.now) }
    ensures free { IfErr result (λ _. within (Id id) records.now ≡ []) }
    ensures place { IfErr result (λ at. at ≡ place id records.now) }
    ensures bound { IfErr result (λ at. at ≤ length records.now) }
{
    let at = place_of(records, id);
    if at < records.len() && records[at].id == id {
        Ok(at)
    } else {
        Err(at)
    }
}

// A copy of the record of the id.
pub(crate) fn get(alloc: Global, records: &[Record], id: u64) -> Result<Option<Record>, AllocError>
    requires { IsOrdered records.now }
    ensures some { IfOk result (λ got. IfSome got (λ r. within (Id id) records.now ≡ r ∷ [])) }
    ensures none { IfOk result (λ got. IfNone got (within (Id id) records.now ≡ [])) }
{
    match search(records, id) {
        Ok(at) => Ok(Some(records[at].copy(alloc)?)),
        Err(_) => Ok(None),
    }
}

// Adds a copy of the record, unless its id is there.
pub(crate) fn add(
    alloc: Global,
    records: &mut Vec<Record>,
    member: &Record,
) -> Result<bool, AllocError>
    requires { IsOrdered records.old.items }
    ensures added { IfOk result (λ added. added ≡ not (is_there member.now.id records.old.items)) }
    ensures after { IfOk result (λ added. records.new.items ≡ (if added then with_record member.now records.old.items else records.old.items)) }
    ensures err { OnErr result (records.new.items ≡ records.old.items) }
    ensures room { vec_capacity records.old ≤ vec_capacity records.new }
{
    match search(records, member.id) {
        Ok(_) => Ok(false),
        Err(at) => {
            let copied = member.copy(alloc)?;
            records.insert(at, copied)?;
            Ok(true)
        }
    }
}

// Removes the record of the id, and hands it out.
pub(crate) fn remove(records: &mut Vec<Record>, id: u64) -> Option<Record>
    requires { IsOrdered records.old.items }
    ensures some { IfSome result (λ r. within (Id id) records.old.items ≡ r ∷ []) }
    ensures none { IfNone result (within (Id id) records.old.items ≡ []) }
    ensures after { records.new.items ≡ without (Id id) records.old.items }
    ensures spare { OnSome result (length records.new.items < vec_capacity records.new) }
    ensures room { vec_capacity records.new ≡ vec_capacity records.old }
{
    match search(records, id) {
        Ok(at) => Some(records.remove(at)),
        Err(_) => None,
    }
}

// Gives the record at the place the value, and hands out the one that it had.
fn exchange(records: &mut Vec<Record>, at: usize, value: Value) -> Value
    requires within { at < length records.old.items }
    requires ordered { IsOrdered records.old.items }
    ensures after { (id : ℕ) → StandsAt id records.old.items at → records.new.items ≡ written (Id id) value records.old.items }
    ensures back { (id : ℕ) → StandsAt id records.old.items at → records.old.items ≡ written (Id id) result records.new.items }
    ensures room { vec_capacity records.new ≡ vec_capacity records.old }
{
    let held = &mut records[at];
    mem::replace(&mut held.value, value)
}

// Gives the record of the id a copy of the value, and hands out the value that it had.
pub(crate) fn set(
    alloc: Global,
    records: &mut Vec<Record>,
    id: u64,
    value: &Value,
) -> Result<Option<Value>, AllocError>
    requires { IsOrdered records.old.items }
    ensures there { IfOk result (λ had. is_some had ≡ is_there id records.old.items) }
    ensures after { OnOk result (records.new.items ≡ written (Id id) value.now records.old.items) }
    ensures back { IfOk result (λ had. IfSome had (λ v. records.old.items ≡ written (Id id) v records.new.items)) }
    ensures err { OnErr result (records.new.items ≡ records.old.items) }
    ensures room { vec_capacity records.new ≡ vec_capacity records.old }
{
    match search(records, id) {
        Ok(at) => {
            let copied = value.copy(alloc)?;
            Ok(Some(exchange(records, at, copied)))
        }
        Err(_) => Ok(None),
    }
}

// Gives the value to the record of the id, which is there.
pub(crate) fn set_back(records: &mut Vec<Record>, id: u64, value: Value)
    requires { IsOrdered records.old.items }
    ensures after { records.new.items ≡ written (Id id) value records.old.items }
    ensures room { vec_capacity records.new ≡ vec_capacity records.old }
{
    if let Ok(at) = search(records, id) {
        let _had = exchange(records, at, value);
    }
}

// Puts the record, whose id is not there, into the room that is left.
pub(crate) fn put_back(records: &mut Vec<Record>, member: Record)
    requires ordered { IsOrdered records.old.items }
    requires free { within (Id member.id) records.old.items ≡ [] }
    requires room { length records.old.items < vec_capacity records.old }
    ensures after { records.new.items ≡ with_record member records.old.items }
    ensures room { vec_capacity records.new ≡ vec_capacity records.old }
{
    let at = place_of(records, member.id);
    match records.insert(at, member) {
        Ok(()) => {}
        Err(_) => unreachable!(),
    }
}

// The records that meet the rectangle.
pub(crate) fn meeting(alloc: Global, records: &[Record], rect: &Rect) -> Result<Records, AllocError>
    ensures { IfOk result (λ found. found ≡ within (Area rect.now) records.now) }
{
    let mut found = Records::new(alloc);
    for record in records {
        if record.rect.meets(rect) {
            found.push(record.copy(alloc)?)?;
        }
    }
    Ok(found)
}

// Removes the records that meet the rectangle, and tells how many they were.
pub(crate) fn clear(records: &mut Vec<Record>, rect: &Rect) -> u64
    ensures count { result ≡ length (within (Area rect.now) records.old.items) }
    ensures after { records.new.items ≡ without (Area rect.now) records.old.items }
{
    let before = records.len();
    records.retain(|r| !r.rect.meets(rect));
    (before - records.len()) as u64
}

// Gives each record that meets the rectangle a copy of the value, and tells how many they were. The
// copies are made first.
pub(crate) fn fill(
    alloc: Global,
    records: &mut Vec<Record>,
    rect: &Rect,
    value: &Value,
) -> Result<u64, AllocError>
    ensures count { IfOk result (λ count. count ≡ length (within (Area rect.now) records.old.items)) }
    ensures after { OnOk result (records.new.items ≡ written (Area rect.now) value.now records.old.items) }
    ensures err { OnErr result (records.new.items ≡ records.old.items) }
{
    let count = count_meeting(records, rect);
    let values = copies(alloc, value, count)?;
    hand_out(records, rect, values);
    Ok(count as u64)
}

// How many records meet the rectangle.
fn count_meeting(records: &[Record], rect: &Rect) -> usize
    ensures { result ≡ length (within (Area rect.now) records.now) }
{
    records.iter().filter(|r| r.rect.meets(rect)).count()
}

// That many copies of the value.
fn copies(alloc: Global, value: &Value, count: usize) -> Result<Vec<Value>, AllocError>
    ensures { IfOk result (λ values. values.items ≡ replicate count value.now) }
{
    let mut values = Vec::with_capacity(alloc, count)?;
    for _ in 0..count {
        values.push(value.copy(alloc)?)?;
    }
    Ok(values)
}

// Gives each record that meets the rectangle one of the values.
fn hand_out(records: &mut Vec<Record>, rect: &Rect, mut values: Vec<Value>)
    ensures { (v : List ℕ) → values.items ≡ replicate (length (within (Area rect.now) records.old.items)) v → records.new.items ≡ written (Area rect.now) v records.old.items }
{
    for record in records.iter_mut() {
        give(record, rect, &mut values);
    }
}

// Gives the record the last of the values, if it meets the rectangle.
fn give(record: &mut Record, rect: &Rect, values: &mut Vec<Value>)
    ensures { (v : List ℕ) (n : ℕ) → values.old.items ≡ replicate (length (within (Area rect.now) («record».old ∷ [])) + n) v → («record».new ≡ with_value (Area rect.now) v «record».old) × (values.new.items ≡ replicate n v) }
{
    if record.rect.meets(rect)
        && let Some(value) = values.pop()
    {
        record.value = value;
    }
}
