// Bytes as changes. What is read is what it was written from; that the bytes are nothing else is tested
// by writing it again.
ghost use Rattle.std.specs.Prelude.{◌≡◌, ◌≤◌, ◌<◌, ◌^◌, ◌++◌, ◌∷◌, [], ℕ, ℤ, ◌≤ℤ◌, List, true, length, slice_index_or, Ok, MatchResult, IsTrue};
ghost use Rattle.sp_rect.specs.Plane.{Rectangle, IsRectangle, lowest, highest};
ghost use Rattle.sp_rect.specs.Value.{is_value};
ghost use Rattle.sp_rect.specs.declared.record.Record.{Record as RecordOf};
ghost use Rattle.sp_plain.specs.declared.change.Change.{Change as ChangeOf};
ghost use Rattle.sp_plain.specs.declared.change.Change.TheVariants.{Put, Drop, Set};
ghost use Rattle.std.specs.List.{flat_map};
ghost use Rattle.sp_journal.specs.Format.{u32_bytes, u64_bytes, coordinate_bytes, rect_bytes, value_bytes, put_bytes, change_bytes, commit_bytes, batch_bytes, checkpoint_bytes, IsCheckpoint, IsPut, IsChange, AllChanges, IsCommit, AllCommits, IsBatch};
ghost use Rattle.sp_list.specs.Emptiness.{is_empty};
ghost use Rattle.sp_journal.specs.Reading.{Gives};

use crate::encode::Commits;
use byteorder::{BigEndian, ByteOrder};
use sp_plain::{Change, Changes};
use sp_rect::{Record, Records, Rect, Value};
use std::alloc::{AllocError, AllocFailed, Global};
use std::marker::Model;

/// Why nothing was read.
#[derive(Clone, Copy, PartialEq, Eq)]
pub enum Unread {
    /// The bytes are not of the form.
    Bad,
    Memory,
}

/// The bytes that are left to read.
#[derive(Drop)]
pub struct Cursor<'a> {
    rest: &'a [u8],
}

impl<'a> Model for Cursor<'a> {
    ghost use Rattle.std.specs.Prelude.{List, ℕ};

    ghost Value = { List ℕ };

    ghost view = { λ c. c.rest.now };
}

impl<'a> Cursor<'a> {
    pub fn new(bytes: &'a [u8]) -> Cursor<'a>
        ensures { result ≡ bytes.now }
    {
        Cursor { rest: bytes }
    }

    pub fn is_at_end(&self) -> bool
        ensures { result ≡ is_empty self.now }
    {
        self.rest.is_empty()
    }

    pub fn u8(&mut self) -> Result<u8, Unread>
        ensures { (x : ℕ) (rest : List ℕ) → self.old ≡ x ∷ rest → (result ≡ Ok x) × (self.new ≡ rest) }
    {
        match self.rest {
            [first, rest @ ..] => {
                let first = *first;
                self.rest = rest;
                Ok(first)
            }
            [] => Err(Unread::Bad),
        }
    }

    pub fn bytes(&mut self, len: usize) -> Result<&'a [u8], Unread>
        ensures { (front rest : List ℕ) → length front ≡ len → self.old ≡ front ++ rest → MatchResult result (λ bytes. (bytes.now ≡ front) × (self.new ≡ rest)) (λ e. ⊥) }
    {
        if self.rest.len() < len {
            return Err(Unread::Bad);
        }
        let (front, rest) = self.rest.split_at(len);
        self.rest = rest;
        Ok(front)
    }

    pub fn u32(&mut self) -> Result<u32, Unread>
        ensures { (x : ℕ) (rest : List ℕ) → x < 2 ^ 32 → self.old ≡ u32_bytes x ++ rest → (result ≡ Ok x) × (self.new ≡ rest) }
    {
        if self.rest.len() < 4 {
            return Err(Unread::Bad);
        }
        let x = BigEndian::read_u32(self.rest);
        self.rest = &self.rest[4..];
        Ok(x)
    }

    pub fn u64(&mut self) -> Result<u64, Unread>
        ensures { (x : ℕ) (rest : List ℕ) → x < 2 ^ 64 → self.old ≡ u64_bytes x ++ rest → (result ≡ Ok x) × (self.new ≡ rest) }
    {
        if self.rest.len() < 8 {
            return Err(Unread::Bad);
        }
        let x = BigEndian::read_u64(self.rest);
        self.rest = &self.rest[8..];
        Ok(x)
    }
}

impl From<AllocError> for Unread {
    ghost use Rattle.sp_journal.specs.declared.decode.Unread.TheVariants.{Memory};

    ghost from_gives = { λ _ e. e ≡ Memory };

    fn from(_: AllocError) -> Self {
        Unread::Memory
    }
}

impl<T: Drop> From<AllocFailed<T>> for Unread {
    ghost use Rattle.sp_journal.specs.declared.decode.Unread.TheVariants.{Memory};

    ghost from_gives = { λ _ e. e ≡ Memory };

    fn from(_: AllocFailed<T>) -> Self {
        Unread::Memory
    }
}

fn coordinate(from: &mut Cursor<'_>) -> Result<i64, Unread>
    ensures { (z : ℤ) (rest : List ℕ) → lowest ≤ℤ z → z ≤ℤ highest → from.old ≡ coordinate_bytes z ++ rest → (result ≡ Ok z) × (from.new ≡ rest) }
{
    let bits = from.u32()?;
    Ok(i64::from(bits.cast_signed()))
}

fn value(from: &mut Cursor<'_>) -> Result<Value, Unread>
    ensures { (v rest : List ℕ) → is_value v ≡ true → from.old ≡ value_bytes v ++ rest → Gives v rest from.new result }
{
    let len = from.u8()? as usize;
    let bytes = from.bytes(len)?;
    match Value::new(bytes) {
        Ok(value) => Ok(value),
        Err(_) => Err(Unread::Bad),
    }
}

fn rect(from: &mut Cursor<'_>) -> Result<Rect, Unread>
    ensures { (r : Rectangle) (rest : List ℕ) → IsRectangle r → from.old ≡ rect_bytes r ++ rest → (result ≡ Ok r) × (from.new ≡ rest) }
{
    let x1 = coordinate(from)?;
    let y1 = coordinate(from)?;
    let x2 = coordinate(from)?;
    let y2 = coordinate(from)?;
    match Rect::new(x1, y1, x2, y2) {
        Ok(rect) => Ok(rect),
        Err(_) => Err(Unread::Bad),
    }
}

// What stands behind the byte that says put.
fn put(from: &mut Cursor<'_>) -> Result<Record, Unread>
    ensures { (r : RecordOf) (rest : List ℕ) → IsPut r → from.old ≡ u64_bytes r.id ++ (rect_bytes r.rect ++ (value_bytes r.value ++ rest)) → Gives r rest from.new result }
{
    let id = from.u64()?;
    let rect = rect(from)?;
    let value = value(from)?;
    Ok(Record { id, rect, value })
}

fn put_change(from: &mut Cursor<'_>) -> Result<Change, Unread>
    ensures { (r : RecordOf) (rest : List ℕ) → IsPut r → from.old ≡ u64_bytes r.id ++ (rect_bytes r.rect ++ (value_bytes r.value ++ rest)) → Gives (Put r) rest from.new result }
{
    let record = put(from)?;
    Ok(Change::Put(record))
}

// What stands behind the byte that says drop.
fn drop_change(from: &mut Cursor<'_>) -> Result<Change, Unread>
    ensures { (id : ℕ) (rest : List ℕ) → id < 2 ^ 64 → from.old ≡ u64_bytes id ++ rest → Gives (Drop id) rest from.new result }
{
    let id = from.u64()?;
    Ok(Change::Drop(id))
}

// What stands behind the byte that says set.
fn set_change(from: &mut Cursor<'_>) -> Result<Change, Unread>
    ensures { (id : ℕ) (v rest : List ℕ) → id < 2 ^ 64 → is_value v ≡ true → from.old ≡ u64_bytes id ++ (value_bytes v ++ rest) → Gives (Set id v) rest from.new result }
{
    let id = from.u64()?;
    let value = value(from)?;
    Ok(Change::Set(id, value))
}

fn change(from: &mut Cursor<'_>) -> Result<Change, Unread>
    ensures { (c : ChangeOf) (rest : List ℕ) → IsChange c → from.old ≡ change_bytes c ++ rest → Gives c rest from.new result }
{
    match from.u8()? {
        1 => put_change(from),
        2 => drop_change(from),
        3 => set_change(from),
        _ => Err(Unread::Bad),
    }
}

// That many changes.
fn changes(alloc: Global, from: &mut Cursor<'_>, count: u32) -> Result<Changes, Unread>
    ensures { (cs : List ChangeOf) (rest : List ℕ) → AllChanges cs → length cs ≡ count → from.old ≡ flat_map change_bytes cs ++ rest → Gives cs rest from.new result }
{
    let mut read = Changes::new(alloc);
    for i in 0..count {
        read.push(change(from)?)?;
    }
    Ok(read)
}

fn commit(alloc: Global, from: &mut Cursor<'_>) -> Result<Changes, Unread>
    ensures { (cs : List ChangeOf) (rest : List ℕ) → IsCommit cs → from.old ≡ commit_bytes cs ++ rest → Gives cs rest from.new result }
{
    let count = from.u32()?;
    Ok(changes(alloc, from, count)?)
}

// That many commits.
fn commits(alloc: Global, from: &mut Cursor<'_>, count: u32) -> Result<Commits, Unread>
    ensures { (cs : List (List ChangeOf)) (rest : List ℕ) → AllCommits cs → length cs ≡ count → from.old ≡ flat_map commit_bytes cs ++ rest → Gives cs rest from.new result }
{
    let mut read = Commits::new(alloc);
    for i in 0..count {
        read.push(commit(alloc, from)?)?;
    }
    Ok(read)
}

/// The commits that a payload was written from, if it is a batch. What it gives of other bytes is not said.
pub fn batch(alloc: Global, payload: &[u8]) -> Result<Commits, Unread>
    ensures { (q : List (List ChangeOf)) → IsBatch q → payload.now ≡ batch_bytes q → MatchResult result (λ y. y ≡ q) (λ e. e ≡ Unread.Memory) }
{
    let mut from = Cursor::new(payload);
    let count = from.u32()?;
    Ok(commits(alloc, &mut from, count)?)
}

// A record, behind the byte that says put.
fn record(from: &mut Cursor<'_>) -> Result<Record, Unread>
    ensures { (r : RecordOf) (rest : List ℕ) → IsPut r → from.old ≡ put_bytes r ++ rest → Gives r rest from.new result }
{
    match from.u8()? {
        1 => put(from),
        _ => Err(Unread::Bad),
    }
}

// That many records.
fn records(alloc: Global, from: &mut Cursor<'_>, count: u32) -> Result<Records, Unread>
    ensures { (rs : List RecordOf) (rest : List ℕ) → ((k : ℕ) (d : RecordOf) → k < length rs → IsPut (slice_index_or rs k d)) → length rs ≡ count → from.old ≡ flat_map put_bytes rs ++ rest → Gives rs rest from.new result }
{
    let mut read = Records::new(alloc);
    for i in 0..count {
        read.push(record(from)?)?;
    }
    Ok(read)
}

/// The records that a payload was written from, if it is a checkpoint. What it gives of other bytes is
/// not said.
pub fn checkpoint(alloc: Global, payload: &[u8]) -> Result<Records, Unread>
    ensures { (rs : List RecordOf) → IsCheckpoint rs → payload.now ≡ checkpoint_bytes rs → MatchResult result (λ y. y ≡ rs) (λ e. e ≡ Unread.Memory) }
{
    let mut from = Cursor::new(payload);
    let _zero = from.u32()?;
    let count = from.u32()?;
    Ok(records(alloc, &mut from, count)?)
}
