// Which leaf has an entry, and what is known of it under its id and under transactions.
ghost use Rattle.std.specs.Prelude.{◌≡◌, ◌+◌, ◌≤◌, ℕ, IfSome, Some, None, cond, length, nat_eq, OnOk, IsSome, true};
ghost use Rattle.std.specs.HashMap.{get, spare};
ghost use Rattle.std.specs.Option.{option_copied};
ghost use Rattle.sp_node.specs.Index.{has_number, entry_in, AreAllKnown};
ghost use Rattle.sp_node.specs.Moving.{unmoved, is_leaving, arrived};
ghost use Rattle.sp_node.specs.Plan.{entry_count, AreNoted, ArePartsNoted};
ghost use Rattle.sp_node.specs.Marks.{is_made_by, is_ended_by, is_draft_of};
ghost use Rattle.sp_node.specs.Known.{is_known, AreKnown, IsNoted, AreMarksNoted};

use crate::marks::{Draft, Ended, Made, Marks};
use crate::node::Entry;
use crate::pair_index::PairIndex;
use crate::plan::Part;
use crate::table::NodeTable;
use std::alloc::AllocError;
use std::collections::HashMap;

// How many entries in front of the two lists have the same numbers and ids: these stay where they are.
fn unmoved(before: &[Entry], after: &[Entry]) -> usize
    ensures count { result ≡ unmoved before.now after.now }
    ensures within { (result ≤ length before.now) × (result ≤ length after.now) }
{
    for (i, entry) in before.iter().enumerate() {
        match after.get(i) {
            Some(other) if entry.number == other.number && entry.id == other.id => {}
            _ => return i,
        }
    }
    before.len()
}

// Forgets the leaf of each entry.
fn forget_entries(leaves: &mut HashMap<u64, u64>, entries: &[Entry])
    ensures gone { (q : ℕ) → get nat_eq leaves.new q ≡ cond (has_number entries.now q) None (get nat_eq leaves.old q) }
    ensures room { spare leaves.old ≤ spare leaves.new }
{
    'back: for i in (0..entries.len()).rev() {
        let _ = leaves.remove(&entries[i].number);
    }
}

// Notes the leaf of each entry.
fn note_entries(leaves: &mut HashMap<u64, u64>, entries: &[Entry], leaf: u64)
    requires { length entries.now ≤ spare leaves.old }
    ensures noted { (q : ℕ) → get nat_eq leaves.new q ≡ cond (has_number entries.now q) (Some leaf) (get nat_eq leaves.old q) }
    ensures room { spare leaves.old ≤ spare leaves.new + length entries.now }
{
    'back: for i in (0..entries.len()).rev() {
        let _ = leaves.insert(entries[i].number, leaf);
    }
}

/// Forgets the entries that stood in the leaves of the parts' numbers, but for those that stay where they are.
pub(crate) fn forget(leaves: &mut HashMap<u64, u64>, nodes: &NodeTable, parts: &[Part])
    ensures gone { (q : ℕ) → get nat_eq leaves.new q ≡ cond (is_leaving nodes.now.nodes parts.now q) None (get nat_eq leaves.old q) }
    ensures room { spare leaves.old ≤ spare leaves.new }
{
    'back: for i in (0..parts.len()).rev() {
        let part = &parts[i];
        let before = nodes.entries(part.number());
        let stay = unmoved(before, part.entries());
        forget_entries(leaves, &before[stay..]);
    }
}

/// Notes the entries of the leaves among the parts, but for those that stay where they are.
pub(crate) fn note(leaves: &mut HashMap<u64, u64>, nodes: &NodeTable, parts: &[Part])
    requires { entry_count parts.now ≤ spare leaves.old }
    ensures { (q : ℕ) → get nat_eq leaves.new q ≡ arrived nodes.now.nodes parts.now q (get nat_eq leaves.old q) }
{
    'back: for i in (0..parts.len()).rev() {
        let part = &parts[i];
        let after = part.entries();
        let stay = unmoved(nodes.entries(part.number()), after);
        note_entries(leaves, &after[stay..], part.number());
    }
}

/// How many entries the parts have, or None where the count does not fit.
pub(crate) fn count_entries(parts: &[Part]) -> Option<usize>
    ensures { IfSome result (λ count. count ≡ entry_count parts.now) }
{
    let mut count = 0usize;
    'back: for i in (0..parts.len()).rev() {
        count = count.checked_add(parts[i].entries().len())?;
    }
    Some(count)
}

/// The first entry of this number.
pub(crate) fn entry_at(entries: &[Entry], number: u64) -> Option<&Entry>
    ensures { option_copied result ≡ entry_in entries.now number }
{
    for entry in entries {
        if entry.number == number {
            return Some(entry);
        }
    }
    None
}

// Notes the ids of the entries.
fn note_ids_of(ids: &mut PairIndex, entries: &[Entry]) -> Result<(), AllocError>
    ensures noted { OnOk result (AreKnown ids.new entries.now) }
    ensures kept { (i n : ℕ) → is_known ids.old i n ≡ true → is_known ids.new i n ≡ true }
{
    'back: for i in (0..entries.len()).rev() {
        let entry = &entries[i];
        ids.note(entry.id, entry.number)?;
    }
    Ok(())
}

/// Notes the ids of the entries of the leaves among the parts. Those of entries that stay where they are are known.
pub(crate) fn note_ids(
    ids: &mut PairIndex,
    nodes: &NodeTable,
    parts: &[Part],
) -> Result<(), AllocError>
    requires { AreAllKnown ids.old nodes.now.nodes }
    ensures noted { OnOk result (AreNoted ids.new parts.now) }
    ensures kept { (i n : ℕ) → is_known ids.old i n ≡ true → is_known ids.new i n ≡ true }
{
    'back: for i in (0..parts.len()).rev() {
        let part = &parts[i];
        let after = part.entries();
        let stay = unmoved(nodes.entries(part.number()), after);
        note_ids_of(ids, &after[stay..])?;
    }
    Ok(())
}

// Forgets the ids of those entries that have no leaf.
fn forget_ids_of(ids: &mut PairIndex, leaves: &HashMap<u64, u64>, entries: &[Entry])
    ensures { (i n : ℕ) → IsSome (get nat_eq leaves.now n) → is_known ids.new i n ≡ is_known ids.old i n }
{
    for entry in entries {
        if !leaves.contains_key(&entry.number) {
            ids.forget(entry.id, entry.number);
        }
    }
}

/// Forgets the ids of those entries that have no leaf, of those that left the leaves of the parts' numbers.
pub(crate) fn forget_ids(
    ids: &mut PairIndex,
    leaves: &HashMap<u64, u64>,
    nodes: &NodeTable,
    parts: &[Part],
)
    ensures { (i n : ℕ) → IsSome (get nat_eq leaves.now n) → is_known ids.new i n ≡ is_known ids.old i n }
{
    for part in parts {
        let before = nodes.entries(part.number());
        let stay = unmoved(before, part.entries());
        forget_ids_of(ids, leaves, &before[stay..]);
    }
}

// Notes the entry under the transaction that made it.
fn note_made(noted: &mut PairIndex, made: Made, number: u64) -> Result<(), AllocError>
    ensures noted { OnOk result ((txn : ℕ) → is_made_by txn made ≡ true → is_known noted.new txn number ≡ true) }
    ensures kept { (i n : ℕ) → is_known noted.old i n ≡ true → is_known noted.new i n ≡ true }
{
    match made {
        Made::By(txn) => noted.note(txn, number),
        Made::Committed => Ok(()),
    }
}

// Notes the entry under the transaction that ended it.
fn note_ended(noted: &mut PairIndex, ended: Ended, number: u64) -> Result<(), AllocError>
    ensures noted { OnOk result ((txn : ℕ) → is_ended_by txn ended ≡ true → is_known noted.new txn number ≡ true) }
    ensures kept { (i n : ℕ) → is_known noted.old i n ≡ true → is_known noted.new i n ≡ true }
{
    match ended {
        Ended::By(txn) => noted.note(txn, number),
        Ended::Nobody | Ended::Done => Ok(()),
    }
}

// Notes the entry under the transaction of its draft.
fn note_draft(noted: &mut PairIndex, draft: &Draft, number: u64) -> Result<(), AllocError>
    ensures noted { OnOk result ((txn : ℕ) → is_draft_of txn draft.now ≡ true → is_known noted.new txn number ≡ true) }
    ensures kept { (i n : ℕ) → is_known noted.old i n ≡ true → is_known noted.new i n ≡ true }
{
    match draft {
        Draft::Of(txn, _) => noted.note(*txn, number),
        Draft::None => Ok(()),
    }
}

/// Notes an entry under the transactions that its marks name; those of a dead one name none.
pub(crate) fn note_marks(
    noted: &mut PairIndex,
    marks: &Marks,
    number: u64,
) -> Result<(), AllocError>
    ensures noted { OnOk result (IsNoted noted.new number marks.now) }
    ensures kept { (i n : ℕ) → is_known noted.old i n ≡ true → is_known noted.new i n ≡ true }
{
    if marks.ended == Ended::Done {
        return Ok(());
    }
    note_made(noted, marks.made, number)?;
    note_ended(noted, marks.ended, number)?;
    note_draft(noted, &marks.draft, number)
}

// Notes the entries under the transactions whose marks they bear.
fn note_marks_of(noted: &mut PairIndex, entries: &[Entry]) -> Result<(), AllocError>
    ensures noted { OnOk result (AreMarksNoted noted.new entries.now) }
    ensures kept { (i n : ℕ) → is_known noted.old i n ≡ true → is_known noted.new i n ≡ true }
{
    'back: for i in (0..entries.len()).rev() {
        let entry = &entries[i];
        note_marks(noted, &entry.marks, entry.number)?;
    }
    Ok(())
}

/// Notes the entries of the leaves among the parts under the transactions whose marks they bear.
pub(crate) fn note_marks_in(noted: &mut PairIndex, parts: &[Part]) -> Result<(), AllocError>
    ensures noted { OnOk result (ArePartsNoted noted.new parts.now) }
    ensures kept { (i n : ℕ) → is_known noted.old i n ≡ true → is_known noted.new i n ≡ true }
{
    'back: for i in (0..parts.len()).rev() {
        note_marks_of(noted, parts[i].entries())?;
    }
    Ok(())
}
