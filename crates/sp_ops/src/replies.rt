// What an operation replies.
ghost use Rattle.std.specs.Prelude.{◌≡◌, ◌++◌, ◌∷◌, [], ℕ, List, IfOk, OnOk, map};
ghost use Rattle.sp_rect.specs.declared.record.Record.{Record as AnyRecord};
ghost use Rattle.sp_rect.specs.declared.operation.Op.TheVariants.{Get};
ghost use Rattle.sp_rect.specs.Store.{reply_to};
ghost use Rattle.sp_node.specs.Marks.{drafted};
ghost use Rattle.sp_txn.specs.Visible.{record_for};
ghost use Rattle.sp_ops.specs.Seen.{entries_at, AreRecordsAt};

use sp_list::Duplicate;
use sp_node::{Draft, Entry, Tree};
use sp_rect::{Op, Record, Records, Reply, Value};
use std::alloc::{AllocError, Global};

// The value that the transaction sees: a draft of its own, or else the entry's.
fn value_for(alloc: Global, entry: &Entry, txn: u64) -> Result<Value, AllocError>
    ensures { IfOk result (λ value. value ≡ drafted txn entry.now.marks.draft entry.now.value) }
{
    match &entry.marks.draft {
        Draft::Of(by, draft) if *by == txn => draft.copy(alloc),
        _ => entry.value.copy(alloc),
    }
}

// The record that the transaction sees in the entry.
fn record_for(alloc: Global, entry: &Entry, txn: u64) -> Result<Record, AllocError>
    ensures { IfOk result (λ r. r ≡ record_for txn entry.now) }
{
    let value = value_for(alloc, entry, txn)?;
    Ok(Record {
        id: entry.id,
        rect: entry.rect,
        value,
    })
}

// Adds the record that the transaction sees in the entry of this number.
fn push_record(
    alloc: Global,
    tree: &Tree,
    number: u64,
    txn: u64,
    records: &mut Vec<Record>,
) -> Result<(), AllocError>
    ensures { OnOk result (records.new.items ≡ records.old.items ++ map (record_for txn) (entries_at tree.now.table.nodes (number ∷ []))) }
{
    if let Some(entry) = tree.entry(number) {
        records.push(record_for(alloc, entry, txn)?)?;
    }
    Ok(())
}

// The records that the transaction sees in the entries of these numbers.
fn records_at(
    alloc: Global,
    tree: &Tree,
    numbers: &[u64],
    txn: u64,
) -> Result<Vec<Record>, AllocError>
    ensures { IfOk result (λ v. v.items ≡ map (record_for txn) (entries_at tree.now.table.nodes numbers.now)) }
{
    let mut records = Vec::new(alloc);
    for number in numbers {
        push_record(alloc, tree, *number, txn, &mut records)?;
    }
    Ok(records)
}

// The same by ascending id.
fn records_by_id(
    alloc: Global,
    tree: &Tree,
    numbers: &[u64],
    txn: u64,
) -> Result<Vec<Record>, AllocError>
    ensures { IfOk result (λ v. (found : List AnyRecord) → AreRecordsAt tree.now.table.nodes txn numbers.now found → v.items ≡ found) }
{
    let mut records = records_at(alloc, tree, numbers, txn)?;
    records.sort_by_key(|r| r.id)?;
    Ok(records)
}

// The reply to a get, which finds one record at most.
fn got(records: Vec<Record>) -> Reply
    ensures { (id : ℕ) → result ≡ reply_to (Get id) records.items }
{
    match records.into_iter().next() {
        Some(record) => Reply::Rec(record),
        None => Reply::Absent,
    }
}

/// The reply, by the entries of the numbers.
pub(crate) fn reply(
    alloc: Global,
    tree: &Tree,
    op: &Op,
    numbers: &[u64],
    txn: u64,
) -> Result<Reply, AllocError>
    ensures { IfOk result (λ reply. (found : List AnyRecord) → AreRecordsAt tree.now.table.nodes txn numbers.now found → reply ≡ reply_to op.now found) }
{
    let none = numbers.is_empty();
    match op {
        Op::Put(_) if none => Ok(Reply::Done),
        Op::Put(_) => Ok(Reply::Exists),
        Op::Drop(_) | Op::Set(_, _) if none => Ok(Reply::Absent),
        Op::Drop(_) | Op::Set(_, _) => Ok(Reply::Done),
        Op::Get(_) => Ok(got(records_by_id(alloc, tree, numbers, txn)?)),
        Op::Find(_) => {
            let records = records_by_id(alloc, tree, numbers, txn)?;
            Ok(Reply::Found(Records::from_vec(records)))
        }
        Op::Fill(_, _) | Op::Clear(_) => Ok(Reply::Count(numbers.len() as u64)),
    }
}
