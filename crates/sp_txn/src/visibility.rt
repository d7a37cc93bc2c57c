// Which entries a transaction sees, and what it sees of them.
ghost use Rattle.std.specs.Prelude.{◌≡◌, IfOk};
ghost use Rattle.sp_node.specs.Marks.{drafted};
ghost use Rattle.sp_txn.specs.Visible.{is_visible, record_for};

use sp_list::Duplicate;
use sp_node::{Draft, Ended, Entry, Made};
use sp_rect::{Record, Value};
use std::alloc::{AllocError, Global};

/// Whether the transaction sees the entry: it was made by the transaction or is committed, and was not
/// ended by the transaction and is not dead. Takes no memory.
pub fn visible(entry: &Entry, txn: u64) -> bool
    ensures { result ≡ is_visible txn entry.now }
{
    let there = entry.marks.made == Made::Committed || entry.marks.made.is_by(txn);
    let gone = entry.marks.ended.is_by(txn) || entry.marks.ended == Ended::Done;
    there & !gone
}

// The value that the transaction sees: its own draft, and else the entry's value.
pub(crate) fn value_for(alloc: Global, entry: &Entry, txn: u64) -> Result<Value, AllocError>
    ensures { IfOk result (λ value. value ≡ drafted txn entry.now.marks.draft entry.now.value) }
{
    match &entry.marks.draft {
        Draft::Of(by, value) if *by == txn => value.copy(alloc),
        _ => entry.value.copy(alloc),
    }
}

/// The record of the entry as the transaction sees it: its own draft stands for the value. Costs a copy of
/// the value.
pub fn record_for(alloc: Global, entry: &Entry, txn: u64) -> Result<Record, AllocError>
    ensures { IfOk result (λ r. r ≡ record_for txn entry.now) }
{
    let value = value_for(alloc, entry, txn)?;
    Ok(Record {
        id: entry.id,
        rect: entry.rect,
        value,
    })
}
