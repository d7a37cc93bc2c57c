// Operations on records by ascending id.
ghost use Rattle.std.specs.Prelude.{◌≡◌, IfOk, is_ok, if◌then◌else◌};
ghost use Rattle.sp_rect.specs.Store.{IsOrdered, replied, after};

use crate::keep;
use sp_rect::{Op, Record, Rect, Reply, Value};
use std::alloc::{AllocError, Global};

// Runs the operation. Where there is no memory the records are as they were.
pub(crate) fn run(alloc: Global, records: &mut Vec<Record>, op: &Op) -> Result<Reply, AllocError>
    requires { IsOrdered records.old.items }
    ensures reply { IfOk result (λ reply. reply ≡ replied op.now records.old.items) }
    ensures after { records.new.items ≡ (if is_ok result then after op.now records.old.items else records.old.items) }
{
    match op {
        Op::Put(member) => put(alloc, records, member),
        Op::Drop(id) => Ok(take_out(records, *id)),
        Op::Set(id, value) => set(alloc, records, *id, value),
        Op::Get(id) => get(alloc, records, *id),
        Op::Find(rect) => Ok(Reply::Found(keep::meeting(alloc, records, rect)?)),
        Op::Fill(rect, value) => Ok(Reply::Count(keep::fill(alloc, records, rect, value)?)),
        Op::Clear(rect) => Ok(Reply::Count(keep::clear(records, rect))),
    }
}

fn put(alloc: Global, records: &mut Vec<Record>, member: &Record) -> Result<Reply, AllocError>
    requires { IsOrdered records.old.items }
    ensures reply { IfOk result (λ reply. reply ≡ replied (Op.Put member.now) records.old.items) }
    ensures after { records.new.items ≡ (if is_ok result then after (Op.Put member.now) records.old.items else records.old.items) }
{
    if keep::add(alloc, records, member)? {
        Ok(Reply::Done)
    } else {
        Ok(Reply::Exists)
    }
}

fn take_out(records: &mut Vec<Record>, id: u64) -> Reply
    requires { IsOrdered records.old.items }
    ensures reply { result ≡ replied (Op.Drop id) records.old.items }
    ensures after { records.new.items ≡ after (Op.Drop id) records.old.items }
{
    match keep::remove(records, id) {
        Some(_) => Reply::Done,
        None => Reply::Absent,
    }
}

fn set(
    alloc: Global,
    records: &mut Vec<Record>,
    id: u64,
    value: &Value,
) -> Result<Reply, AllocError>
    requires { IsOrdered records.old.items }
    ensures reply { IfOk result (λ reply. reply ≡ replied (Op.Set id value.now) records.old.items) }
    ensures after { records.new.items ≡ (if is_ok result then after (Op.Set id value.now) records.old.items else records.old.items) }
{
    match keep::set(alloc, records, id, value)? {
        Some(_) => Ok(Reply::Done),
        None => Ok(Reply::Absent),
    }
}

fn get(alloc: Global, records: &[Record], id: u64) -> Result<Reply, AllocError>
    requires { IsOrdered records.now }
    ensures { IfOk result (λ reply. reply ≡ replied (Op.Get id) records.now) }
{
    match keep::get(alloc, records, id)? {
        Some(found) => Ok(Reply::Rec(found)),
        None => Ok(Reply::Absent),
    }
}
