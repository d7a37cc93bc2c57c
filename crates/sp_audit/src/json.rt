// JSON of what an audit keeps. Lists are told member by member.
ghost use Rattle.std.specs.Prelude.{◌≡◌, ◌∷◌, [], IfOk, map};
ghost use Rattle.serde_json.specs.Data.{Data, string};
ghost use Rattle.serde_json.specs.View.{view};
ghost use Rattle.sp_audit.specs.Line.{listed, record_told, op_told, reply_told, pair_told, commit_told, edge_told, ended_told, mode_word, kind_word, number_of_name};

use crate::ended::Ended;
use crate::row::Row;
use serde_json::{Value, json};
use sp_locks::{Mode, Name};
use sp_rect::{Answered, Commit, Op, Record, Reply};
use sp_waits::Edge;
use std::alloc::{AllocError, Global};

// What has a JSON value.
pub(crate) trait ToJson {
    // That value.
    ghost told: { Self → Data };

    fn to_json(&self, alloc: Global) -> Result<Value, AllocError>
        ensures { IfOk result (λ v. view v ≡ told self.now) };
}

// The array of the members' values.
pub(crate) fn list<T: ToJson>(alloc: Global, members: &[T]) -> Result<Value, AllocError>
    ensures { IfOk result (λ v. view v ≡ listed (map T.told members.now)) }
{
    let mut values = Vec::with_capacity(alloc, members.len())?;
    for member in members {
        values.push(member.to_json(alloc)?)?;
    }
    Ok(Value::Array(values))
}

// The string of a record's value.
fn text_of(alloc: Global, value: &sp_rect::Value) -> Result<Value, AllocError>
    ensures { IfOk result (λ v. view v ≡ string value.now) }
{
    match str::from_utf8(value.bytes()) {
        Ok(text) => Value::try_from_str(alloc, text),
        Err(_) => unreachable!(),
    }
}

impl ToJson for Record {
    ghost told = { record_told };

    fn to_json(&self, alloc: Global) -> Result<Value, AllocError> {
        let text = text_of(alloc, &self.value)?;
        let row = Row::new(alloc)
            .whole(self.id)?
            .corners(&self.rect)?
            .with(text)?;
        Ok(row.into_value())
    }
}

impl ToJson for Op {
    ghost told = { op_told };

    fn to_json(&self, alloc: Global) -> Result<Value, AllocError> {
        match self {
            Op::Put(record) => {
                let text = text_of(alloc, &record.value)?;
                let row = Row::new(alloc)
                    .word(alloc, "put")?
                    .whole(record.id)?
                    .corners(&record.rect)?
                    .with(text)?;
                Ok(row.into_value())
            }
            Op::Drop(id) => {
                let row = Row::new(alloc).word(alloc, "drop")?.whole(*id)?;
                Ok(row.into_value())
            }
            Op::Set(id, value) => {
                let text = text_of(alloc, value)?;
                let row = Row::new(alloc).word(alloc, "set")?.whole(*id)?.with(text)?;
                Ok(row.into_value())
            }
            Op::Get(id) => {
                let row = Row::new(alloc).word(alloc, "get")?.whole(*id)?;
                Ok(row.into_value())
            }
            Op::Find(rect) => {
                let row = Row::new(alloc).word(alloc, "find")?.corners(rect)?;
                Ok(row.into_value())
            }
            Op::Fill(rect, value) => {
                let text = text_of(alloc, value)?;
                let row = Row::new(alloc)
                    .word(alloc, "fill")?
                    .corners(rect)?
                    .with(text)?;
                Ok(row.into_value())
            }
            Op::Clear(rect) => {
                let row = Row::new(alloc).word(alloc, "clear")?.corners(rect)?;
                Ok(row.into_value())
            }
        }
    }
}

impl ToJson for Reply {
    ghost told = { reply_told };

    fn to_json(&self, alloc: Global) -> Result<Value, AllocError> {
        match self {
            Reply::Done => word_alone(alloc, "done"),
            Reply::Exists => word_alone(alloc, "exists"),
            Reply::Absent => word_alone(alloc, "absent"),
            Reply::Rec(record) => {
                let record = record.to_json(alloc)?;
                word_and(alloc, "rec", record)
            }
            Reply::Found(records) => {
                let records = list(alloc, records.as_slice())?;
                word_and(alloc, "found", records)
            }
            Reply::Count(count) => word_and(alloc, "count", Value::from(*count)),
        }
    }
}

fn word_alone(alloc: Global, word: &str) -> Result<Value, AllocError>
    ensures { IfOk result (λ v. view v ≡ listed (string word.now ∷ [])) }
{
    let row = Row::new(alloc).word(alloc, word)?;
    Ok(row.into_value())
}

fn word_and(alloc: Global, word: &str, value: Value) -> Result<Value, AllocError>
    ensures { IfOk result (λ v. view v ≡ listed (string word.now ∷ view value ∷ [])) }
{
    let row = Row::new(alloc).word(alloc, word)?.with(value)?;
    Ok(row.into_value())
}

impl ToJson for Answered {
    ghost told = { pair_told };

    fn to_json(&self, alloc: Global) -> Result<Value, AllocError> {
        let op = self.op.to_json(alloc)?;
        let reply = self.reply.to_json(alloc)?;
        let row = Row::new(alloc).with(op)?.with(reply)?;
        Ok(row.into_value())
    }
}

impl ToJson for Commit {
    ghost told = { commit_told };

    fn to_json(&self, alloc: Global) -> Result<Value, AllocError> {
        let ops = list(alloc, self.ops.as_slice())?;
        json!(in alloc; {
            "ops": ops,
            "place": self.place,
            "seen": self.seen,
            "session": self.session,
            "txn": self.txn
        })
    }
}

fn mode_word(mode: Mode) -> &'static str
    ensures { result.now ≡ mode_word mode }
{
    match mode {
        Mode::IS => "IS",
        Mode::IX => "IX",
        Mode::S => "S",
        Mode::SIX => "SIX",
        Mode::X => "X",
    }
}

fn kind_word(name: Name) -> &'static str
    ensures { result.now ≡ kind_word name }
{
    match name {
        Name::Granule(_) => "granule",
        Name::Object(_) => "object",
    }
}

fn number_of(name: Name) -> u64
    ensures { result ≡ number_of_name name }
{
    match name {
        Name::Granule(number) | Name::Object(number) => number,
    }
}

impl ToJson for Edge {
    ghost told = { edge_told };

    fn to_json(&self, alloc: Global) -> Result<Value, AllocError> {
        let state = if self.waiting { "waiting" } else { "held" };
        let row = Row::new(alloc)
            .whole(u64::from(self.from))?
            .whole(u64::from(self.to))?
            .word(alloc, kind_word(self.name))?
            .whole(number_of(self.name))?
            .word(alloc, mode_word(self.wanted))?
            .word(alloc, state)?
            .word(alloc, mode_word(self.has))?;
        Ok(row.into_value())
    }
}

impl ToJson for Ended {
    ghost told = { ended_told };

    fn to_json(&self, alloc: Global) -> Result<Value, AllocError> {
        let cycle = list(alloc, self.cycle.as_slice())?;
        json!(in alloc; {"cycle": cycle, "txn": self.txn})
    }
}
