// Operations in words.
ghost use Rattle.std.specs.Prelude.{◌≡◌, map, bytes_eq};
ghost use Rattle.sp_text.specs.Operations.{ReadsAs, found, verbs, id_in, rectangle_in, value_in, record_in, spelled, operation_of};

use crate::numbers::{coordinate, number_up_to};
use crate::{Bad, Flaw};
use sp_rect::{Op, Record, Rect, Value};

/// The word of an operation.
#[derive(Clone, Copy, Debug, PartialEq, Eq)]
pub enum Verb {
    Put,
    Drop,
    Set,
    Get,
    Find,
    Fill,
    Clear,
}

// What the words spell: the operation's word and those after it.
pub(crate) fn operation_of(words: &[&[u8]]) -> Result<Op, Flaw>
    ensures { ReadsAs (operation_of (map (λ w. w.now) words.now)) result }
{
    match words {
        [word, others @ ..] => match verb_of(word) {
            Some(verb) => spelled(verb, others),
            None => Err(Flaw::Bad(Bad::Command)),
        },
        [] => Err(Flaw::Bad(Bad::Command)),
    }
}

pub(crate) fn is_word(word: &[u8], text: &str) -> bool
    ensures { result ≡ bytes_eq word.now text.now }
{
    word == text.as_bytes()
}

fn verb_of(word: &[u8]) -> Option<Verb>
    ensures { result ≡ found word.now verbs }
{
    if is_word(word, "put") {
        Some(Verb::Put)
    } else if is_word(word, "drop") {
        Some(Verb::Drop)
    } else if is_word(word, "set") {
        Some(Verb::Set)
    } else if is_word(word, "get") {
        Some(Verb::Get)
    } else if is_word(word, "find") {
        Some(Verb::Find)
    } else if is_word(word, "fill") {
        Some(Verb::Fill)
    } else if is_word(word, "clear") {
        Some(Verb::Clear)
    } else {
        None
    }
}

fn spelled(verb: Verb, words: &[&[u8]]) -> Result<Op, Flaw>
    ensures { ReadsAs (spelled verb (map (λ w. w.now) words.now)) result }
{
    match verb {
        Verb::Put => put_of(words),
        Verb::Drop => drop_of(words),
        Verb::Set => set_of(words),
        Verb::Get => get_of(words),
        Verb::Find => find_of(words),
        Verb::Fill => fill_of(words),
        Verb::Clear => clear_of(words),
    }
}

#[tactic(auto, unfolding(crate::specs::Operations::spelled))]
fn put_of(words: &[&[u8]]) -> Result<Op, Flaw>
    ensures { ReadsAs (spelled Verb.Put (map (λ w. w.now) words.now)) result }
{
    match words {
        [id, x1, y1, x2, y2, value] => { Ok(Op::Put(record_in(id, x1, y1, x2, y2, value)?)) }
        _ => Err(Flaw::Bad(Bad::Words)),
    }
}

#[tactic(auto, unfolding(crate::specs::Operations::spelled))]
fn drop_of(words: &[&[u8]]) -> Result<Op, Flaw>
    ensures { ReadsAs (spelled Verb.Drop (map (λ w. w.now) words.now)) result }
{
    match words {
        [id] => Ok(Op::Drop(id_in(id)?)),
        _ => Err(Flaw::Bad(Bad::Words)),
    }
}

#[tactic(auto, unfolding(crate::specs::Operations::spelled))]
fn set_of(words: &[&[u8]]) -> Result<Op, Flaw>
    ensures { ReadsAs (spelled Verb.Set (map (λ w. w.now) words.now)) result }
{
    match words {
        [id, value] => {
            let id = id_in(id)?;
            let value = value_in(value)?;
            Ok(Op::Set(id, value))
        }
        _ => Err(Flaw::Bad(Bad::Words)),
    }
}

#[tactic(auto, unfolding(crate::specs::Operations::spelled))]
fn get_of(words: &[&[u8]]) -> Result<Op, Flaw>
    ensures { ReadsAs (spelled Verb.Get (map (λ w. w.now) words.now)) result }
{
    match words {
        [id] => Ok(Op::Get(id_in(id)?)),
        _ => Err(Flaw::Bad(Bad::Words)),
    }
}

#[tactic(auto, unfolding(crate::specs::Operations::spelled))]
fn find_of(words: &[&[u8]]) -> Result<Op, Flaw>
    ensures { ReadsAs (spelled Verb.Find (map (λ w. w.now) words.now)) result }
{
    match words {
        [x1, y1, x2, y2] => Ok(Op::Find(rectangle_in(x1, y1, x2, y2)?)),
        _ => Err(Flaw::Bad(Bad::Words)),
    }
}

#[tactic(auto, unfolding(crate::specs::Operations::spelled))]
fn fill_of(words: &[&[u8]]) -> Result<Op, Flaw>
    ensures { ReadsAs (spelled Verb.Fill (map (λ w. w.now) words.now)) result }
{
    match words {
        [x1, y1, x2, y2, value] => {
            let rect = rectangle_in(x1, y1, x2, y2)?;
            let value = value_in(value)?;
            Ok(Op::Fill(rect, value))
        }
        _ => Err(Flaw::Bad(Bad::Words)),
    }
}

#[tactic(auto, unfolding(crate::specs::Operations::spelled))]
fn clear_of(words: &[&[u8]]) -> Result<Op, Flaw>
    ensures { ReadsAs (spelled Verb.Clear (map (λ w. w.now) words.now)) result }
{
    match words {
        [x1, y1, x2, y2] => Ok(Op::Clear(rectangle_in(x1, y1, x2, y2)?)),
        _ => Err(Flaw::Bad(Bad::Words)),
    }
}

#[tactic(auto, unfolding(crate::specs::Operations::record_in))]
fn record_in(
    id: &[u8],
    x1: &[u8],
    y1: &[u8],
    x2: &[u8],
    y2: &[u8],
    value: &[u8],
) -> Result<Record, Flaw>
    ensures { ReadsAs (record_in id.now x1.now y1.now x2.now y2.now value.now) result }
{
    let id = id_in(id)?;
    let rect = rectangle_in(x1, y1, x2, y2)?;
    let value = value_in(value)?;
    Ok(Record { id, rect, value })
}

fn id_in(word: &[u8]) -> Result<u64, Flaw>
    ensures { ReadsAs (id_in word.now) result }
{
    number_up_to(u64::MAX, word).ok_or(Flaw::Bad(Bad::Number))
}

#[tactic(auto, unfolding(crate::specs::Operations::rectangle_in))]
fn rectangle_in(x1: &[u8], y1: &[u8], x2: &[u8], y2: &[u8]) -> Result<Rect, Flaw>
    ensures { ReadsAs (rectangle_in x1.now y1.now x2.now y2.now) result }
{
    let x1 = coordinate(x1).ok_or(Flaw::Bad(Bad::Number))?;
    let y1 = coordinate(y1).ok_or(Flaw::Bad(Bad::Number))?;
    let x2 = coordinate(x2).ok_or(Flaw::Bad(Bad::Number))?;
    let y2 = coordinate(y2).ok_or(Flaw::Bad(Bad::Number))?;
    match Rect::new(x1, y1, x2, y2) {
        Ok(rect) => Ok(rect),
        Err(_) => Err(Flaw::Bad(Bad::Rect)),
    }
}

#[tactic(auto, unfolding(crate::specs::Operations::value_in))]
fn value_in(word: &[u8]) -> Result<Value, Flaw>
    ensures { ReadsAs (value_in word.now) result }
{
    match Value::new(word) {
        Ok(value) => Ok(value),
        Err(_) => Err(Flaw::Bad(Bad::Value)),
    }
}
