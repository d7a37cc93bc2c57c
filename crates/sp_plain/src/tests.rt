// What operations reply and what lists of changes leave, as tables.
use crate::{Change, Changes, Plain};
use sp_rect::{Duplicate, Op, Record, Rect, Reply, Text, Value};
use std::alloc::{AllocError, Global};
use std::test::Fail;

// One line of a table: a command word, an id, corners and a value, as far as the command has them.
#[derive(Clone, Copy)]
struct Line {
    word: &'static str,
    id: u64,
    corners: (i64, i64, i64, i64),
    value: &'static str,
}

fn entry(word: &'static str, id: u64, corners: (i64, i64, i64, i64), value: &'static str) -> Line {
    Line {
        word,
        id,
        corners,
        value,
    }
}

fn rect_of(line: &Line) -> Result<Rect, &'static str> {
    let (x1, y1, x2, y2) = line.corners;
    Rect::new(x1, y1, x2, y2).map_err(|_| "no rectangle")
}

fn value_of(line: &Line) -> Result<Value, &'static str> {
    Value::new(line.value.as_bytes()).map_err(|_| "no value")
}

fn op_of(alloc: Global, line: &Line) -> Result<Op, &'static str> {
    match line.word {
        "put" => Ok(Op::Put(Record {
            id: line.id,
            rect: rect_of(line)?,
            value: value_of(line)?,
        })),
        "drop" => Ok(Op::Drop(line.id)),
        "set" => Ok(Op::Set(line.id, value_of(line)?)),
        "get" => Ok(Op::Get(line.id)),
        "find" => Ok(Op::Find(rect_of(line)?)),
        "fill" => Ok(Op::Fill(rect_of(line)?, value_of(line)?)),
        _ => Ok(Op::Clear(rect_of(line)?)),
    }
}

fn change_of(alloc: Global, line: &Line) -> Result<Change, &'static str> {
    match line.word {
        "put" => Ok(Change::Put(Record {
            id: line.id,
            rect: rect_of(line)?,
            value: value_of(line)?,
        })),
        "drop" => Ok(Change::Drop(line.id)),
        _ => Ok(Change::Set(line.id, value_of(line)?)),
    }
}

fn write_record(text: &mut Text, record: &Record) -> Result<(), AllocError> {
    text.push_str(" rec ")?;
    text.push_number(record.id)?;
    text.push_str(" ")?;
    text.push_signed(record.rect.x1())?;
    text.push_str(" ")?;
    text.push_signed(record.rect.y2())?;
    text.push_str(" ")?;
    text.push_bytes(record.value.bytes())
}

fn write_all(text: &mut Text, records: &[Record]) -> Result<(), AllocError> {
    for record in records {
        write_record(text, record)?;
    }
    Ok(())
}

fn told(alloc: Global, reply: &Reply) -> Result<Text, AllocError> {
    let mut text = Text::new(alloc);
    match reply {
        Reply::Done => text.push_str("done")?,
        Reply::Exists => text.push_str("exists")?,
        Reply::Absent => text.push_str("absent")?,
        Reply::Rec(record) => write_record(&mut text, record)?,
        Reply::Found(records) => {
            text.push_str("found")?;
            write_all(&mut text, records.as_slice())?;
        }
        Reply::Count(count) => text.push_number(*count)?,
    }
    Ok(text)
}

// One session on an empty store reads its own changes back.
#[test]
fn replies(rt: HostRuntime) -> Result<(), Fail> {
    let none = (0, 0, 0, 0);
    let table = [
        (entry("put", 1, (0, 0, 1, 1), "x"), "done"),
        (entry("put", 1, (5, 5, 6, 6), "y"), "exists"),
        (entry("set", 2, none, "z"), "absent"),
        (entry("set", 1, none, "y"), "done"),
        (entry("get", 1, none, ""), " rec 1 0 1 y"),
        (entry("drop", 1, none, ""), "done"),
        (entry("drop", 1, none, ""), "absent"),
        (entry("get", 1, none, ""), "absent"),
        (entry("put", 1, (5, 5, 5, 5), "w"), "done"),
        (entry("fill", 0, (0, 0, 9, 9), "v"), "1"),
        (entry("clear", 0, (6, 6, 9, 9), ""), "0"),
        (entry("find", 0, (0, 0, 9, 9), ""), "found rec 1 5 5 v"),
        (entry("put", 9, (9, 9, 9, 9), "n"), "done"),
        (entry("put", 4, (6, 6, 9, 9), "f"), "done"),
        (
            entry("find", 0, (6, 6, 9, 9), ""),
            "found rec 4 6 9 f rec 9 9 9 n",
        ),
        (entry("fill", 0, (5, 5, 6, 6), "u"), "2"),
        (
            entry("find", 0, (0, 0, 9, 9), ""),
            "found rec 1 5 5 u rec 4 6 9 u rec 9 9 9 n",
        ),
        (entry("clear", 0, (5, 5, 6, 6), ""), "2"),
        (entry("find", 0, (0, 0, 9, 9), ""), "found rec 9 9 9 n"),
    ];
    let mut plain = Plain::new(rt.alloc());
    for (line, want) in &table {
        let op = op_of(rt.alloc(), line)?;
        let reply = plain.apply(&op)?;
        let text = told(rt.alloc(), &reply)?;
        assert_eq!(rt; text.bytes(), want.as_bytes(), "{}", line.word);
    }
    Ok(())
}

// Each list of changes is made whole or not at all.
#[test]
fn changes(rt: HostRuntime) -> Result<(), Fail> {
    let none = (0, 0, 0, 0);
    let put = |id, value| entry("put", id, (1, 1, 2, 2), value);
    let made = " rec 2 1 2 z rec 3 1 2 c";
    let table = [
        (
            [put(1, "a"), put(2, "b"), put(3, "c")],
            true,
            " rec 1 1 2 a rec 2 1 2 b rec 3 1 2 c",
        ),
        (
            [put(4, "d"), entry("drop", 1, none, ""), put(4, "e")],
            false,
            " rec 1 1 2 a rec 2 1 2 b rec 3 1 2 c",
        ),
        (
            [
                entry("drop", 1, none, ""),
                entry("set", 2, none, "z"),
                entry("set", 3, none, "c"),
            ],
            true,
            made,
        ),
        (
            [
                entry("drop", 2, none, ""),
                put(1, "a"),
                entry("set", 2, none, "q"),
            ],
            false,
            made,
        ),
        (
            [
                entry("set", 3, none, "q"),
                entry("drop", 3, none, ""),
                entry("drop", 9, none, ""),
            ],
            false,
            made,
        ),
        (
            [
                entry("drop", 3, none, ""),
                put(3, "w"),
                entry("set", 3, none, "v"),
            ],
            true,
            " rec 2 1 2 z rec 3 1 2 v",
        ),
    ];
    let mut plain = Plain::new(rt.alloc());
    for (lines, want, after) in &table {
        let mut changes = Changes::new(rt.alloc());
        for line in lines {
            changes.push(change_of(rt.alloc(), line)?)?;
        }
        assert_eq!(rt; plain.take(&changes.copy(rt.alloc())?)?, *want);
        let mut text = Text::new(rt.alloc());
        write_all(&mut text, plain.copy(rt.alloc())?.records().as_slice())?;
        assert_eq!(rt; text.bytes(), after.as_bytes());
    }
    Ok(())
}
