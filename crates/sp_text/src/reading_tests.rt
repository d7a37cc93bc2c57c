// What lines say, as tables: a good line is the text of what it says.
use crate::names::push_session;
use crate::words::{push_corners, push_spaced, push_spaced_number};
use crate::{Command, Form, Item, Said, TextError, push_item, read_line};
use sp_event::Event;
use sp_rect::{Op, Record, Text};
use std::alloc::{AllocError, Global};
use std::test::Fail;

fn push_record(text: &mut Text, record: &Record) -> Result<(), AllocError> {
    text.push_str("put")?;
    push_spaced_number(text, record.id)?;
    push_corners(text, &record.rect)?;
    push_spaced(text, record.value.bytes())
}

fn push_op(text: &mut Text, op: &Op) -> Result<(), AllocError> {
    match op {
        Op::Put(record) => push_record(text, record),
        Op::Drop(id) => {
            text.push_str("drop")?;
            push_spaced_number(text, *id)
        }
        Op::Set(id, value) => {
            text.push_str("set")?;
            push_spaced_number(text, *id)?;
            push_spaced(text, value.bytes())
        }
        Op::Get(id) => {
            text.push_str("get")?;
            push_spaced_number(text, *id)
        }
        Op::Find(rect) => {
            text.push_str("find")?;
            push_corners(text, rect)
        }
        Op::Fill(rect, value) => {
            text.push_str("fill")?;
            push_corners(text, rect)?;
            push_spaced(text, value.bytes())
        }
        Op::Clear(rect) => {
            text.push_str("clear")?;
            push_corners(text, rect)
        }
    }
}

fn push_command(text: &mut Text, command: &Command) -> Result<(), AllocError> {
    match command {
        Command::Begin => text.push_str("begin"),
        Command::Do(op) => push_op(text, op),
        Command::Commit => text.push_str("commit"),
        Command::Rollback => text.push_str("rollback"),
    }
}

fn push_event(text: &mut Text, event: &Event) -> Result<(), AllocError> {
    let (session, word) = match event {
        Event::Begin(session) => (*session, "begin"),
        Event::Start(session, _) => (*session, "start "),
        Event::Name(session) => (*session, "name"),
        Event::Plan(session) => (*session, "plan"),
        Event::Ask(session) => (*session, "ask"),
        Event::Apply(session) => (*session, "apply"),
        Event::Commit(session) => (*session, "commit"),
        Event::Rollback(session) => (*session, "rollback"),
        Event::Flush => return text.push_str("flush"),
        Event::Clean => return text.push_str("clean"),
    };
    push_session(text, Form::Drill, session)?;
    text.push_str(" ")?;
    text.push_str(word)?;
    match event {
        Event::Start(_, op) => push_op(text, op),
        _ => Ok(()),
    }
}

// What was read, as a text: a good line's own, and the answer to a bad one.
fn read(alloc: Global, line: &[u8], form: Form) -> Result<Text, Fail> {
    let mut text = Text::new(alloc);
    match read_line(alloc, line, form) {
        Ok(Said::Do(session, command)) => {
            if let Some(session) = session {
                push_session(&mut text, form, session)?;
                text.push_str(" ")?;
            }
            push_command(&mut text, &command)?;
        }
        Ok(Said::Step(event)) => push_event(&mut text, &event)?,
        Err(TextError::Bad(session, bad)) => {
            push_item(&mut text, &Item::Bad { session, bad }, form)?;
        }
        Err(TextError::Memory) => return Err(Fail::from("no memory")),
    }
    Ok(text)
}

const COMMANDS: [&str; 12] = [
    "begin",
    "put 1 0 0 2 2 a",
    "put 18446744073709551615 -1073741824 -1073741824 1073741823 1073741823 ~!",
    "drop 0",
    "set 10 !#0123456789012345678901234567890123456789012345678901234567890a",
    "get 18446744073709551615",
    "find 5 -5 5 -5",
    "find -1 0 0 1",
    "fill 0 0 9 9 v",
    "clear 6 6 9 9",
    "commit",
    "rollback",
];

const STAGES: [&str; 7] = [
    "begin", "name", "plan", "ask", "apply", "commit", "rollback",
];

const SESSIONS: [&str; 8] = ["A", "A0", "A9", "A00", "A99", "B", "Z", "Z99"];

// A line of these words.
fn line(alloc: Global, words: &[&str]) -> Result<String, AllocError> {
    let mut text = String::new(alloc);
    for word in words {
        if text.len() > 0 {
            text.push_str(" ")?;
        }
        text.push_str(word)?;
    }
    Ok(text)
}

// Each command in each form that has it, of sessions of each length of name.
#[test]
fn good_lines_say_their_text(rt: HostRuntime) -> Result<(), Fail> {
    let alloc = rt.alloc();
    for words in COMMANDS {
        let text = read(alloc, words.as_bytes(), Form::Session)?;
        assert_eq!(rt; text.bytes(), words.as_bytes());
    }
    for session in SESSIONS {
        for words in COMMANDS {
            let whole = line(alloc, &[session, words])?;
            let text = read(alloc, whole.as_bytes(), Form::Play)?;
            assert_eq!(rt; text.bytes(), whole.as_bytes());
        }
        for word in STAGES {
            let whole = line(alloc, &[session, word])?;
            let text = read(alloc, whole.as_bytes(), Form::Drill)?;
            assert_eq!(rt; text.bytes(), whole.as_bytes());
        }
        let whole = line(alloc, &[session, "start", COMMANDS[4]])?;
        let text = read(alloc, whole.as_bytes(), Form::Drill)?;
        assert_eq!(rt; text.bytes(), whole.as_bytes());
    }
    for word in ["flush", "clean"] {
        let text = read(alloc, word.as_bytes(), Form::Drill)?;
        assert_eq!(rt; text.bytes(), word.as_bytes());
    }
    Ok(())
}

// The numbers of sessions by their names.
#[test]
fn names_of_sessions(rt: HostRuntime) -> Result<(), Fail> {
    for (name, number) in [
        ("A begin", 0),
        ("A0 begin", 1),
        ("A9 begin", 10),
        ("A00 begin", 11),
        ("A01 begin", 12),
        ("A99 begin", 110),
        ("B begin", 111),
        ("Z99 begin", 2885),
    ] {
        match read_line(rt.alloc(), name.as_bytes(), Form::Play) {
            Ok(Said::Do(session, _)) => assert_eq!(rt; session, Some(number)),
            _ => return Err(Fail::from("a good line is bad")),
        }
    }
    Ok(())
}

// Lines that get an answer, one behind the other.
type Row = (&'static [u8], &'static [u8]);

const BAD_COMMANDS: [Row; 9] = [
    (
        b"? bad session\n",
        b"a begin\n\n A begin\n\r\nA\tbegin\nAA begin\nA000 begin\nA0x begin\nA0: begin\n[ begin\n@0 begin\n7 begin\nbegin\nflush\n- begin",
    ),
    (
        b"A bad command\n",
        b"A\nA \nA  begin\nA beginn\nA Begin\nA begin\r\nA flush\nA start put 1 0 0 0 0 x",
    ),
    (
        b"A0 bad command\n",
        b"A0 name\nA0 plan\nA0 ask\nA0 apply\nA0 clean",
    ),
    (b"Z99 bad command\n", b"Z99 start get 1\nZ99 "),
    (
        b"A bad words\n",
        b"A begin \nA begin now\nA commit 1\nA rollback 1\nA put 1 0 0 0 0\nA put 01 5 0 4 0 x y\nA drop\nA drop 1 2\nA set 1\nA set 1 x \nA get\nA find 0 0 0\nA find 0 0 0 0 0\nA fill 0 0 9 9\nA clear 0 0 9 9 v",
    ),
    (
        b"A bad number\n",
        b"A put 01 0 0 0 0 x\nA put -1 5 0 4 0 \nA put 18446744073709551616 0 0 0 0 x\nA drop 00\nA set  x\nA set 1x \nA get 1\r\nA get +1\nA find -0 0 0 0\nA find 0 - 0 0\nA find 0 0 --1 0\nA find 5 0 4 00\nA fill 0 0 0 10000000000 v",
    ),
    (
        b"A bad rect\n",
        b"A put 1 5 0 4 0 x\nA put 1 0 0 1073741824 0 \nA find -1073741825 0 0 0\nA fill 0 -9999999999 0 9999999999 v\nA clear 0 1 0 0",
    ),
    (
        b"A bad value\n",
        b"A put 1 0 0 0 0 \nA set 1 caf\xc3\xa9\nA set 1 \x7f\nA set 1 x\r",
    ),
    (
        b"B bad value\n",
        b"B fill 0 0 0 0 01234567890123456789012345678901234567890123456789012345678901234",
    ),
];

const BAD_EVENTS: [Row; 6] = [
    (b"? bad session\n", b"flush now\nflush \nFlush\nclean 1"),
    (
        b"A bad command\n",
        b"A put 1 0 0 0 0 x\nA get 1\nA start\nA start begin\nA start  get 1\nA flush",
    ),
    (
        b"A bad words\n",
        b"A name 1\nA apply now\nA begin \nA start get",
    ),
    (b"A bad number\n", b"A start get 01"),
    (b"A bad rect\n", b"A start find 5 0 4 0"),
    (b"A bad value\n", b"A start set 1 "),
];

const BAD_OVER_A_LINK: [Row; 5] = [
    (b"bad command\n", b"A begin\n\nname\nflush\nstart get 1"),
    (b"bad words\n", b"begin now"),
    (b"bad number\n", b"get -0"),
    (b"bad rect\n", b"clear 1 0 0 0"),
    (b"bad value\n", b"set 1 \x7f"),
];

// Whether each of the lines gets the answer.
fn are_answered(alloc: Global, row: Row, form: Form) -> Result<bool, Fail> {
    let (answer, lines) = row;
    for line in lines.split(|b| *b == b'\n') {
        if read(alloc, line, form)?.bytes() != answer {
            return Ok(false);
        }
    }
    Ok(true)
}

// Each reason, where it is the first that holds, in each form.
#[test]
fn reasons_of_bad_lines(rt: HostRuntime) -> Result<(), Fail> {
    for row in BAD_COMMANDS {
        assert!(rt; are_answered(rt.alloc(), row, Form::Play)?);
    }
    for row in BAD_EVENTS {
        assert!(rt; are_answered(rt.alloc(), row, Form::Drill)?);
    }
    for row in BAD_OVER_A_LINK {
        assert!(rt; are_answered(rt.alloc(), row, Form::Session)?);
    }
    Ok(())
}

// 512 bytes are not too long, 513 are, whatever they are; a line that is too long names no session.
#[test]
fn lines_that_are_too_long(rt: HostRuntime) -> Result<(), Fail> {
    let alloc = rt.alloc();
    for (form, extra, answer) in [
        (Form::Play, 504, "A bad words\n"),
        (Form::Play, 505, "? bad long\n"),
        (Form::Drill, 505, "? bad long\n"),
        (Form::Session, 504, "bad command\n"),
        (Form::Session, 505, "bad long\n"),
    ] {
        let mut line = String::from_str(alloc, "A begin ")?;
        for _ in 0..extra {
            line.push_str("x")?;
        }
        assert_eq!(rt;
            read(alloc, line.as_bytes(), form)?.bytes(),
            answer.as_bytes()
        );
    }
    Ok(())
}
