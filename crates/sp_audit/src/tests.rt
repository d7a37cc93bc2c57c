// The text of an audit against lines written by hand.
use crate::json::ToJson;
use crate::{Audit, Cycle, Edge, Ended, dump};
use sp_locks::{Mode, Name};
use sp_plain::Plain;
use sp_rect::{Answered, Commit, Duplicate, Op, Pairs, Record, Records, Rect, Reply, Value, WHOLE};
use std::alloc::Global;
use std::test::Fail;

// An empty find of all space and a deadlock of two sessions.
#[test]
fn one_commit_and_one_deadlock(rt: HostRuntime) -> Result<(), Fail> {
    let alloc = rt.alloc();
    let mut audit = Audit::new(alloc, Records::new(alloc));
    audit.reserve(2)?;
    let mut ops = Pairs::new(alloc);
    ops.push(Answered {
        op: Op::Find(WHOLE),
        reply: Reply::Found(Records::new(alloc)),
    })?;
    audit.add(Commit {
        session: 0,
        txn: 1,
        seen: 0,
        place: 1,
        ops,
    });
    let line =
        b"{\"base\":[],\"commits\":[{\"ops\":[[[\"find\",-1073741824,-1073741824,1073741823,1073741823],[\"found\",[]]]],\"place\":1,\"seen\":0,\"session\":0,\"txn\":1}],\"ended\":[]}\n";
    assert_eq!(rt; dump(alloc, &audit)?.bytes(), line.as_slice());

    let mut cycle = Cycle::new(alloc);
    cycle.push(Edge {
        from: 0,
        to: 222,
        name: Name::Object(3),
        wanted: Mode::S,
        has: Mode::X,
        waiting: false,
    })?;
    cycle.push(Edge {
        from: 222,
        to: 0,
        name: Name::Granule(1),
        wanted: Mode::SIX,
        has: Mode::IX,
        waiting: true,
    })?;
    audit.end(Ended { txn: 7, cycle });
    let line =
        b"{\"base\":[],\"commits\":[{\"ops\":[[[\"find\",-1073741824,-1073741824,1073741823,1073741823],[\"found\",[]]]],\"place\":1,\"seen\":0,\"session\":0,\"txn\":1}],\"ended\":[{\"cycle\":[[0,222,\"object\",3,\"S\",\"held\",\"X\"],[222,0,\"granule\",1,\"SIX\",\"waiting\",\"IX\"]],\"txn\":7}]}\n";
    assert_eq!(rt; dump(alloc, &audit)?.bytes(), line.as_slice());
    Ok(())
}

fn value(text: &str) -> Result<Value, &'static str> {
    Value::new(text.as_bytes()).map_err(|_| "no value")
}

fn record(alloc: Global, id: u64, rect: Rect, text: &str) -> Result<Record, &'static str> {
    let value = value(text)?;
    Ok(Record { id, rect, value })
}

// The records at opening, as a plain store leaves them.
#[test]
fn records_at_opening(rt: HostRuntime) -> Result<(), Fail> {
    let alloc = rt.alloc();
    let rect = Rect::new(-1, 0, 2, 30).map_err(|_| "no rectangle")?;
    let mut plain = Plain::new(alloc);
    let _added = plain.apply(&Op::Put(record(alloc, 5, rect, "e")?))?;
    let _added = plain.apply(&Op::Put(record(alloc, 2, rect, "b")?))?;
    let audit = Audit::new(alloc, plain.records().copy(alloc)?);
    let line =
        b"{\"base\":[[2,-1,0,2,30,\"b\"],[5,-1,0,2,30,\"e\"]],\"commits\":[],\"ended\":[]}\n";
    assert_eq!(rt; dump(alloc, &audit)?.bytes(), line.as_slice());
    Ok(())
}

// Every kind of operation, with the greatest id, negative corners, and a value that JSON escapes.
#[test]
fn operations(rt: HostRuntime) -> Result<(), Fail> {
    let alloc = rt.alloc();
    let rect = Rect::new(-1, 0, 2, 30).map_err(|_| "no rectangle")?;
    let table = [
        (
            Op::Put(record(alloc, 18446744073709551615, rect, "a\"\\")?),
            "[\"put\",18446744073709551615,-1,0,2,30,\"a\\\"\\\\\"]",
        ),
        (Op::Drop(7), "[\"drop\",7]"),
        (Op::Set(0, value("{~}")?), "[\"set\",0,\"{~}\"]"),
        (Op::Get(1), "[\"get\",1]"),
        (Op::Find(rect), "[\"find\",-1,0,2,30]"),
        (
            Op::Fill(rect, value("sold")?),
            "[\"fill\",-1,0,2,30,\"sold\"]",
        ),
        (Op::Clear(rect), "[\"clear\",-1,0,2,30]"),
    ];
    for (op, want) in &table {
        let text = op.to_json(alloc)?.to_string(alloc)?;
        assert_eq!(rt; text.as_str(), *want);
    }
    Ok(())
}

// Every kind of reply.
#[test]
fn replies(rt: HostRuntime) -> Result<(), Fail> {
    let alloc = rt.alloc();
    let rect = Rect::new(-1, 0, 2, 30).map_err(|_| "no rectangle")?;
    let mut found = Records::new(alloc);
    found.push(record(alloc, 1, rect, "a")?)?;
    found.push(record(alloc, 2, rect, "b")?)?;
    let table = [
        (Reply::Done, "[\"done\"]"),
        (Reply::Exists, "[\"exists\"]"),
        (Reply::Absent, "[\"absent\"]"),
        (
            Reply::Rec(record(alloc, 5, rect, "e")?),
            "[\"rec\",[5,-1,0,2,30,\"e\"]]",
        ),
        (
            Reply::Found(found),
            "[\"found\",[[1,-1,0,2,30,\"a\"],[2,-1,0,2,30,\"b\"]]]",
        ),
        (Reply::Count(20), "[\"count\",20]"),
    ];
    for (reply, want) in &table {
        let text = reply.to_json(alloc)?.to_string(alloc)?;
        assert_eq!(rt; text.as_str(), *want);
    }
    Ok(())
}
