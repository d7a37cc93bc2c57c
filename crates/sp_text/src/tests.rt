// The text of each answer in each form, as a table.
use crate::{Command, Form, Item, Items, render};
use sp_event::{Answer, Event, Kind, Why};
use sp_list::Sequence;
use sp_locks::{Mode, Name, Sessions};
use sp_rect::{Record, Records, Rect, Reply, Value};
use sp_waits::{Cycle, Edge};
use std::alloc::Global;
use std::test::Fail;

fn record(alloc: Global) -> Result<Record, Fail> {
    let Ok(rect) = Rect::new(-1, 0, 2, 2) else {
        return Err(Fail::from("no rectangle"));
    };
    let Ok(value) = Value::new(b"a") else {
        return Err(Fail::from("no value"));
    };
    Ok(Record { id: 7, rect, value })
}

fn records(alloc: Global) -> Result<Records, Fail> {
    let mut list = Records::new(alloc);
    list.push(record(alloc)?)?;
    Ok(list)
}

fn sessions(alloc: Global) -> Result<Sessions, Fail> {
    let mut list = Sessions::new(alloc);
    for session in [0, 111, 2885] {
        list.push(session)?;
    }
    Ok(list)
}

// The cycle of two clerks who each put into what the other searched.
fn cycle(alloc: Global) -> Result<Cycle, Fail> {
    let mut edges = Cycle::new(alloc);
    edges.push(Edge {
        from: 111,
        to: 0,
        name: Name::Granule(1),
        wanted: Mode::IX,
        has: Mode::S,
        waiting: false,
    })?;
    edges.push(Edge {
        from: 0,
        to: 111,
        name: Name::Object(3),
        wanted: Mode::S,
        has: Mode::IX,
        waiting: true,
    })?;
    Ok(edges)
}

fn answers(alloc: Global) -> Result<Sequence<Answer>, Fail> {
    let mut list = Sequence::new(alloc);
    list.push(Answer::Began { txn: 5, seen: 4 })?;
    list.push(Answer::Planned(3))?;
    list.push(Answer::Reply(Reply::Rec(record(alloc)?)))?;
    list.push(Answer::Reply(Reply::Found(records(alloc)?)))?;
    list.push(Answer::Reply(Reply::Count(2)))?;
    list.push(Answer::Committed(9))?;
    list.push(Answer::Waits(Name::Granule(3), Mode::SIX, sessions(alloc)?))?;
    list.push(Answer::Deadlock(cycle(alloc)?))?;
    list.push(Answer::Still(Name::Object(18446744073709551615)))?;
    list.push(Answer::LatchBusy(12))?;
    list.push(Answer::Refused(Why::Phase))?;
    list.push(Answer::Full(Kind::Operations))?;
    list.push(Answer::Durable { first: 2, count: 1 })?;
    list.push(Answer::Removed(3))?;
    list.push(Answer::Later {
        granule: 2,
        holder: 1,
        mode: Mode::S,
    })?;
    for answer in [
        Answer::Started,
        Answer::Granted,
        Answer::Queued,
        Answer::RolledBack,
        Answer::Wrote,
        Answer::Nothing,
        Answer::Stopped(16),
        Answer::DiskFault,
        Answer::Memory,
    ] {
        list.push(answer)?;
    }
    Ok(list)
}

const IN_SCRIPTS: &str =
    "A began 4\nA planned 3\nA rec 7 -1 0 2 2 a\nA found 1\nA rec 7 -1 0 2 2 a\nA count 2\nA committed 9\nA waits granule 3 SIX A B Z99\nA deadlock 2\nA edge B A granule 1 IX held S\nA edge A B object 3 S waiting IX\nA still object 18446744073709551615\nA latch A01\nA refused phase\nA full operations\nA durable 2 1\nA removed 3\nA later granule 2 A0 S\nA started\nA granted\nA queued\nA rolledback\nA wrote\nA nothing\n";

const OVER_A_LINK: &str =
    "began 4\nplanned 3\nrec 7 -1 0 2 2 a\nfound 1\nrec 7 -1 0 2 2 a\ncount 2\ncommitted 9\nwaits granule 3 SIX 0 111 2885\ndeadlock 2\nedge 111 0 granule 1 IX held S\nedge 0 111 object 3 S waiting IX\nstill object 18446744073709551615\nlatch 12\nrefused phase\nfull operations\ndurable 2 1\nremoved 3\nlater granule 2 1 S\nstarted\ngranted\nqueued\nrolledback\nwrote\nnothing\n";

#[test]
fn every_answer_in_every_form(rt: HostRuntime) -> Result<(), Fail> {
    let alloc = rt.alloc();
    for (form, text) in [
        (Form::Play, IN_SCRIPTS),
        (Form::Drill, IN_SCRIPTS),
        (Form::Session, OVER_A_LINK),
    ] {
        let mut items = Items::new(alloc);
        for answer in answers(alloc)?.into_vec() {
            items.push(Item::Told {
                session: 0,
                command: Command::Begin,
                answer,
                late: false,
            })?;
        }
        assert_eq!(rt; render(alloc, &items, form)?.bytes(), text.as_bytes());
    }
    Ok(())
}

// The first word of an event's line is its session, and `-` where it has none.
#[test]
fn lines_of_events(rt: HostRuntime) -> Result<(), Fail> {
    let alloc = rt.alloc();
    let mut items = Items::new(alloc);
    for event in [
        Event::Flush,
        Event::Clean,
        Event::Plan(2885),
        Event::Ask(11),
    ] {
        items.push(Item::Stepped {
            event,
            answer: Answer::Nothing,
            late: false,
        })?;
    }
    let text = "- nothing\n- nothing\nZ99 nothing\nA00 nothing\n";
    assert_eq!(rt;
        render(alloc, &items, Form::Drill)?.bytes(),
        text.as_bytes()
    );
    Ok(())
}
