// Why an event can't be now.
ghost use Rattle.std.specs.Prelude.{◌≡◌, Some, None};
ghost use Rattle.sp_model.specs.declared.session.Session.{Session as AnySession};
ghost use Rattle.std.specs.Option.{option_copied};
ghost use Rattle.sp_model.specs.Refusals.{begin_refused, start_refused, name_refused, plan_refused, ask_refused, apply_refused, commit_refused, rollback_refused, refusal, session_of, stops, is_placed};

use crate::Seat;
use crate::seats::is_active;
use sp_event::{Answer, Event, Why};
use sp_locks::SessionId;
use sp_model::Stage;

fn begin_refused(stage: &Stage) -> Why
    ensures { result ≡ begin_refused stage.now }
{
    match stage {
        Stage::Queued | Stage::Placed => Why::Busy,
        Stage::Idle
        | Stage::Started(_)
        | Stage::NameWait(_)
        | Stage::Named(_)
        | Stage::NeedWait(_)
        | Stage::Planned(_, _) => Why::InTxn,
    }
}

fn start_refused(stage: &Stage) -> Option<Why>
    ensures { result ≡ start_refused stage.now }
{
    match stage {
        Stage::Idle => None,
        Stage::Started(_)
        | Stage::NameWait(_)
        | Stage::Named(_)
        | Stage::NeedWait(_)
        | Stage::Planned(_, _)
        | Stage::Queued
        | Stage::Placed => Some(Why::Busy),
    }
}

fn name_refused(stage: &Stage) -> Option<Why>
    ensures { result ≡ name_refused stage.now }
{
    match stage {
        Stage::Started(_) | Stage::NameWait(_) => None,
        Stage::Idle
        | Stage::Named(_)
        | Stage::NeedWait(_)
        | Stage::Planned(_, _)
        | Stage::Queued
        | Stage::Placed => Some(Why::Phase),
    }
}

fn plan_refused(stage: &Stage) -> Option<Why>
    ensures { result ≡ plan_refused stage.now }
{
    match stage {
        Stage::Named(_) | Stage::NeedWait(_) => None,
        Stage::Idle
        | Stage::Started(_)
        | Stage::NameWait(_)
        | Stage::Planned(_, _)
        | Stage::Queued
        | Stage::Placed => Some(Why::Phase),
    }
}

fn ask_refused(stage: &Stage) -> Option<Why>
    ensures { result ≡ ask_refused stage.now }
{
    match stage {
        Stage::Planned(_, left) => {
            if left.is_empty() {
                Some(Why::Phase)
            } else {
                None
            }
        }
        Stage::Idle
        | Stage::Started(_)
        | Stage::NameWait(_)
        | Stage::Named(_)
        | Stage::NeedWait(_)
        | Stage::Queued
        | Stage::Placed => Some(Why::Phase),
    }
}

fn apply_refused(stage: &Stage) -> Option<Why>
    ensures { result ≡ apply_refused stage.now }
{
    match stage {
        Stage::Planned(_, left) => {
            if left.is_empty() {
                None
            } else {
                Some(Why::Phase)
            }
        }
        Stage::Idle
        | Stage::Started(_)
        | Stage::NameWait(_)
        | Stage::Named(_)
        | Stage::NeedWait(_)
        | Stage::Queued
        | Stage::Placed => Some(Why::Phase),
    }
}

fn commit_refused(stage: &Stage) -> Option<Why>
    ensures { result ≡ commit_refused stage.now }
{
    match stage {
        Stage::Idle | Stage::Queued | Stage::Placed => None,
        Stage::Started(_)
        | Stage::NameWait(_)
        | Stage::Named(_)
        | Stage::NeedWait(_)
        | Stage::Planned(_, _) => Some(Why::Busy),
    }
}

fn rollback_refused(stage: &Stage) -> Option<Why>
    ensures { result ≡ rollback_refused stage.now }
{
    match stage {
        Stage::Queued | Stage::Placed => Some(Why::Busy),
        Stage::Idle
        | Stage::Started(_)
        | Stage::NameWait(_)
        | Stage::Named(_)
        | Stage::NeedWait(_)
        | Stage::Planned(_, _) => None,
    }
}

/// The session that an event names.
pub(crate) fn session_of(event: &Event) -> Option<SessionId>
    ensures { result ≡ session_of event.now }
{
    match event {
        Event::Begin(session)
        | Event::Start(session, _)
        | Event::Name(session)
        | Event::Plan(session)
        | Event::Ask(session)
        | Event::Apply(session)
        | Event::Commit(session)
        | Event::Rollback(session) => Some(*session),
        Event::Flush | Event::Clean => None,
    }
}

// Why the event can't be now, where its session has a transaction.
fn refused_at(event: &Event, stage: &Stage) -> Option<Why>
    ensures { (x : AnySession) → x.stage ≡ stage.now → result ≡ refusal event.now (Some x) }
{
    match event {
        Event::Begin(_) => Some(begin_refused(stage)),
        Event::Start(_, _) => start_refused(stage),
        Event::Name(_) => name_refused(stage),
        Event::Plan(_) => plan_refused(stage),
        Event::Ask(_) => ask_refused(stage),
        Event::Apply(_) => apply_refused(stage),
        Event::Commit(_) => commit_refused(stage),
        Event::Rollback(_) => rollback_refused(stage),
        Event::Flush | Event::Clean => None,
    }
}

// Why the event can't be now, where its session has no transaction.
fn refused_out(event: &Event) -> Option<Why>
    ensures { result ≡ refusal event.now None }
{
    match event {
        Event::Begin(_) | Event::Flush | Event::Clean => None,
        Event::Start(_, _)
        | Event::Name(_)
        | Event::Plan(_)
        | Event::Ask(_)
        | Event::Apply(_)
        | Event::Commit(_)
        | Event::Rollback(_) => Some(Why::NoTxn),
    }
}

/// Why the event can't be now.
pub(crate) fn refusal(event: &Event, seat: Option<&Seat>) -> Option<Why>
    ensures { result ≡ refusal event.now (option_copied seat.entry) }
{
    match seat {
        Some(seat) => refused_at(event, seat.stage()),
        None => refused_out(event),
    }
}

// Whether it is a session whose transaction has its place.
fn is_placed(seat: Option<&Seat>) -> bool
    ensures { result ≡ is_placed (option_copied seat.entry) }
{
    match seat {
        Some(seat) => !is_active(seat),
        None => false,
    }
}

/// After a fault every event is stopped, but the commit of a transaction that has its place.
pub(crate) fn stops(stopped: Option<u64>, event: &Event, seat: Option<&Seat>) -> Option<Answer>
    ensures { result ≡ stops stopped event.now (option_copied seat.entry) }
{
    let offset = stopped?;
    if let Event::Commit(_) = event {
        if is_placed(seat) {
            return None;
        }
    }
    Some(Answer::Stopped(offset))
}
