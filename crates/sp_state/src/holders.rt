// Who holds the latch: the sessions that have planned. Searches share it.
ghost use Rattle.std.specs.Prelude.{◌≡◌, ◌&&◌, nat_eq, not, true, false, find, None};
ghost use Rattle.std.specs.Option.{option_copied};
ghost use Rattle.sp_model.specs.Refusals.{is_search, holds_latch, shares, latched};

use crate::Seat;
use sp_event::{Answer, Event};
use sp_locks::SessionId;
use sp_model::Stage;
use sp_rect::Op;

fn is_search(op: &Op) -> bool
    ensures { result ≡ is_search op.now }
{
    match op {
        Op::Get(_) | Op::Find(_) => true,
        Op::Put(_) | Op::Drop(_) | Op::Set(_, _) | Op::Fill(_, _) | Op::Clear(_) => false,
    }
}

fn holds_latch(shared: bool, stage: &Stage) -> bool
    ensures { result ≡ holds_latch shared stage.now }
{
    match stage {
        Stage::Planned(op, _) => !(shared & is_search(op)),
        Stage::Idle
        | Stage::Started(_)
        | Stage::NameWait(_)
        | Stage::Named(_)
        | Stage::NeedWait(_)
        | Stage::Queued
        | Stage::Placed => false,
    }
}

// Whether the plan of an operation at this stage shares the latch.
fn shares(stage: &Stage) -> bool
    ensures { result ≡ shares stage.now }
{
    match stage {
        Stage::Named(op) | Stage::NeedWait(op) => is_search(op),
        Stage::Idle
        | Stage::Started(_)
        | Stage::NameWait(_)
        | Stage::Planned(_, _)
        | Stage::Queued
        | Stage::Placed => false,
    }
}

// The first session but that one that holds the latch.
fn other_holder(seats: &[Seat], shared: bool, session: SessionId) -> Option<&Seat>
    ensures { option_copied result ≡ find (λ y. not (nat_eq y.txn.session session) && holds_latch shared y.stage) seats.now }
{
    seats.iter().find(|seat| (seat.session() != session) & holds_latch(shared, seat.stage()))
}

// The first session that holds the latch.
fn any_holder(seats: &[Seat]) -> Option<&Seat>
    ensures { option_copied result ≡ find (λ y. true && holds_latch false y.stage) seats.now }
{
    seats.iter().find(|seat| holds_latch(false, seat.stage()))
}

// The session that holds the latch against a plan of the session.
fn plan_latched(seats: &[Seat], seat: Option<&Seat>, session: SessionId) -> Option<Answer>
    ensures { result ≡ latched (Event.Plan session) (option_copied seat.entry) seats.now }
{
    match other_holder(seats, shares(seat?.stage()), session) {
        Some(holder) => Some(Answer::LatchBusy(holder.session())),
        None => None,
    }
}

// The session that holds the latch against a removal.
fn clean_latched(seats: &[Seat]) -> Option<Answer>
    ensures { result ≡ latched Event.Clean None seats.now }
{
    match any_holder(seats) {
        Some(holder) => Some(Answer::LatchBusy(holder.session())),
        None => None,
    }
}

/// The session that holds the latch against a plan or a removal.
pub(crate) fn latched(event: &Event, seat: Option<&Seat>, seats: &[Seat]) -> Option<Answer>
    ensures { result ≡ latched event.now (option_copied seat.entry) seats.now }
{
    match event {
        Event::Plan(session) => plan_latched(seats, seat, *session),
        Event::Clean => clean_latched(seats),
        _ => None,
    }
}
