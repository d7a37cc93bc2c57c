// The texts of items and answers.
ghost use Rattle.std.specs.Prelude.{◌≡◌, ◌++◌, [], ◌∷◌, IfOk, OnOk, map, decimal, codes, length, if◌then◌else◌};
ghost use Rattle.std.specs.List.{flat_map};
ghost use Rattle.sp_text.specs.Names.{session_word, mode_word, name_words};
ghost use Rattle.sp_text.specs.Texts.{spaced, record_words, edge_words, wait_words, holder_words, later_words, durable_words, why_words, kind_words, reply_words, answer_words, line_text, lead_words, lead_of_session, lead_of_event, bad_words, item_text, render};

use crate::names::{push_name, push_session};
use crate::words::{
    push_corners, push_lead, push_line, push_numbered, push_spaced, push_spaced_mode,
    push_spaced_name, push_spaced_number, push_spaced_session,
};
use crate::{Bad, Form, Item, Items, Lead};
use sp_event::{Answer, Event, Kind, Why};
use sp_locks::{Mode, Name, SessionId, Sessions};
use sp_rect::{Record, Records, Reply, Text};
use sp_waits::{Cycle, Edge};
use std::alloc::{AllocError, Global};

/// The texts of all items, one after the other.
pub fn render(alloc: Global, items: &Items, form: Form) -> Result<Text, AllocError>
    ensures { IfOk result (λ text. text ≡ render form items.now) }
{
    let mut text = Text::new(alloc);
    for item in items.as_slice() {
        push_item(&mut text, item, form)?;
    }
    Ok(text)
}

/// Adds the lines of an item.
#[tactic(auto, unfolding(crate::specs::Texts::item_text))]
pub fn push_item(text: &mut Text, item: &Item, form: Form) -> Result<(), AllocError>
    ensures { OnOk result (text.new ≡ text.old ++ item_text form item.now) }
{
    match item {
        Item::Bad { session, bad } => push_line(
            text,
            form,
            lead_of_session(*session),
            bad_words(*bad),
        ),
        Item::Told {
            session,
            answer,
            ..
        } => push_answer(text, form, Lead::Named(*session), answer),
        Item::Stepped { event, answer, .. } => push_answer(
            text,
            form,
            lead_of_event(event),
            answer,
        ),
    }
}

fn lead_of_session(session: Option<SessionId>) -> Lead
    ensures { result ≡ lead_of_session session }
{
    match session {
        Some(session) => Lead::Named(session),
        None => Lead::Nobody,
    }
}

fn bad_words(bad: Bad) -> &'static str
    ensures { result.now ≡ bad_words bad }
{
    match bad {
        Bad::Long => "bad long",
        Bad::Session => "bad session",
        Bad::Command => "bad command",
        Bad::Words => "bad words",
        Bad::Number => "bad number",
        Bad::Rect => "bad rect",
        Bad::Value => "bad value",
    }
}

fn lead_of_event(event: &Event) -> Lead
    ensures { result ≡ lead_of_event event.now }
{
    match event {
        Event::Begin(session)
        | Event::Start(session, _)
        | Event::Name(session)
        | Event::Plan(session)
        | Event::Ask(session)
        | Event::Apply(session)
        | Event::Commit(session)
        | Event::Rollback(session) => Lead::Named(*session),
        Event::Flush | Event::Clean => Lead::Kernel,
    }
}

fn push_answer(text: &mut Text, form: Form, lead: Lead, answer: &Answer) -> Result<(), AllocError>
    ensures { OnOk result (text.new ≡ text.old ++ flat_map (line_text (lead_words form lead)) (answer_words form answer.now)) }
{
    match answer {
        Answer::Began { seen, .. } => push_numbered(text, form, lead, "began ", *seen),
        Answer::Started => push_line(text, form, lead, "started"),
        Answer::Granted => push_line(text, form, lead, "granted"),
        Answer::Planned(count) => push_numbered(text, form, lead, "planned ", *count),
        Answer::Reply(reply) => push_reply(text, form, lead, reply),
        Answer::Committed(place) => push_numbered(text, form, lead, "committed ", *place),
        Answer::Queued => push_line(text, form, lead, "queued"),
        Answer::RolledBack => push_line(text, form, lead, "rolledback"),
        Answer::Waits(name, mode, blockers) => push_wait(text, form, lead, *name, *mode, blockers),
        Answer::Deadlock(cycle) => push_deadlock(text, form, lead, cycle),
        Answer::Still(name) => push_still(text, form, lead, *name),
        Answer::LatchBusy(holder) => push_latch(text, form, lead, *holder),
        Answer::Refused(why) => push_line(text, form, lead, why_words(*why)),
        Answer::Full(kind) => push_line(text, form, lead, kind_words(*kind)),
        Answer::Wrote => push_line(text, form, lead, "wrote"),
        Answer::Durable { first, count } => push_durable(text, form, lead, *first, *count),
        Answer::Nothing => push_line(text, form, lead, "nothing"),
        Answer::Removed(entry) => push_numbered(text, form, lead, "removed ", *entry),
        Answer::Later {
            granule,
            holder,
            mode,
        } => push_later(text, form, lead, *granule, *holder, *mode),
        Answer::Stopped(_) | Answer::DiskFault | Answer::Memory => Ok(()),
    }
}

fn why_words(why: Why) -> &'static str
    ensures { result.now ≡ why_words why }
{
    match why {
        Why::InTxn => "refused intxn",
        Why::NoTxn => "refused notxn",
        Why::Busy => "refused busy",
        Why::Phase => "refused phase",
    }
}

fn kind_words(kind: Kind) -> &'static str
    ensures { result.now ≡ kind_words kind }
{
    match kind {
        Kind::Transactions => "full transactions",
        Kind::Commits => "full commits",
        Kind::Operations => "full operations",
        Kind::History => "full history",
        Kind::Replies => "full replies",
        Kind::Entries => "full entries",
        Kind::Numbers => "full numbers",
    }
}

fn push_reply(text: &mut Text, form: Form, lead: Lead, reply: &Reply) -> Result<(), AllocError>
    ensures { OnOk result (text.new ≡ text.old ++ flat_map (line_text (lead_words form lead)) (reply_words reply.now)) }
{
    match reply {
        Reply::Done => push_line(text, form, lead, "done"),
        Reply::Exists => push_line(text, form, lead, "exists"),
        Reply::Absent => push_line(text, form, lead, "absent"),
        Reply::Rec(found) => push_record(text, form, lead, found),
        Reply::Found(records) => push_found(text, form, lead, records),
        Reply::Count(count) => push_numbered(text, form, lead, "count ", *count),
    }
}

fn push_found(text: &mut Text, form: Form, lead: Lead, records: &Records) -> Result<(), AllocError>
    ensures { OnOk result (text.new ≡ text.old ++ flat_map (line_text (lead_words form lead)) ((codes "found " ++ decimal (length records.now)) ∷ map record_words records.now)) }
{
    push_numbered(text, form, lead, "found ", records.len() as u64)?;
    for found in records.as_slice() {
        push_record(text, form, lead, found)?;
    }
    Ok(())
}

#[tactic(auto, unfolding(crate::specs::Texts::line_text, crate::specs::Texts::record_words))]
fn push_record(text: &mut Text, form: Form, lead: Lead, found: &Record) -> Result<(), AllocError>
    ensures { OnOk result (text.new ≡ text.old ++ line_text (lead_words form lead) (record_words found.now)) }
{
    push_lead(text, form, lead)?;
    text.push_str("rec")?;
    push_spaced_number(text, found.id)?;
    push_corners(text, &found.rect)?;
    push_spaced(text, found.value.bytes())?;
    text.push_str("\n")
}

fn push_deadlock(text: &mut Text, form: Form, lead: Lead, cycle: &Cycle) -> Result<(), AllocError>
    ensures { OnOk result (text.new ≡ text.old ++ flat_map (line_text (lead_words form lead)) ((codes "deadlock " ++ decimal (length cycle.now)) ∷ map (edge_words form) cycle.now)) }
{
    push_numbered(text, form, lead, "deadlock ", cycle.len() as u64)?;
    for edge in cycle.as_slice() {
        push_edge(text, form, lead, edge)?;
    }
    Ok(())
}

#[tactic(auto, unfolding(crate::specs::Texts::line_text, crate::specs::Texts::edge_words))]
fn push_edge(text: &mut Text, form: Form, lead: Lead, edge: &Edge) -> Result<(), AllocError>
    ensures { OnOk result (text.new ≡ text.old ++ line_text (lead_words form lead) (edge_words form edge.now)) }
{
    push_lead(text, form, lead)?;
    text.push_str("edge")?;
    push_spaced_session(text, form, edge.from)?;
    push_spaced_session(text, form, edge.to)?;
    push_spaced_name(text, edge.name)?;
    push_spaced_mode(text, edge.wanted)?;
    push_row(text, edge)?;
    text.push_str("\n")
}

// Adds what the blocking row has.
fn push_row(text: &mut Text, edge: &Edge) -> Result<(), AllocError>
    ensures { OnOk result (text.new ≡ text.old ++ (spaced (if edge.now.waiting then codes "waiting" else codes "held") ++ spaced (mode_word edge.now.has))) }
{
    let has = if edge.waiting { "waiting" } else { "held" };
    push_spaced(text, has.as_bytes())?;
    push_spaced_mode(text, edge.has)
}

#[tactic(auto, unfolding(crate::specs::Texts::line_text, crate::specs::Texts::wait_words))]
fn push_wait(
    text: &mut Text,
    form: Form,
    lead: Lead,
    name: Name,
    mode: Mode,
    blockers: &Sessions,
) -> Result<(), AllocError>
    ensures { OnOk result (text.new ≡ text.old ++ line_text (lead_words form lead) (wait_words form name mode blockers.now)) }
{
    push_lead(text, form, lead)?;
    text.push_str("waits")?;
    push_spaced_name(text, name)?;
    push_spaced_mode(text, mode)?;
    push_sessions(text, form, blockers)?;
    text.push_str("\n")
}

fn push_sessions(text: &mut Text, form: Form, sessions: &Sessions) -> Result<(), AllocError>
    ensures { OnOk result (text.new ≡ text.old ++ flat_map (λ s. spaced (session_word form s)) sessions.now) }
{
    for session in sessions.as_slice() {
        push_spaced_session(text, form, *session)?;
    }
    Ok(())
}

#[tactic(auto, unfolding(crate::specs::Texts::line_text))]
fn push_still(text: &mut Text, form: Form, lead: Lead, name: Name) -> Result<(), AllocError>
    ensures { OnOk result (text.new ≡ text.old ++ line_text (lead_words form lead) (codes "still " ++ name_words name)) }
{
    push_lead(text, form, lead)?;
    text.push_str("still ")?;
    push_name(text, name)?;
    text.push_str("\n")
}

#[tactic(auto, unfolding(crate::specs::Texts::line_text))]
fn push_latch(text: &mut Text, form: Form, lead: Lead, holder: SessionId) -> Result<(), AllocError>
    ensures { OnOk result (text.new ≡ text.old ++ line_text (lead_words form lead) (codes "latch " ++ session_word form holder)) }
{
    push_lead(text, form, lead)?;
    text.push_str("latch ")?;
    push_session(text, form, holder)?;
    text.push_str("\n")
}

#[tactic(auto, unfolding(crate::specs::Texts::line_text, crate::specs::Texts::durable_words))]
fn push_durable(
    text: &mut Text,
    form: Form,
    lead: Lead,
    first: u64,
    count: u64,
) -> Result<(), AllocError>
    ensures { OnOk result (text.new ≡ text.old ++ line_text (lead_words form lead) (durable_words first count)) }
{
    push_lead(text, form, lead)?;
    text.push_str("durable")?;
    push_spaced_number(text, first)?;
    push_spaced_number(text, count)?;
    text.push_str("\n")
}

#[tactic(auto, unfolding(crate::specs::Texts::line_text, crate::specs::Texts::later_words))]
fn push_later(
    text: &mut Text,
    form: Form,
    lead: Lead,
    granule: u64,
    holder: SessionId,
    mode: Mode,
) -> Result<(), AllocError>
    ensures { OnOk result (text.new ≡ text.old ++ line_text (lead_words form lead) (later_words form granule holder mode)) }
{
    push_lead(text, form, lead)?;
    text.push_str("later")?;
    push_spaced_name(text, Name::Granule(granule))?;
    push_holder(text, form, holder, mode)?;
    text.push_str("\n")
}

#[tactic(auto, unfolding(crate::specs::Texts::holder_words))]
fn push_holder(text: &mut Text, form: Form, holder: SessionId, mode: Mode) -> Result<(), AllocError>
    ensures { OnOk result (text.new ≡ text.old ++ holder_words form holder mode) }
{
    push_spaced_session(text, form, holder)?;
    push_spaced_mode(text, mode)
}
