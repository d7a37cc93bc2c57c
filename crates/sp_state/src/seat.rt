// A session that has a transaction.
ghost use Rattle.std.specs.Prelude.{◌≡◌, ◌+◌, ◌≤◌, [], ℕ, Option, None, OnOk, OnErr, IsOk, drop};
ghost use Rattle.std.specs.Option.{option_copied};
ghost use Rattle.sp_model.specs.State.{at_stage};
ghost use Rattle.sp_model.specs.Refusals.{under_way};
ghost use Rattle.sp_model.specs.Moves.{at_place};
ghost use Rattle.sp_state.specs.Stages.{named, awaiting_name, planned, asked, awaiting_need, op_of, kept, area, planned_area, opened, commit_of};

use sp_locks::{Needs, SessionId};
use sp_model::{NeedsLeft, Stage};
use sp_rect::{Answered, Commit, Op, Pairs, Records2, Rect, Reply};
use std::alloc::{AllocError, Global};
use std::marker::Model;
use std::mem::replace;

/// A session with its transaction, and what it is at. Contracts see it as a `Session`. The room for its next
/// operation and reply is made when the operation starts.
#[derive(Drop)]
pub struct Seat {
    number: u64,
    session: SessionId,
    seen: u64,
    ops: Vec<Answered>,
    searches: Records2,
    stage: Stage,
}

impl Model for Seat {
    ghost use Rattle.std.specs.Prelude.{◌+◌, ◌≤◌};
    ghost use Rattle.std.specs.Vec.{vec_len, vec_capacity};
    ghost use Rattle.sp_model.specs.declared.session.Session.{Session};
    ghost use Rattle.sp_model.specs.Refusals.{under_way};

    ghost Value = { Session };

    ghost view = { λ a. record {
      txn = record { number = a.number; session = a.session; seen = a.seen; ops = a.ops.items; searches = a.searches };
      stage = a.stage;
    } };

    ghost invariant = { λ a. vec_len a.ops + under_way a.stage ≤ vec_capacity a.ops };
}

// The rectangle that a planned operation looks at, where it looks at one.
fn planned_area(stage: &Stage) -> Option<Rect>
    ensures { result ≡ planned_area stage.now }
{
    match stage {
        Stage::Planned(op, _) => area(op),
        _ => None,
    }
}

fn area(op: &Op) -> Option<Rect>
    ensures { result ≡ area op.now }
{
    match op {
        Op::Find(rect) | Op::Fill(rect, _) | Op::Clear(rect) => Some(*rect),
        Op::Put(_) | Op::Drop(_) | Op::Set(_, _) | Op::Get(_) => None,
    }
}

impl Seat {
    /// A session with a new transaction. Takes no memory.
    pub fn new(alloc: Global, number: u64, session: SessionId, seen: u64) -> Seat
        ensures { result ≡ opened number session seen }
    {
        Seat {
            number,
            session,
            seen,
            ops: Vec::new(alloc),
            searches: Records2::new(alloc),
            stage: Stage::Idle,
        }
    }

    /// The number of the transaction.
    pub fn number(&self) -> u64
        ensures { result ≡ self.now.txn.number }
    {
        self.number
    }

    /// The session's number.
    pub fn session(&self) -> SessionId
        ensures { result ≡ self.now.txn.session }
    {
        self.session
    }

    /// How many places were taken when the transaction began.
    pub fn seen(&self) -> u64
        ensures { result ≡ self.now.txn.seen }
    {
        self.seen
    }

    /// The operations so far, each with its reply.
    pub fn ops(&self) -> &[Answered]
        ensures { result.now ≡ self.now.txn.ops }
    {
        self.ops.as_slice()
    }

    /// The rectangles in which the transaction has searched.
    pub fn searches(&self) -> &Records2
        ensures { result.now ≡ self.now.txn.searches }
    {
        &self.searches
    }

    /// What the session is at.
    pub fn stage(&self) -> &Stage
        ensures { result.now ≡ self.now.stage }
    {
        &self.stage
    }

    /// The operation that is under way, where one is.
    pub fn op(&self) -> Option<&Op>
        ensures { option_copied result ≡ op_of self.now.stage }
    {
        match &self.stage {
            Stage::Started(op)
            | Stage::NameWait(op)
            | Stage::Named(op)
            | Stage::NeedWait(op)
            | Stage::Planned(op, _) => Some(op),
            Stage::Idle | Stage::Queued | Stage::Placed => None,
        }
    }

    /// An operation starts. Where there is no memory the session is as it was.
    pub fn start(&mut self, op: Op) -> Result<(), AllocError>
        ensures ok { OnOk result (self.new ≡ at_stage (Stage.Started op) self.old) }
        ensures err { OnErr result (self.new ≡ self.old) }
    {
        self.ops.reserve(1)?;
        self.stage = Stage::Started(op);
        Ok(())
    }

    /// The operation has the lock on its object, or asks none. Changes nothing at other stages than those
    /// before. Takes no memory.
    pub fn name(&mut self)
        ensures { self.new ≡ at_stage (named self.old.stage) self.old }
    {
        self.stage = match replace(&mut self.stage, Stage::Idle) {
            Stage::Started(op) => Stage::Named(op),
            Stage::NameWait(op) => Stage::Named(op),
            stage => stage,
        };
    }

    /// The operation waits for the lock on its object. Takes no memory.
    pub fn await_name(&mut self)
        ensures { self.new ≡ at_stage (awaiting_name self.old.stage) self.old }
    {
        self.stage = match replace(&mut self.stage, Stage::Idle) {
            Stage::Started(op) => Stage::NameWait(op),
            stage => stage,
        };
    }

    /// The operation is planned, and these needs are left to ask. Takes no memory.
    pub fn plan(&mut self, needs: Needs)
        ensures { self.new ≡ at_stage (planned needs self.old.stage) self.old }
    {
        self.stage = match replace(&mut self.stage, Stage::Idle) {
            Stage::Named(op) => Stage::Planned(op, NeedsLeft::new(needs)),
            Stage::NeedWait(op) => Stage::Planned(op, NeedsLeft::new(needs)),
            stage => stage,
        };
    }

    /// The next need is met. Takes no memory.
    pub fn pass_need(&mut self)
        ensures { self.new ≡ at_stage (asked self.old.stage) self.old }
    {
        self.stage = match replace(&mut self.stage, Stage::Idle) {
            Stage::Planned(op, left) => Stage::Planned(op, without_first(left)),
            stage => stage,
        };
    }

    /// The operation waits for one of its needs, and plans again. Takes no memory.
    pub fn await_need(&mut self)
        ensures { self.new ≡ at_stage (awaiting_need self.old.stage) self.old }
    {
        self.stage = match replace(&mut self.stage, Stage::Idle) {
            Stage::Planned(op, _left) => Stage::NeedWait(op),
            stage => stage,
        };
    }

    /// The planned operation is done: it joins those of the transaction with its reply, and so does the
    /// rectangle that it looked at. Where there is no memory the session is as it was; an operation that
    /// looks at no rectangle takes none.
    pub fn keep(&mut self, reply: Reply) -> Result<(), AllocError>
        ensures ok { OnOk result (self.new ≡ kept reply self.old) }
        ensures err { OnErr result (self.new ≡ self.old) }
        ensures sure { planned_area self.old.stage ≡ None → IsOk result }
    {
        if let Some(rect) = planned_area(&self.stage) {
            self.searches.push(rect)?;
        }
        match replace(&mut self.stage, Stage::Idle) {
            Stage::Planned(op, _left) => self.ops.push_reserved(Answered { op, reply }),
            stage => self.stage = stage,
        }
        Ok(())
    }

    /// The session has no operation under way, and is at this stage. Takes no memory.
    pub fn rest(&mut self, stage: Stage)
        requires { under_way stage ≡ 0 }
        ensures { self.new ≡ at_stage stage self.old }
    {
        self.stage = stage;
    }

    /// The transaction takes the place, and its operations go to the audit: the session is left without any.
    /// Takes no memory.
    pub fn take_place(&mut self, alloc: Global, place: u64) -> Commit
        ensures commit { result ≡ commit_of self.old place }
        ensures placed { self.new ≡ at_place self.old }
    {
        let ops = replace(&mut self.ops, Vec::new(alloc));
        self.searches = Records2::new(alloc);
        self.stage = Stage::Placed;
        Commit {
            session: self.session,
            txn: self.number,
            seen: self.seen,
            place,
            ops: Pairs::from_vec(ops),
        }
    }

    /// The commit of the transaction at this place. Takes no memory.
    pub fn into_commit(self, place: u64) -> Commit
        ensures { result ≡ commit_of self place }
    {
        Commit {
            session: self.session,
            txn: self.number,
            seen: self.seen,
            place,
            ops: Pairs::from_vec(self.ops),
        }
    }
}

// The needs without the next one.
fn without_first(left: NeedsLeft) -> NeedsLeft
    ensures { result ≡ drop 1 left }
{
    let mut left = left;
    if !left.is_empty() {
        left.advance();
    }
    left
}
