// What transactions have done to an entry.
ghost use Rattle.std.specs.Prelude.{◌≡◌};
ghost use Rattle.sp_node.specs.Marks.{is_made_by, is_ended_by, is_draft_of, made_settled, ended_settled, ended_undone, draft_left, drafted};

use sp_list::Duplicate;
use sp_rect::Value;
use std::alloc::{AllocError, Global};
use std::mem;

/// Who made an entry: a transaction that is not committed yet, or it is committed.
#[derive(Clone, Copy, Debug, PartialEq, Eq, Drop)]
pub enum Made {
    Committed,
    By(u64),
}

/// Who ended an entry: nobody, a transaction that is not committed yet, or the end is final. A done entry
/// is dead, and stands in the tree until it is removed.
#[derive(Clone, Copy, Debug, PartialEq, Eq, Drop)]
pub enum Ended {
    Nobody,
    By(u64),
    Done,
}

/// The value that a transaction has set in place of the entry's, until it commits.
#[derive(Drop)]
pub enum Draft {
    None,
    Of(u64, Value),
}

/// The marks of transactions on an entry, by transaction numbers.
#[derive(Drop)]
pub struct Marks {
    pub made: Made,
    pub ended: Ended,
    pub draft: Draft,
}

impl Made {
    /// Whether the transaction made it, and has not committed.
    pub fn is_by(self, txn: u64) -> bool
        ensures { result ≡ is_made_by txn self }
    {
        match self {
            Made::By(by) => by == txn,
            Made::Committed => false,
        }
    }

    // What the transaction made is committed.
    fn settled(self, txn: u64) -> Made
        ensures { result ≡ made_settled txn self }
    {
        if self.is_by(txn) {
            Made::Committed
        } else {
            self
        }
    }
}

impl Ended {
    /// Whether the transaction ended it, and has not committed.
    pub fn is_by(self, txn: u64) -> bool
        ensures { result ≡ is_ended_by txn self }
    {
        match self {
            Ended::By(by) => by == txn,
            Ended::Nobody | Ended::Done => false,
        }
    }

    // What the transaction ended is done.
    fn settled(self, txn: u64) -> Ended
        ensures { result ≡ ended_settled txn self }
    {
        if self.is_by(txn) { Ended::Done } else { self }
    }

    // What the transaction made is done, and what else it ended is ended by nobody.
    fn undone(self, made: Made, txn: u64) -> Ended
        ensures { result ≡ ended_undone txn made self }
    {
        if made.is_by(txn) {
            Ended::Done
        } else if self.is_by(txn) {
            Ended::Nobody
        } else {
            self
        }
    }
}

impl Draft {
    /// Whether it is a draft of the transaction.
    pub fn is_of(&self, txn: u64) -> bool
        ensures { result ≡ is_draft_of txn self.now }
    {
        match self {
            Draft::Of(by, _) => *by == txn,
            Draft::None => false,
        }
    }
}

impl Duplicate for Draft {
    fn copy(&self, alloc: Global) -> Result<Draft, AllocError> {
        match self {
            Draft::None => Ok(Draft::None),
            Draft::Of(txn, value) => Ok(Draft::Of(*txn, value.copy(alloc)?)),
        }
    }
}

// The transaction's draft becomes the value.
fn settle_draft(draft: &mut Draft, value: &mut Value, txn: u64)
    ensures draft { draft.new ≡ draft_left txn draft.old }
    ensures value { value.new ≡ drafted txn draft.old value.old }
{
    match mem::replace(draft, Draft::None) {
        Draft::Of(by, text) if by == txn => *value = text,
        other => *draft = other,
    }
}

// The transaction's draft goes.
fn drop_draft(draft: &mut Draft, txn: u64)
    ensures { draft.new ≡ draft_left txn draft.old }
{
    if draft.is_of(txn) {
        *draft = Draft::None;
    }
}

impl Marks {
    // What a commit of the transaction leaves of the marks, and of the value that they stand with.
    pub(crate) fn settle(&mut self, value: &mut Value, txn: u64)
        ensures made { self.new.made ≡ made_settled txn self.old.made }
        ensures ended { self.new.ended ≡ ended_settled txn self.old.ended }
        ensures draft { self.new.draft ≡ draft_left txn self.old.draft }
        ensures value { value.new ≡ drafted txn self.old.draft value.old }
    {
        self.made = self.made.settled(txn);
        self.ended = self.ended.settled(txn);
        settle_draft(&mut self.draft, value, txn);
    }

    // What a rollback of the transaction leaves of the marks.
    pub(crate) fn undo(&mut self, txn: u64)
        ensures made { self.new.made ≡ self.old.made }
        ensures ended { self.new.ended ≡ ended_undone txn self.old.made self.old.ended }
        ensures draft { self.new.draft ≡ draft_left txn self.old.draft }
    {
        self.ended = self.ended.undone(self.made, txn);
        drop_draft(&mut self.draft, txn);
    }
}

impl Duplicate for Marks {
    fn copy(&self, alloc: Global) -> Result<Marks, AllocError> {
        let draft = self.draft.copy(alloc)?;
        Ok(Marks {
            made: self.made,
            ended: self.ended,
            draft,
        })
    }
}
