// The audit of a run.
ghost use Rattle.std.specs.Prelude.{◌≡◌, ◌+◌, ◌≤◌, ◌∷◌, ◌++◌, [], OnOk};
ghost use Rattle.sp_rect.specs.Store.{IsOrdered};
ghost use Rattle.sp_rect.specs.Serial.{Serial};
ghost use Rattle.sp_audit.specs.History.{History};

use crate::ended::Ended;
use sp_rect::{Commit, Records};
use std::alloc::{AllocError, Global};
use std::marker::Model;

/// The records at opening, the commits by place, and the transactions that a deadlock ended, in order.
/// It is always serial: the commits, run one at a time in order of place from the records at opening, give
/// exactly their kept replies, and each place is greater than its `seen`.
#[derive(Drop)]
pub struct Audit {
    base: Records,
    commits: Vec<Commit>,
    ended: Vec<Ended>,
}

impl Model for Audit {
    ghost use Rattle.std.specs.Prelude.{◌-◌, min};
    ghost use Rattle.std.specs.Vec.{vec_len, vec_capacity};
    ghost use Rattle.sp_rect.specs.Store.{IsOrdered};
    ghost use Rattle.sp_rect.specs.Serial.{Serial};
    ghost use Rattle.sp_audit.specs.History.{History};

    ghost Value = { History };

    ghost view = { λ a. record { base = a.base; commits = a.commits.items; ended = a.ended.items; spare = min (vec_capacity a.commits - vec_len a.commits) (vec_capacity a.ended - vec_len a.ended) } };

    ghost invariant = { λ a. IsOrdered a.base × Serial a.base a.commits.items };
}

impl Audit {
    /// The audit of a run that opens with these records. Takes no memory.
    pub fn new(alloc: Global, base: Records) -> Audit
        requires { IsOrdered base }
        ensures base { result.base ≡ base }
        ensures commits { result.commits ≡ [] }
        ensures ended { result.ended ≡ [] }
    {
        Audit {
            base,
            commits: Vec::new(alloc),
            ended: Vec::new(alloc),
        }
    }

    /// The records at opening, by ascending id.
    pub fn base(&self) -> &Records
        ensures base { result.now ≡ self.now.base }
        ensures ordered { IsOrdered self.now.base }
    {
        &self.base
    }

    /// The commits, by place.
    pub fn commits(&self) -> &[Commit]
        ensures commits { result.now ≡ self.now.commits }
        ensures serial { Serial self.now.base self.now.commits }
    {
        self.commits.as_slice()
    }

    /// The transactions that a deadlock ended, in the order of their end.
    pub fn ended(&self) -> &[Ended]
        ensures { result.now ≡ self.now.ended }
    {
        self.ended.as_slice()
    }

    /// Makes room for at least `n` more members of each list. Where there is no memory the room is no less
    /// than it was.
    pub fn reserve(&mut self, n: usize) -> Result<(), AllocError>
        ensures room { OnOk result (n ≤ self.new.spare) }
        ensures no_less { self.old.spare ≤ self.new.spare }
        ensures base { self.new.base ≡ self.old.base }
        ensures commits { self.new.commits ≡ self.old.commits }
        ensures ended { self.new.ended ≡ self.old.ended }
    {
        self.commits.reserve(n)?;
        self.ended.reserve(n)
    }

    /// Adds the commit at the end. It is to be serial with those before it. Takes no memory, and one place
    /// of the room at most.
    pub fn add(&mut self, commit: Commit)
        requires room { 1 ≤ self.old.spare }
        requires serial { Serial self.old.base (self.old.commits ++ commit ∷ []) }
        ensures base { self.new.base ≡ self.old.base }
        ensures commits { self.new.commits ≡ self.old.commits ++ commit ∷ [] }
        ensures ended { self.new.ended ≡ self.old.ended }
        ensures room { self.old.spare ≤ self.new.spare + 1 }
    {
        self.commits.push_reserved(commit);
    }

    /// Adds the ended transaction at the end. Takes no memory, and one place of the room at most.
    pub fn end(&mut self, ended: Ended)
        requires { 1 ≤ self.old.spare }
        ensures base { self.new.base ≡ self.old.base }
        ensures commits { self.new.commits ≡ self.old.commits }
        ensures ended { self.new.ended ≡ self.old.ended ++ ended ∷ [] }
        ensures room { self.old.spare ≤ self.new.spare + 1 }
    {
        self.ended.push_reserved(ended);
    }
}
