// What a journal is to write, and how far it has come.
ghost use Rattle.std.specs.Prelude.{◌≡◌, ◌+◌, ◌*◌, ◌^◌, ◌<◌, ◌≤◌, [], length, IfOk};
ghost use Rattle.sp_journal.specs.Format.{framed};

use crate::{encode, frames};
use sp_plain::Changes;
use std::alloc::{AllocError, Global};
use std::mem;

/// How far the writing of an entry has come. Each of the first four is ended by one call of the disk.
#[derive(Clone, Copy, PartialEq, Eq)]
pub enum Phase {
    /// Nothing is in flight, and the gate at the end is closed.
    Ready,
    /// Length, payload and the next gate, which is closed, are written behind the closed gate.
    Written,
    /// They are settled.
    Settled,
    /// The gate in front of them is open.
    Opened,
    /// The disk has failed.
    Broken,
}

/// The batches that a journal is to write.
#[derive(Drop)]
pub struct Work {
    pub alloc: Global,
    /// The offset of the gate behind all entries.
    pub end: u64,
    /// The offset of the gate behind the batch in flight.
    pub next: u64,
    pub phase: Phase,
    /// The batch in flight as it is written behind the gate, and the number of its commits.
    pub flight: Vec<u8>,
    pub flying: u32,
    /// The batch that is queued, in the same form, and the numbers of its commits and changes.
    pub queued: Vec<u8>,
    pub commits: u32,
    pub changes: u32,
    ghost end_fits: { end < 2 ^ 63 },
    ghost next_fits: { next < 2 ^ 63 },
    ghost flight_long: { 9 ≤ length flight.items },
    ghost queued_long: { 9 ≤ length queued.items },
    ghost queued_short: { length queued.items ≤ 9 + 94 * changes },
    ghost few_changes: { changes ≤ 2 ^ 20 },
    ghost few_commits: { commits ≤ changes },
}

impl Work {
    ghost use Rattle.std.specs.Prelude.{◌≡◌, ◌+◌, ◌^◌, ◌<◌, ◌≤◌, List, [], ◌∷◌, ◌++◌, length, IfOk, OnOk, OnErr};
    ghost use Rattle.sp_plain.specs.declared.change.Change.{Change};
    ghost use Rattle.sp_journal.specs.Format.{framed, AllChanges};
    ghost use Rattle.sp_journal.specs.Standing.{Keeps};

    /// Nothing to write, behind the entries that end there.
    pub fn new(alloc: Global, end: u64) -> Result<Work, AllocError>
        requires { end < 2 ^ 63 }
        ensures end { IfOk result (λ work. work.end ≡ end) }
        ensures phase { IfOk result (λ work. work.phase ≡ Phase.Ready) }
        ensures flight { IfOk result (λ work. (work.flight.items ≡ framed []) × (work.flying ≡ 0)) }
        ensures queued { IfOk result (λ work. (work.queued.items ≡ framed []) × (work.commits ≡ 0) × (work.changes ≡ 0)) }
    {
        Ok(Work {
            alloc,
            end,
            next: end,
            phase: Phase::Ready,
            flight: empty(alloc)?,
            flying: 0,
            queued: empty(alloc)?,
            commits: 0,
            changes: 0,
        })
    }

    /// Adds a commit to the batch that is queued.
    pub fn queue(&mut self, changes: &Changes) -> Result<(), AllocError>
        requires some { 1 ≤ length changes.now }
        requires few { self.old.changes + length changes.now ≤ 2 ^ 20 }
        ensures queued { OnOk result ((q : List (List Change)) → self.old.queued.items ≡ framed q → self.old.commits ≡ length q → self.new.queued.items ≡ framed (q ++ changes.now ∷ [])) }
        ensures valid { OnOk result (AllChanges changes.now) }
        ensures commits { OnOk result (self.new.commits ≡ self.old.commits + 1) }
        ensures changes { OnOk result (self.new.changes ≡ self.old.changes + length changes.now) }
        ensures same_queue { OnErr result ((self.new.queued.items ≡ self.old.queued.items) × (self.new.commits ≡ self.old.commits) × (self.new.changes ≡ self.old.changes)) }
        ensures flight { (self.new.flight ≡ self.old.flight) × (self.new.flying ≡ self.old.flying) }
        ensures place { (self.new.end ≡ self.old.end) × (self.new.next ≡ self.old.next) × (self.new.phase ≡ self.old.phase) }
    {
        let commit = encode::commit(self.alloc, changes)?;
        frames::add(&mut self.queued, commit.as_slice(), self.commits + 1)?;
        self.changes += changes.len() as u32;
        self.commits += 1;
        Ok(())
    }

    /// The queued batch takes off: its body is written.
    pub fn take_off(&mut self)
        requires { self.old.end + length self.old.queued.items < 2 ^ 63 }
        ensures flight { (self.new.flight.items ≡ self.old.queued.items) × (self.new.flying ≡ self.old.commits) }
        ensures queued { (self.new.queued.items ≡ framed []) × (self.new.commits ≡ 0) × (self.new.changes ≡ 0) }
        ensures place { (self.new.end ≡ self.old.end) × (self.new.next ≡ self.old.end + length self.old.queued.items) × (self.new.phase ≡ Phase.Written) }
    {
        self.next = self.end + self.queued.len() as u64;
        mem::swap(&mut self.flight, &mut self.queued);
        frames::clear(&mut self.queued);
        self.flying = self.commits;
        self.commits = 0;
        self.changes = 0;
        self.phase = Phase::Written;
    }

    /// The writing of the entry goes on in that phase.
    pub fn advance(&mut self, phase: Phase)
        ensures phase { self.new.phase ≡ phase }
        ensures same { Keeps self.old self.new }
    {
        self.phase = phase;
    }

    /// The batch in flight has become an entry.
    pub fn land(&mut self)
        ensures flight { (self.new.flight.items ≡ framed []) × (self.new.flying ≡ 0) }
        ensures queued { (self.new.queued ≡ self.old.queued) × (self.new.commits ≡ self.old.commits) × (self.new.changes ≡ self.old.changes) }
        ensures place { (self.new.end ≡ self.old.next) × (self.new.phase ≡ Phase.Ready) }
    {
        self.end = self.next;
        frames::clear(&mut self.flight);
        self.flying = 0;
        self.phase = Phase::Ready;
    }
}

// The batch without commits.
fn empty(alloc: Global) -> Result<Vec<u8>, AllocError>
    ensures { IfOk result (λ buf. (buf.items ≡ framed []) × (length buf.items ≡ 9)) }
{
    let mut buf = Vec::new(alloc);
    buf.resize(9, 0)?;
    frames::clear(&mut buf);
    Ok(buf)
}
