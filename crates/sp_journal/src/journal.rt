// The writer of a journal.
ghost use Rattle.std.specs.Prelude.{◌≡◌, ◌⊎◌, ◌+◌, ◌^◌, ◌<◌, ◌≤◌, ℕ, IsTrue, List, [], ◌∷◌, ◌++◌, length, Some, IfOk, OnOk, OnErr};
ghost use Rattle.sp_disk.specs.Faults.{Rose};
ghost use Rattle.sp_disk.specs.Moments.{LeavesOnly};
ghost use Rattle.sp_plain.specs.Taking.{taken};
ghost use Rattle.sp_journal.specs.Kinds.{KeepsOneOf};
ghost use Rattle.sp_journal.specs.Recovery.{all_changes};
ghost use Rattle.sp_journal.specs.Standing.{Ledger, Stands, Keeps, Answered, MayLeave, turned, queued_behind, queued_after, flying_after};
ghost use Rattle.sp_rect.specs.declared.record.Record.{Record};

use crate::Call;
use crate::work::{Phase, Work};
use sp_disk::{Disk, DiskError};
use sp_plain::Changes;
use std::alloc::AllocError;

/// A journal over a disk: it writes the batches that are queued, one call of the disk at a time.
#[derive(Drop)]
pub struct Journal<D: Disk> {
    pub(crate) disk: D,
    pub(crate) work: Work,
}

// Writes length, payload and the next gate, which is closed, behind the closed gate.
fn write_body<D: Disk>(disk: &mut D, work: &mut Work) -> Call
    requires phase { work.old.phase ≡ Phase.Ready }
    requires some { 1 ≤ work.old.commits }
    ensures crash { (ledger : Ledger) → IsTrue (D.tells disk.old) → Stands (D.reads disk.old) (D.images disk.old (D.moment disk.old)) work.old ledger → LeavesOnly (D.moment disk.old) (D.moment disk.new) (D.images disk.old) (D.images disk.new) (MayLeave Phase.Ready ledger) }
    ensures kinds { (ledger : Ledger) → IsTrue (D.tells disk.old) → Stands (D.reads disk.old) (D.images disk.old (D.moment disk.old)) work.old ledger → LeavesOnly (D.moment disk.old) (D.moment disk.new) (D.images disk.old) (D.images disk.new) (KeepsOneOf (D.images disk.old (D.moment disk.old))) }
    ensures stands { (ledger : Ledger) → IsTrue (D.tells disk.old) → Stands (D.reads disk.old) (D.images disk.old (D.moment disk.old)) work.old ledger → Stands (D.reads disk.new) (D.images disk.new (D.moment disk.new)) work.new (turned Phase.Ready result ledger) }
    ensures answer { Answered Phase.Ready result work.old work.new }
    ensures changes { work.new.changes ≡ queued_after Phase.Ready result work.old.changes }
    ensures commits { work.new.commits ≡ queued_after Phase.Ready result work.old.commits }
    ensures flying { work.new.flying ≡ flying_after Phase.Ready result work.old.flying work.old.commits }
    ensures fewer { work.new.changes ≤ work.old.changes }
    ensures once { D.moment disk.new ≤ D.moment disk.old + 1 }
    ensures later { D.faults disk.old ≤ D.faults disk.new }
    ensures fault { (at : ℕ) → result ≡ Call.Fault at → (Rose (D.faults disk.old) (D.faults disk.new)) }
    ensures memory { result ≡ Call.Memory → IsTrue (D.takes_memory disk.old) × (disk.new ≡ disk.old) }
    ensures tells { D.tells disk.new ≡ D.tells disk.old }
    ensures takes { D.takes_memory disk.new ≡ D.takes_memory disk.old }
{
    match disk.write_at(work.end + 1, work.queued.as_slice()) {
        Ok(()) => {
            work.take_off();
            Call::Wrote
        }
        Err(DiskError::Fault) => {
            work.advance(Phase::Broken);
            Call::Fault(work.end)
        }
        Err(DiskError::Memory) => Call::Memory,
    }
}

// Settles what stands behind the gate, while the gate is closed.
fn settle_body<D: Disk>(disk: &mut D, work: &mut Work) -> Call
    requires { work.old.phase ≡ Phase.Written }
    ensures crash { (ledger : Ledger) → IsTrue (D.tells disk.old) → Stands (D.reads disk.old) (D.images disk.old (D.moment disk.old)) work.old ledger → LeavesOnly (D.moment disk.old) (D.moment disk.new) (D.images disk.old) (D.images disk.new) (MayLeave Phase.Written ledger) }
    ensures kinds { (ledger : Ledger) → IsTrue (D.tells disk.old) → Stands (D.reads disk.old) (D.images disk.old (D.moment disk.old)) work.old ledger → LeavesOnly (D.moment disk.old) (D.moment disk.new) (D.images disk.old) (D.images disk.new) (KeepsOneOf (D.images disk.old (D.moment disk.old))) }
    ensures stands { (ledger : Ledger) → IsTrue (D.tells disk.old) → Stands (D.reads disk.old) (D.images disk.old (D.moment disk.old)) work.old ledger → Stands (D.reads disk.new) (D.images disk.new (D.moment disk.new)) work.new (turned Phase.Written result ledger) }
    ensures answer { Answered Phase.Written result work.old work.new }
    ensures changes { work.new.changes ≡ queued_after Phase.Written result work.old.changes }
    ensures commits { work.new.commits ≡ queued_after Phase.Written result work.old.commits }
    ensures flying { work.new.flying ≡ flying_after Phase.Written result work.old.flying work.old.commits }
    ensures fewer { work.new.changes ≤ work.old.changes }
    ensures once { D.moment disk.new ≤ D.moment disk.old + 1 }
    ensures later { D.faults disk.old ≤ D.faults disk.new }
    ensures fault { (at : ℕ) → result ≡ Call.Fault at → (Rose (D.faults disk.old) (D.faults disk.new)) }
    ensures memory { result ≡ Call.Memory → IsTrue (D.takes_memory disk.old) × (disk.new ≡ disk.old) }
    ensures tells { D.tells disk.new ≡ D.tells disk.old }
    ensures takes { D.takes_memory disk.new ≡ D.takes_memory disk.old }
{
    match disk.sync() {
        Ok(()) => {
            work.advance(Phase::Settled);
            Call::Wrote
        }
        Err(DiskError::Fault) => {
            work.advance(Phase::Broken);
            Call::Fault(work.end)
        }
        Err(DiskError::Memory) => Call::Memory,
    }
}

// Opens the gate, by a write of its own.
fn open_gate<D: Disk>(disk: &mut D, work: &mut Work) -> Call
    requires { work.old.phase ≡ Phase.Settled }
    ensures crash { (ledger : Ledger) → IsTrue (D.tells disk.old) → Stands (D.reads disk.old) (D.images disk.old (D.moment disk.old)) work.old ledger → LeavesOnly (D.moment disk.old) (D.moment disk.new) (D.images disk.old) (D.images disk.new) (MayLeave Phase.Settled ledger) }
    ensures kinds { (ledger : Ledger) → IsTrue (D.tells disk.old) → Stands (D.reads disk.old) (D.images disk.old (D.moment disk.old)) work.old ledger → LeavesOnly (D.moment disk.old) (D.moment disk.new) (D.images disk.old) (D.images disk.new) (KeepsOneOf (D.images disk.old (D.moment disk.old))) }
    ensures stands { (ledger : Ledger) → IsTrue (D.tells disk.old) → Stands (D.reads disk.old) (D.images disk.old (D.moment disk.old)) work.old ledger → Stands (D.reads disk.new) (D.images disk.new (D.moment disk.new)) work.new (turned Phase.Settled result ledger) }
    ensures answer { Answered Phase.Settled result work.old work.new }
    ensures changes { work.new.changes ≡ queued_after Phase.Settled result work.old.changes }
    ensures commits { work.new.commits ≡ queued_after Phase.Settled result work.old.commits }
    ensures flying { work.new.flying ≡ flying_after Phase.Settled result work.old.flying work.old.commits }
    ensures fewer { work.new.changes ≤ work.old.changes }
    ensures once { D.moment disk.new ≤ D.moment disk.old + 1 }
    ensures later { D.faults disk.old ≤ D.faults disk.new }
    ensures fault { (at : ℕ) → result ≡ Call.Fault at → (Rose (D.faults disk.old) (D.faults disk.new)) }
    ensures memory { result ≡ Call.Memory → IsTrue (D.takes_memory disk.old) × (disk.new ≡ disk.old) }
    ensures tells { D.tells disk.new ≡ D.tells disk.old }
    ensures takes { D.takes_memory disk.new ≡ D.takes_memory disk.old }
{
    match disk.write_at(work.end, &[1]) {
        Ok(()) => {
            work.advance(Phase::Opened);
            Call::Wrote
        }
        Err(DiskError::Fault) => {
            work.advance(Phase::Broken);
            Call::Fault(work.end)
        }
        Err(DiskError::Memory) => Call::Memory,
    }
}

// Settles the gate. From then on the batch stays.
fn settle_gate<D: Disk>(disk: &mut D, work: &mut Work) -> Call
    requires { work.old.phase ≡ Phase.Opened }
    ensures crash { (ledger : Ledger) → IsTrue (D.tells disk.old) → Stands (D.reads disk.old) (D.images disk.old (D.moment disk.old)) work.old ledger → LeavesOnly (D.moment disk.old) (D.moment disk.new) (D.images disk.old) (D.images disk.new) (MayLeave Phase.Opened ledger) }
    ensures kinds { (ledger : Ledger) → IsTrue (D.tells disk.old) → Stands (D.reads disk.old) (D.images disk.old (D.moment disk.old)) work.old ledger → LeavesOnly (D.moment disk.old) (D.moment disk.new) (D.images disk.old) (D.images disk.new) (KeepsOneOf (D.images disk.old (D.moment disk.old))) }
    ensures stands { (ledger : Ledger) → IsTrue (D.tells disk.old) → Stands (D.reads disk.old) (D.images disk.old (D.moment disk.old)) work.old ledger → Stands (D.reads disk.new) (D.images disk.new (D.moment disk.new)) work.new (turned Phase.Opened result ledger) }
    ensures answer { Answered Phase.Opened result work.old work.new }
    ensures changes { work.new.changes ≡ queued_after Phase.Opened result work.old.changes }
    ensures commits { work.new.commits ≡ queued_after Phase.Opened result work.old.commits }
    ensures flying { work.new.flying ≡ flying_after Phase.Opened result work.old.flying work.old.commits }
    ensures fewer { work.new.changes ≤ work.old.changes }
    ensures once { D.moment disk.new ≤ D.moment disk.old + 1 }
    ensures later { D.faults disk.old ≤ D.faults disk.new }
    ensures fault { (at : ℕ) → result ≡ Call.Fault at → (Rose (D.faults disk.old) (D.faults disk.new)) }
    ensures memory { result ≡ Call.Memory → IsTrue (D.takes_memory disk.old) × (disk.new ≡ disk.old) }
    ensures tells { D.tells disk.new ≡ D.tells disk.old }
    ensures takes { D.takes_memory disk.new ≡ D.takes_memory disk.old }
{
    match disk.sync() {
        Ok(()) => {
            let flying = u64::from(work.flying);
            work.land();
            Call::Durable(flying)
        }
        Err(DiskError::Fault) => {
            work.advance(Phase::Broken);
            Call::Fault(work.end)
        }
        Err(DiskError::Memory) => Call::Memory,
    }
}

// The next call of the disk, if there is one to make.
fn step<D: Disk>(disk: &mut D, work: &mut Work) -> Call
    ensures crash { (ledger : Ledger) → IsTrue (D.tells disk.old) → Stands (D.reads disk.old) (D.images disk.old (D.moment disk.old)) work.old ledger → LeavesOnly (D.moment disk.old) (D.moment disk.new) (D.images disk.old) (D.images disk.new) (MayLeave work.old.phase ledger) }
    ensures kinds { (ledger : Ledger) → IsTrue (D.tells disk.old) → Stands (D.reads disk.old) (D.images disk.old (D.moment disk.old)) work.old ledger → LeavesOnly (D.moment disk.old) (D.moment disk.new) (D.images disk.old) (D.images disk.new) (KeepsOneOf (D.images disk.old (D.moment disk.old))) }
    ensures stands { (ledger : Ledger) → IsTrue (D.tells disk.old) → Stands (D.reads disk.old) (D.images disk.old (D.moment disk.old)) work.old ledger → Stands (D.reads disk.new) (D.images disk.new (D.moment disk.new)) work.new (turned work.old.phase result ledger) }
    ensures answer { Answered work.old.phase result work.old work.new }
    ensures changes { work.new.changes ≡ queued_after work.old.phase result work.old.changes }
    ensures commits { work.new.commits ≡ queued_after work.old.phase result work.old.commits }
    ensures flying { work.new.flying ≡ flying_after work.old.phase result work.old.flying work.old.commits }
    ensures fewer { work.new.changes ≤ work.old.changes }
    ensures nothing { work.old.phase ≡ Phase.Ready → work.old.commits ≡ 0 → result ≡ Call.Nothing }
    ensures still { result ≡ Call.Nothing → disk.new ≡ disk.old }
    ensures broken { work.old.phase ≡ Phase.Broken → (result ≡ Call.Fault work.old.end) × (disk.new ≡ disk.old) }
    ensures once { D.moment disk.new ≤ D.moment disk.old + 1 }
    ensures later { D.faults disk.old ≤ D.faults disk.new }
    ensures fault { (at : ℕ) → result ≡ Call.Fault at → (work.old.phase ≡ Phase.Broken) ⊎ Rose (D.faults disk.old) (D.faults disk.new) }
    ensures memory { result ≡ Call.Memory → IsTrue (D.takes_memory disk.old) × (disk.new ≡ disk.old) }
    ensures tells { D.tells disk.new ≡ D.tells disk.old }
    ensures takes { D.takes_memory disk.new ≡ D.takes_memory disk.old }
{
    match work.phase {
        Phase::Ready if work.commits == 0 => Call::Nothing,
        Phase::Ready => write_body(disk, work),
        Phase::Written => settle_body(disk, work),
        Phase::Settled => open_gate(disk, work),
        Phase::Opened => settle_gate(disk, work),
        Phase::Broken => Call::Fault(work.end),
    }
}

impl<D: Disk> Journal<D> {
    /// Adds a commit to the batch that is queued, behind those that are queued already. It makes no call
    /// of the disk, and takes the memory that the writing wants. Where there is none, nothing has changed.
    pub fn queue(&mut self, changes: &Changes) -> Result<(), AllocError>
        requires some { 1 ≤ length changes.now }
        requires few { self.old.work.changes + length changes.now ≤ 2 ^ 20 }
        ensures stands { OnOk result ((ledger : Ledger) (records : List Record) → Stands (D.reads self.old.disk) (D.images self.old.disk (D.moment self.old.disk)) self.old.work ledger → taken (all_changes (ledger.flight ++ (ledger.queued ++ changes.now ∷ []))) ledger.base.found.records ≡ Some records → Stands (D.reads self.new.disk) (D.images self.new.disk (D.moment self.new.disk)) self.new.work (queued_behind ledger changes.now)) }
        ensures same { OnErr result (Keeps self.old.work self.new.work × (self.new.work.phase ≡ self.old.work.phase)) }
        ensures changes { OnOk result (self.new.work.changes ≡ self.old.work.changes + length changes.now) }
        ensures commits { OnOk result (self.new.work.commits ≡ self.old.work.commits + 1) }
        ensures place { (self.new.work.end ≡ self.old.work.end) × (self.new.work.phase ≡ self.old.work.phase) × (self.new.work.flying ≡ self.old.work.flying) }
        ensures disk { self.new.disk ≡ self.old.disk }
    {
        self.work.queue(changes)?;
        Ok(())
    }

    /// Makes the next call of the disk: the body of the batch, a sync, its gate, a sync. The last of
    /// these makes the batch durable. It takes no memory of its own.
    ///
    /// A stop at any moment of it leaves the batches before it, or those and the batch in flight whole,
    /// the second only where the gate was written. After a fault it answers that again, and makes no
    /// call any more.
    pub fn next_call(&mut self) -> Call
        ensures crash { (ledger : Ledger) → IsTrue (D.tells self.old.disk) → Stands (D.reads self.old.disk) (D.images self.old.disk (D.moment self.old.disk)) self.old.work ledger → LeavesOnly (D.moment self.old.disk) (D.moment self.new.disk) (D.images self.old.disk) (D.images self.new.disk) (MayLeave self.old.work.phase ledger) }
        ensures kinds { (ledger : Ledger) → IsTrue (D.tells self.old.disk) → Stands (D.reads self.old.disk) (D.images self.old.disk (D.moment self.old.disk)) self.old.work ledger → LeavesOnly (D.moment self.old.disk) (D.moment self.new.disk) (D.images self.old.disk) (D.images self.new.disk) (KeepsOneOf (D.images self.old.disk (D.moment self.old.disk))) }
        ensures stands { (ledger : Ledger) → IsTrue (D.tells self.old.disk) → Stands (D.reads self.old.disk) (D.images self.old.disk (D.moment self.old.disk)) self.old.work ledger → Stands (D.reads self.new.disk) (D.images self.new.disk (D.moment self.new.disk)) self.new.work (turned self.old.work.phase result ledger) }
        ensures answer { Answered self.old.work.phase result self.old.work self.new.work }
        ensures changes { self.new.work.changes ≡ queued_after self.old.work.phase result self.old.work.changes }
        ensures commits { self.new.work.commits ≡ queued_after self.old.work.phase result self.old.work.commits }
        ensures flying { self.new.work.flying ≡ flying_after self.old.work.phase result self.old.work.flying self.old.work.commits }
        ensures fewer { self.new.work.changes ≤ self.old.work.changes }
        ensures nothing { self.old.work.phase ≡ Phase.Ready → self.old.work.commits ≡ 0 → result ≡ Call.Nothing }
        ensures still { result ≡ Call.Nothing → self.new.disk ≡ self.old.disk }
        ensures broken { self.old.work.phase ≡ Phase.Broken → (result ≡ Call.Fault self.old.work.end) × (self.new.disk ≡ self.old.disk) }
        ensures once { D.moment self.new.disk ≤ D.moment self.old.disk + 1 }
        ensures later { D.faults self.old.disk ≤ D.faults self.new.disk }
        ensures fault { (at : ℕ) → result ≡ Call.Fault at → (self.old.work.phase ≡ Phase.Broken) ⊎ Rose (D.faults self.old.disk) (D.faults self.new.disk) }
        ensures memory { result ≡ Call.Memory → IsTrue (D.takes_memory self.old.disk) × (self.new.disk ≡ self.old.disk) }
        ensures tells { D.tells self.new.disk ≡ D.tells self.old.disk }
        ensures takes { D.takes_memory self.new.disk ≡ D.takes_memory self.old.disk }
    {
        step(&mut self.disk, &mut self.work)
    }

    /// The disk.
    pub fn detach(self) -> D
        ensures { result ≡ self.disk }
    {
        let Journal { disk, work: _ } = self;
        disk
    }
}
