// The kernel.
ghost use Rattle.std.specs.Prelude.{◌≡◌, ◌≢◌, ◌≤◌, ◌+◌, ℕ, List, IsTrue, IfOk, IfErr, MatchResult, length};
ghost use Rattle.sp_rect.specs.declared.record.Record.{Record as AnyRecord};
ghost use Rattle.sp_node.specs.Table.{IsShape};
ghost use Rattle.sp_disk.specs.Faults.{Rose};
ghost use Rattle.sp_disk.specs.Moments.{LeavesOnly};
ghost use Rattle.sp_journal.specs.Kinds.{KeepsKind, KeepsOneOf};
ghost use Rattle.sp_journal.specs.Opening.{Opens, RecoversAs, BeginsAs};
ghost use Rattle.sp_model.specs.Opening.{IsOpened};
ghost use Rattle.sp_model.specs.Soundness.{Sound};
ghost use Rattle.sp_durable.specs.Recovered.{IsLeftInCall, HoldsOrMore};
ghost use Rattle.sp_kernel.specs.Answers.{Answers, MayWant};
ghost use Rattle.sp_kernel.specs.Starting.{IsStartedOver, RefusedOver, told_as};

use crate::proceeding::proceed;
use sp_audit::Audit;
use sp_disk::Disk;
use sp_event::{Answer, Event};
use sp_journal::{Journal, JournalError};
use sp_node::Shape;
use sp_opening::open_state;
use sp_state::{State, turned_away};
use std::alloc::Global;
use std::marker::Model;

/// Why a kernel could not be started.
#[derive(Clone, Copy, Debug, PartialEq, Eq)]
pub enum StartError {
    /// The file is no journal.
    Foreign,
    /// The gate at this offset is open, and no whole entry that can be applied stands behind it.
    Damaged(u64),
    /// The disk failed.
    DiskFault,
    /// There was no memory.
    Memory,
}

/// A kernel over a disk: the tree, the locks, the sessions, the audit and the journal. Every kernel is sound, and
/// over a disk that tells its bytes its journal agrees with it: so the audit is serial, and whatever a stop leaves
/// is recovered to all commits that have their places, or to these and the whole batch in flight.
#[derive(Drop)]
pub struct Kernel<D: Disk> {
    alloc: Global,
    state: State,
    journal: Journal<D>,
}

impl<D: Disk> Model for Kernel<D> {
    ghost use Rattle.sp_kernel.specs.Whole.{Whole, IsWhole};

    ghost Value = { Whole D };

    ghost use Rattle.sp_state.specs.Held.{kernel_of, Fits};

    ghost view = { λ a. record { kernel = kernel_of a.state; work = a.journal.work; disk = a.journal.disk } };

    ghost invariant = { λ a. record {
      whole : IsWhole (kernel_of a.state) a.journal.work (D.tells a.journal.disk) (D.reads a.journal.disk) (D.images a.journal.disk (D.moment a.journal.disk));
      fits : Fits a.state;
    } };
}

// What a journal that could not be opened is told as.
fn refusal_of(error: JournalError) -> StartError
    ensures { result ≡ told_as error }
{
    match error {
        JournalError::Foreign => StartError::Foreign,
        JournalError::Damaged(offset) => StartError::Damaged(offset),
        JournalError::Fault => StartError::DiskFault,
        JournalError::Worn | JournalError::Memory => StartError::Memory,
    }
}

impl<D: Disk> Kernel<D> {
    /// Starts a kernel over the journal on the disk: the tree is rebuilt from the records by insertion in order of
    /// id, and nothing has happened. `shape` bounds the members of a node. Over a disk that tells its bytes `Foreign`
    /// and `Damaged` come only where the file is so, and leave it as it was. `DiskFault` comes only where the disk's
    /// count of faults rose. With an error the disk is handed back.
    ///
    /// From the first sync on, which is the first call, a stop at any moment leaves a file that is recovered to the
    /// same, and keeps its kind; so does whatever a stop leaves of a kernel that has started, and it begins with the
    /// header of the settled file, or with that of a new one, of version 2. Costs the file, and an insertion for each
    /// record.
    pub fn start(alloc: Global, disk: D, shape: Shape) -> Result<Kernel<D>, (D, StartError)>
        requires { IsShape shape }
        ensures opened { IfOk result (λ kernel. (records : List AnyRecord) × IsOpened shape records kernel.kernel) }
        ensures started { IsTrue (D.tells disk) → IfOk result (λ kernel. IsStartedOver (D.reads disk) shape kernel.kernel) }
        ensures refused { IsTrue (D.tells disk) → IfErr result (λ e. RefusedOver e.1 (D.reads disk) (D.reads e.0)) }
        ensures crash { IsTrue (D.tells disk) → MatchResult result (λ kernel. Opens (D.moment disk) (D.moment kernel.disk) (D.images disk) (D.images kernel.disk) (RecoversAs (D.reads disk))) (λ e. Opens (D.moment disk) (D.moment e.0) (D.images disk) (D.images e.0) (RecoversAs (D.reads disk))) }
        ensures kinds { IsTrue (D.tells disk) → MatchResult result (λ kernel. Opens (D.moment disk) (D.moment kernel.disk) (D.images disk) (D.images kernel.disk) (KeepsKind (D.reads disk))) (λ e. Opens (D.moment disk) (D.moment e.0) (D.images disk) (D.images e.0) (KeepsKind (D.reads disk))) }
        ensures kept { IsTrue (D.tells disk) → IfOk result (λ kernel. (file : List ℕ) → D.images kernel.disk (D.moment kernel.disk) file → KeepsKind (D.reads disk) file) }
        ensures begins { IsTrue (D.tells disk) → IfOk result (λ kernel. (file : List ℕ) → D.images kernel.disk (D.moment kernel.disk) file → BeginsAs (D.reads disk) file) }
        ensures later { MatchResult result (λ kernel. D.faults disk ≤ D.faults kernel.disk) (λ e. D.faults disk ≤ D.faults e.0) }
        ensures fault { IfErr result (λ e. e.1 ≡ StartError.DiskFault → Rose (D.faults disk) (D.faults e.0)) }
        ensures tells { MatchResult result (λ kernel. D.tells kernel.disk ≡ D.tells disk) (λ e. D.tells e.0 ≡ D.tells disk) }
        ensures takes { MatchResult result (λ kernel. D.takes_memory kernel.disk ≡ D.takes_memory disk) (λ e. D.takes_memory e.0 ≡ D.takes_memory disk) }
    {
        let (journal, found) = match Journal::attach(alloc, disk) {
            Ok(attached) => attached,
            Err((disk, error)) => return Err((disk, refusal_of(error))),
        };
        match open_state(alloc, shape, found.records) {
            Ok(state) => Ok(Kernel {
                alloc,
                state,
                journal,
            }),
            Err(_) => Err((journal.detach(), StartError::Memory)),
        }
    }

    /// Does one event, whole, and answers it: the one place where a kernel changes.
    ///
    /// The answer is the first, in their order, whose condition holds, and the kernel is changed by it as `Answers`
    /// says; after `Memory` nothing has changed. Over a disk that tells its bytes, at every moment of the call a stop
    /// leaves a file that is recovered to all commits that have their places, or, where the gate of the batch in flight
    /// may be written, to these and the whole batch; and that file keeps the kind and the header of one that a stop
    /// before the call might have left. `DiskFault` comes of a flush alone, and only where the disk's count of faults rose. Only a
    /// flush calls the disk, and once at most. `Memory` never comes of a rollback, of a commit that has nothing to
    /// queue, or of a flush over a disk that takes no memory.
    ///
    /// An event costs what it touches: a search the nodes that meet it, a put or a removal its path and what its short
    /// locks look at, a commit its changes and the entries that bear its marks, a release the session's
    /// rows.
    pub fn step(&mut self, event: Event) -> Answer
        ensures answers { Answers self.old.kernel event result self.new.kernel }
        ensures crash { IsTrue (D.tells self.old.disk) → LeavesOnly (D.moment self.old.disk) (D.moment self.new.disk) (D.images self.old.disk) (D.images self.new.disk) (IsLeftInCall self.old.work.phase self.old.kernel) }
        ensures kinds { IsTrue (D.tells self.old.disk) → LeavesOnly (D.moment self.old.disk) (D.moment self.new.disk) (D.images self.old.disk) (D.images self.new.disk) (KeepsOneOf (D.images self.old.disk (D.moment self.old.disk))) }
        ensures still { event ≢ Event.Flush → self.new.disk ≡ self.old.disk }
        ensures once { D.moment self.new.disk ≤ D.moment self.old.disk + 1 }
        ensures memory { result ≡ Answer.Memory → MayWant (D.takes_memory self.old.disk) self.old.kernel event }
        ensures later { D.faults self.old.disk ≤ D.faults self.new.disk }
        ensures fault { result ≡ Answer.DiskFault → Rose (D.faults self.old.disk) (D.faults self.new.disk) }
        ensures tells { D.tells self.new.disk ≡ D.tells self.old.disk }
        ensures takes { D.takes_memory self.new.disk ≡ D.takes_memory self.old.disk }
    {
        match turned_away(&self.state, &event) {
            Some(answer) => answer,
            None => proceed(self.alloc, &mut self.state, &mut self.journal, event),
        }
    }

    /// What was committed, and what deadlocks ended. Takes no memory. Over a disk that tells its bytes, a stop now leaves
    /// a file that is recovered to all commits that have their places, or to these and the whole batch in flight.
    pub fn audit(&self) -> &Audit
        ensures base { result.now.base ≡ self.now.kernel.base }
        ensures commits { result.now.commits ≡ self.now.kernel.commits }
        ensures ended { result.now.ended ≡ self.now.kernel.ended }
        ensures sound { Sound self.now.kernel }
        ensures left { IsTrue (D.tells self.now.disk) → (file : List ℕ) → D.images self.now.disk (D.moment self.now.disk) file → HoldsOrMore self.now.kernel file }
    {
        &self.state.audit
    }

    /// The offset of the entry in flight where the disk failed, if it has. Takes no memory.
    pub fn stopped(&self) -> Option<u64>
        ensures { result ≡ self.now.kernel.stopped }
    {
        self.state.stopped
    }

    /// How many dead entries wait to be removed. Takes no memory.
    pub fn dead(&self) -> usize
        ensures { result ≡ length self.now.kernel.dead }
    {
        self.state.dead.len()
    }

    /// The audit and the disk. Takes no memory.
    pub fn finish(self) -> (Audit, D)
        ensures base { result.0.base ≡ self.kernel.base }
        ensures commits { result.0.commits ≡ self.kernel.commits }
        ensures ended { result.0.ended ≡ self.kernel.ended }
        ensures disk { result.1 ≡ self.disk }
    {
        let Kernel {
            alloc: _,
            state,
            journal,
        } = self;
        (state.audit, journal.detach())
    }
}
