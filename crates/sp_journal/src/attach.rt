// A file is opened for writing.
ghost use Rattle.std.specs.Prelude.{◌≡◌, ◌≤◌, ◌^◌, ◌<◌, ℕ, List, IsTrue, IfOk, IfErr, OnOk, OnErr, IsErrOf, MatchResult};
ghost use Rattle.sp_disk.specs.Faults.{HasCause, Rose};
ghost use Rattle.sp_disk.specs.Moments.{LeavesOnly};
ghost use Rattle.sp_journal.specs.declared.types.Recovered.{Recovered as RecoveredOf};
ghost use Rattle.sp_journal.specs.Kinds.{IsKind, KeepsKind};
ghost use Rattle.sp_journal.specs.Opening.{RecoversAs, Opens, BeginsAs, IsReady, IsAttached, Refused};
ghost use Rattle.sp_journal.specs.Scanning.{Held, AreHeld};

use crate::create::create;
use crate::kind::Kind;
use crate::scan::scan_file;
use crate::scanned::Scan;
use crate::work::{Phase, Work};
use crate::{Journal, JournalError, Recovered};
use sp_disk::{Disk, DiskError};
use std::alloc::Global;

// Makes the file anew where that is due.
fn prepare<D: Disk>(disk: &mut D, kind: Kind) -> Result<(), DiskError>
    ensures ready { (end : ℕ) (found : RecoveredOf) → IsTrue (D.tells disk.old) → IsKind (D.reads disk.old) kind → Held kind (D.reads disk.old) end found → ((file : List ℕ) → D.images disk.old (D.moment disk.old) file → file ≡ D.reads disk.old) → OnOk result (IsReady (D.reads disk.old) (D.reads disk.new) (D.images disk.new (D.moment disk.new)) end found) }
    ensures crash { IsTrue (D.tells disk.old) → IsKind (D.reads disk.old) kind → ((file : List ℕ) → D.images disk.old (D.moment disk.old) file → file ≡ D.reads disk.old) → LeavesOnly (D.moment disk.old) (D.moment disk.new) (D.images disk.old) (D.images disk.new) (RecoversAs (D.reads disk.old)) }
    ensures kinds { IsTrue (D.tells disk.old) → IsKind (D.reads disk.old) kind → ((file : List ℕ) → D.images disk.old (D.moment disk.old) file → file ≡ D.reads disk.old) → LeavesOnly (D.moment disk.old) (D.moment disk.new) (D.images disk.old) (D.images disk.new) (KeepsKind (D.reads disk.old)) }
    ensures cause { HasCause (D.takes_memory disk.old) (D.faults disk.old) (D.faults disk.new) result }
    ensures tells { D.tells disk.new ≡ D.tells disk.old }
    ensures takes { D.takes_memory disk.new ≡ D.takes_memory disk.old }
{
    match kind {
        Kind::Empty | Kind::Unfinished => create(disk),
        Kind::Foreign | Kind::Settled { .. } => Ok(()),
    }
}

// Reads a file of which a stop leaves what a read gives, and prepares it.
fn start<D: Disk>(alloc: Global, disk: &mut D) -> Result<(Work, Recovered), JournalError>
    ensures attached { IsTrue (D.tells disk.old) → ((file : List ℕ) → D.images disk.old (D.moment disk.old) file → file ≡ D.reads disk.old) → IfOk result (λ p. IsAttached (D.reads disk.old) (D.reads disk.new) (D.images disk.new (D.moment disk.new)) p.0 p.1) }
    ensures fresh { IfOk result (λ p. (p.0.phase ≡ Phase.Ready) × (p.0.flying ≡ 0) × (p.0.commits ≡ 0) × (p.0.changes ≡ 0)) }
    ensures held { IfOk result (λ p. AreHeld p.1.records) }
    ensures refused { IsTrue (D.tells disk.old) → IfErr result (λ e. Refused e (D.reads disk.old) (D.reads disk.new)) }
    ensures crash { IsTrue (D.tells disk.old) → ((file : List ℕ) → D.images disk.old (D.moment disk.old) file → file ≡ D.reads disk.old) → LeavesOnly (D.moment disk.old) (D.moment disk.new) (D.images disk.old) (D.images disk.new) (RecoversAs (D.reads disk.old)) }
    ensures kinds { IsTrue (D.tells disk.old) → ((file : List ℕ) → D.images disk.old (D.moment disk.old) file → file ≡ D.reads disk.old) → LeavesOnly (D.moment disk.old) (D.moment disk.new) (D.images disk.old) (D.images disk.new) (KeepsKind (D.reads disk.old)) }
    ensures later { D.faults disk.old ≤ D.faults disk.new }
    ensures fault { IsErrOf result JournalError.Fault → Rose (D.faults disk.old) (D.faults disk.new) }
    ensures tells { D.tells disk.new ≡ D.tells disk.old }
    ensures takes { D.takes_memory disk.new ≡ D.takes_memory disk.old }
{
    let Scan { kind, end, found } = scan_file(alloc, disk)?;
    let work = Work::new(alloc, end)?;
    prepare(disk, kind)?;
    Ok((work, found))
}

// Settles a file, reads it and prepares it.
fn open<D: Disk>(alloc: Global, disk: &mut D) -> Result<(Work, Recovered), JournalError>
    ensures attached { IsTrue (D.tells disk.old) → IfOk result (λ p. IsAttached (D.reads disk.old) (D.reads disk.new) (D.images disk.new (D.moment disk.new)) p.0 p.1) }
    ensures fresh { IfOk result (λ p. (p.0.phase ≡ Phase.Ready) × (p.0.flying ≡ 0) × (p.0.commits ≡ 0) × (p.0.changes ≡ 0)) }
    ensures held { IfOk result (λ p. AreHeld p.1.records) }
    ensures refused { IsTrue (D.tells disk.old) → IfErr result (λ e. Refused e (D.reads disk.old) (D.reads disk.new)) }
    ensures crash { IsTrue (D.tells disk.old) → Opens (D.moment disk.old) (D.moment disk.new) (D.images disk.old) (D.images disk.new) (RecoversAs (D.reads disk.old)) }
    ensures kinds { IsTrue (D.tells disk.old) → Opens (D.moment disk.old) (D.moment disk.new) (D.images disk.old) (D.images disk.new) (KeepsKind (D.reads disk.old)) }
    ensures later { D.faults disk.old ≤ D.faults disk.new }
    ensures fault { IsErrOf result JournalError.Fault → Rose (D.faults disk.old) (D.faults disk.new) }
    ensures tells { D.tells disk.new ≡ D.tells disk.old }
    ensures takes { D.takes_memory disk.new ≡ D.takes_memory disk.old }
{
    disk.sync()?;
    start(alloc, disk)
}

impl<D: Disk> Journal<D> {
    /// Opens the journal that stands on the disk, and tells what it holds. It begins with a sync, so that
    /// nothing is pending. A file that holds nothing is made anew where its making was not finished.
    ///
    /// Of every disk, the records are by strictly ascending id, and at most 1048576.
    /// From the first sync on, a stop at any moment leaves a file that is recovered to the same, and keeps its
    /// kind: settled with its version and generation, or fresh. So does whatever a stop leaves of the journal then, and
    /// it begins with the header of the settled file, or with that of a new one, of version 2 and generation 1.
    /// `Foreign` and `Damaged` come exactly where the file is so, and leave it as it was; with an error
    /// the disk is handed back.
    pub fn attach(alloc: Global, disk: D) -> Result<(Journal<D>, Recovered), (D, JournalError)>
        ensures attached { IsTrue (D.tells disk) → IfOk result (λ p. IsAttached (D.reads disk) (D.reads p.0.disk) (D.images p.0.disk (D.moment p.0.disk)) p.0.work p.1) }
        ensures fresh { IfOk result (λ p. (p.0.work.phase ≡ Phase.Ready) × (p.0.work.flying ≡ 0) × (p.0.work.commits ≡ 0) × (p.0.work.changes ≡ 0)) }
        ensures held { IfOk result (λ p. AreHeld p.1.records) }
        ensures refused { IsTrue (D.tells disk) → IfErr result (λ e. Refused e.1 (D.reads disk) (D.reads e.0)) }
        ensures crash { IsTrue (D.tells disk) → MatchResult result (λ p. Opens (D.moment disk) (D.moment p.0.disk) (D.images disk) (D.images p.0.disk) (RecoversAs (D.reads disk))) (λ e. Opens (D.moment disk) (D.moment e.0) (D.images disk) (D.images e.0) (RecoversAs (D.reads disk))) }
        ensures kinds { IsTrue (D.tells disk) → MatchResult result (λ p. Opens (D.moment disk) (D.moment p.0.disk) (D.images disk) (D.images p.0.disk) (KeepsKind (D.reads disk))) (λ e. Opens (D.moment disk) (D.moment e.0) (D.images disk) (D.images e.0) (KeepsKind (D.reads disk))) }
        ensures kept { IsTrue (D.tells disk) → IfOk result (λ p. (file : List ℕ) → D.images p.0.disk (D.moment p.0.disk) file → KeepsKind (D.reads disk) file) }
        ensures begins { IsTrue (D.tells disk) → IfOk result (λ p. (file : List ℕ) → D.images p.0.disk (D.moment p.0.disk) file → BeginsAs (D.reads disk) file) }
        ensures later { MatchResult result (λ p. D.faults disk ≤ D.faults p.0.disk) (λ e. D.faults disk ≤ D.faults e.0) }
        ensures fault { IfErr result (λ e. e.1 ≡ JournalError.Fault → Rose (D.faults disk) (D.faults e.0)) }
        ensures tells { MatchResult result (λ p. D.tells p.0.disk ≡ D.tells disk) (λ e. D.tells e.0 ≡ D.tells disk) }
        ensures takes { MatchResult result (λ p. D.takes_memory p.0.disk ≡ D.takes_memory disk) (λ e. D.takes_memory e.0 ≡ D.takes_memory disk) }
    {
        let mut disk = disk;
        match open(alloc, &mut disk) {
            Ok((work, found)) => Ok((Journal { disk, work }, found)),
            Err(error) => Err((disk, error)),
        }
    }
}
