// A run over the two files of a journal.
ghost use Rattle.std.specs.Prelude.{◌≡◌, ◌≢◌, ◌⊎◌, ◌++◌, [], ℕ, List, None, IsTrue, IfNone, IfSome, MatchOption, false};
ghost use Rattle.sp_io.specs.Faults.{Rose};
ghost use Rattle.sp_disk.specs.Faults.{Rose as DiskRose};
ghost use Rattle.sp_rect.specs.Serial.{Serial};
ghost use Rattle.sp_rect.specs.declared.record.Record.{Record as AnyRecord};
ghost use Rattle.sp_node.specs.Table.{IsShape};
ghost use Rattle.sp_node.specs.declared.node.Shape.{Shape as AnyShape};
ghost use Rattle.sp_journal.specs.Kinds.{HasVersion};
ghost use Rattle.sp_text.specs.Texts.{render};
ghost use Rattle.sp_lines.specs.Hearing.{EndsRun};
ghost use Rattle.sp_lines.specs.Reading.{ReadsTo};
ghost use Rattle.sp_model.specs.Opening.{IsOpened};
ghost use Rattle.sp_store.specs.Files.{main_of, alt_of};
ghost use Rattle.sp_store.specs.Keeping.{IsBeside};
ghost use Rattle.sp_store.specs.Opening.{IsOpenedOver};
ghost use Rattle.sp_store.specs.Stopping.{SinceOpened};
ghost use Rattle.sp_files.specs.Fetching.{alt_name, names_of, AsksFirst};
ghost use Rattle.sp_runs.specs.Scripts.{form_of};
ghost use Rattle.sp_runs.specs.Running.{IsNotRun, IsTold};
ghost use Rattle.sp_runs.specs.Opening.{RunsFrom, RunsOver, RefusesFiles, end_unfetched, end_unopened};
ghost use Rattle.sp_runs.specs.Writing.{audit_line, Writes};

use crate::Language;
use crate::in_memory::{Ran, unstarted};
use crate::running::run;
use sp_audit::Audit;
use sp_disk::{Disk, Shelf, ShelfFault};
use sp_files::fetch_pair;
use sp_io::{Sink, Source};
use sp_journal::JournalError;
use sp_node::Shape;
use sp_pair::Pair;
use sp_store::{Store, open_store};
use sp_text::{End, Transcript};
use std::alloc::Global;

/// What a run over files leaves: what was heard and answered, the audit, and the two disks where they were fetched.
#[derive(Drop)]
pub struct RanOnFiles<D: Disk> {
    pub transcript: Transcript,
    pub audit: Audit,
    pub disks: Option<Pair<D>>,
}

/// Runs the script that the source gives over a kernel that opens with the records of the journal of that name, and keeps its commits there.
/// From the first syncs of the opening on, to the end of the run, whichever two files a stop leaves hold what some kernel on the way has committed,
/// without or with its whole batch in flight; at the end they hold every commit that was told, and the current one
/// begins with a header of version 2.
///
/// `Foreign` and `Damaged` come exactly where the two files are so, `DiskFault` only where the count of the shelf or of one of the two disks rose;
/// then, and where there is no memory for the kernel, nothing is heard where no kernel was started.
pub fn run_on_files<H: Shelf, S: Source, K: Sink>(
    alloc: Global,
    language: Language,
    shape: Shape,
    audited: bool,
    shelf: &mut H,
    name: &str,
    source: &mut S,
    sink: &mut K,
) -> RanOnFiles<H::Disk>
    requires { IsShape shape }
    // Over files that tell their bytes: from the records that the two hold, and they are kept; or why no kernel was started.
    ensures over { IsTrue (H.tells shelf.old) → IfSome result.disks (λ p. RunsOver H.Disk.reads H.Disk.moment H.Disk.images language shape (H.holds shelf.old name.now) (H.holds shelf.old (alt_name name.now)) result.transcript.end result.transcript.items result.audit p.main p.alt ⊎ (IsNotRun result.transcript.items result.audit × RefusesFiles result.transcript.end (H.holds shelf.old name.now) (H.holds shelf.old (alt_name name.now)))) }
    // Over any files: from some records, or no kernel was started.
    ensures runs { ((records : List AnyRecord) × RunsFrom language shape records result.transcript.end result.transcript.items result.audit) ⊎ IsNotRun result.transcript.items result.audit }
    ensures told { IsTold result.transcript.end result.transcript.items result.audit }
    ensures serial { Serial result.audit.base result.audit.commits }
    ensures read { ReadsTo (form_of language) result.transcript.end (S.left source.old) (S.left source.new) result.transcript.items }
    ensures written { Writes result.transcript.end (K.taken sink.old) (K.taken sink.new) (K.write_faults sink.old) (K.write_faults sink.new) (render (form_of language) result.transcript.items) (audit_line audited result.audit) }
    // The shelf was asked for the two names, and holds the others as before; without disks it failed, or there was no memory.
    ensures asked { MatchOption result.disks (AsksFirst (H.asked shelf.old) (H.asked shelf.new) (names_of name.now)) (λ p. H.asked shelf.new ≡ H.asked shelf.old ++ names_of name.now) }
    ensures others { IsTrue (H.tells shelf.old) → (other : List ℕ) → other ≢ name.now → other ≢ alt_name name.now → H.holds shelf.new other ≡ H.holds shelf.old other }
    ensures unfetched { IfNone result.disks (IsNotRun result.transcript.items result.audit × ((result.transcript.end ≡ End.DiskFault) ⊎ (result.transcript.end ≡ End.Memory))) }
    ensures read_fault { result.transcript.end ≡ End.ReadFault → Rose (S.read_faults source.old) (S.read_faults source.new) }
    ensures write_fault { result.transcript.end ≡ End.WriteFault → Rose (K.write_faults sink.old) (K.write_faults sink.new) }
    ensures disk_fault { result.transcript.end ≡ End.DiskFault → MatchOption result.disks (DiskRose (H.faults shelf.old) (H.faults shelf.new)) (λ p. DiskRose 0 (H.Disk.faults p.main) ⊎ DiskRose 0 (H.Disk.faults p.alt)) }
    // At the end of the input nothing that was written is held back.
    ensures handed { result.transcript.end ≡ End.Input → K.holds_back sink.new ≡ false }
    ensures no_usage { result.transcript.end ≢ End.Usage }
{
    match fetch_pair(alloc, shelf, name) {
        Ok(pair) => {
            let (ran, pair) = run_on_pair(alloc, language, shape, audited, pair, source, sink);
            with_disks(ran, Some(pair))
        }
        Err(fault) => with_disks(unstarted(alloc, sink, end_unfetched(fault)), None),
    }
}

// The same over the two files.
fn run_on_pair<D: Disk, S: Source, K: Sink>(
    alloc: Global,
    language: Language,
    shape: Shape,
    audited: bool,
    pair: Pair<D>,
    source: &mut S,
    sink: &mut K,
) -> (Ran, Pair<D>)
    requires { IsShape shape }
    ensures over { IsTrue (D.tells pair.main) → IsTrue (D.tells pair.alt) → RunsOver D.reads D.moment D.images language shape (D.reads pair.main) (D.reads pair.alt) result.0.transcript.end result.0.transcript.items result.0.audit result.1.main result.1.alt ⊎ (IsNotRun result.0.transcript.items result.0.audit × RefusesFiles result.0.transcript.end (D.reads pair.main) (D.reads pair.alt)) }
    ensures runs { ((records : List AnyRecord) × RunsFrom language shape records result.0.transcript.end result.0.transcript.items result.0.audit) ⊎ IsNotRun result.0.transcript.items result.0.audit }
    ensures told { IsTold result.0.transcript.end result.0.transcript.items result.0.audit }
    ensures serial { Serial result.0.audit.base result.0.audit.commits }
    ensures read { ReadsTo (form_of language) result.0.transcript.end (S.left source.old) (S.left source.new) result.0.transcript.items }
    ensures written { Writes result.0.transcript.end (K.taken sink.old) (K.taken sink.new) (K.write_faults sink.old) (K.write_faults sink.new) (render (form_of language) result.0.transcript.items) (audit_line audited result.0.audit) }
    ensures read_fault { result.0.transcript.end ≡ End.ReadFault → Rose (S.read_faults source.old) (S.read_faults source.new) }
    ensures write_fault { result.0.transcript.end ≡ End.WriteFault → Rose (K.write_faults sink.old) (K.write_faults sink.new) }
    ensures disk_fault { result.0.transcript.end ≡ End.DiskFault → DiskRose (D.faults pair.main) (D.faults result.1.main) ⊎ DiskRose (D.faults pair.alt) (D.faults result.1.alt) }
    ensures handed { result.0.transcript.end ≡ End.Input → K.holds_back sink.new ≡ false }
    ensures no_usage { result.0.transcript.end ≢ End.Usage }
{
    match open_store(alloc, pair, shape) {
        Ok(store) => run_store(alloc, language, audited, store, source, sink),
        Err((pair, error)) => (unstarted(alloc, sink, end_unopened(error)), pair),
    }
}

// Runs over the store, and takes it apart.
fn run_store<D: Disk, S: Source, K: Sink>(
    alloc: Global,
    language: Language,
    audited: bool,
    store: Store<D>,
    source: &mut S,
    sink: &mut K,
) -> (Ran, Pair<D>)
    ensures over { IsTrue (D.tells store.kernel.disk) → (main alt : D) (shape : AnyShape) → IsOpenedOver (D.reads main) (D.reads alt) shape store.kernel.kernel → IsBeside store.is_alt (D.reads store.other) (D.images store.kernel.disk (D.moment store.kernel.disk)) (D.images store.other (D.moment store.other)) → SinceOpened D.reads D.moment D.images main alt store.is_alt store.kernel.disk store.other → ((file : List ℕ) → D.images store.kernel.disk (D.moment store.kernel.disk) file → HasVersion 2 file) → RunsOver D.reads D.moment D.images language shape (D.reads main) (D.reads alt) result.0.transcript.end result.0.transcript.items result.0.audit result.1.main result.1.alt }
    ensures runs { (shape : AnyShape) (records : List AnyRecord) → IsOpened shape records store.kernel.kernel → RunsFrom language shape records result.0.transcript.end result.0.transcript.items result.0.audit }
    ensures serial { Serial result.0.audit.base result.0.audit.commits }
    ensures read { ReadsTo (form_of language) result.0.transcript.end (S.left source.old) (S.left source.new) result.0.transcript.items }
    ensures written { Writes result.0.transcript.end (K.taken sink.old) (K.taken sink.new) (K.write_faults sink.old) (K.write_faults sink.new) (render (form_of language) result.0.transcript.items) (audit_line audited result.0.audit) }
    ensures read_fault { result.0.transcript.end ≡ End.ReadFault → Rose (S.read_faults source.old) (S.read_faults source.new) }
    ensures write_fault { result.0.transcript.end ≡ End.WriteFault → Rose (K.write_faults sink.old) (K.write_faults sink.new) }
    ensures disk_fault { store.kernel.kernel.stopped ≡ None → result.0.transcript.end ≡ End.DiskFault → DiskRose (D.faults (main_of store.is_alt store.kernel.disk store.other)) (D.faults result.1.main) ⊎ DiskRose (D.faults (alt_of store.is_alt store.kernel.disk store.other)) (D.faults result.1.alt) }
    ensures handed { result.0.transcript.end ≡ End.Input → K.holds_back sink.new ≡ false }
    ensures ends { EndsRun result.0.transcript.end }
{
    let mut store = store;
    let _begins = store.kernel.audit();
    let transcript = run(alloc, language, audited, &mut store.kernel, source, sink);
    let _left = store.kernel.audit();
    let (audit, pair) = store.finish();
    let _serial = audit.commits();
    (Ran { transcript, audit }, pair)
}

// The run with its disks.
fn with_disks<D: Disk>(ran: Ran, disks: Option<Pair<D>>) -> RanOnFiles<D>
    ensures transcript { result.transcript ≡ ran.transcript }
    ensures audit { result.audit ≡ ran.audit }
    ensures disks { result.disks ≡ disks }
{
    let Ran { transcript, audit } = ran;
    RanOnFiles {
        transcript,
        audit,
        disks,
    }
}

// Where the shelf handed no files out.
fn end_unfetched(fault: ShelfFault) -> End
    ensures { result ≡ end_unfetched fault }
{
    match fault {
        ShelfFault::Fault => End::DiskFault,
        ShelfFault::Memory => End::Memory,
    }
}

// Where no kernel could be started over the files. A store is never worn.
fn end_unopened(error: JournalError) -> End
    ensures { result ≡ end_unopened error }
{
    match error {
        JournalError::Foreign => End::Foreign,
        JournalError::Damaged(offset) => End::Damaged(offset),
        JournalError::Fault => End::DiskFault,
        JournalError::Worn | JournalError::Memory => End::Memory,
    }
}
