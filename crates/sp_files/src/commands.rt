// The commands on the files of a journal.
ghost use Rattle.std.specs.Prelude.{◌≡◌, ◌≢◌, ◌⊎◌, ◌≤◌, ◌++◌, List, ℕ, None, IsTrue, IfOk, IfErr, IfNone, IfSome, MatchOption, false};
ghost use Rattle.sp_disk.specs.Faults.{Rose};
ghost use Rattle.sp_journal.specs.Looking.{OnlyReads};
ghost use Rattle.sp_report.specs.Report.{check_text, compact_text, dump_text};
ghost use Rattle.sp_files.specs.declared.compacting.Compaction.{Compaction as CompactionOf};
ghost use Rattle.sp_files.specs.Compacting.{Compacts, Survives};
ghost use Rattle.sp_files.specs.Ending.{last_line, end_unfetched, Closes, WritesOrFails};
ghost use Rattle.sp_files.specs.Fetching.{alt_name, names_of, AsksFirst};
ghost use Rattle.sp_files.specs.Reporting.{Reports};

use crate::compacting::{Compaction, compact_pair};
use crate::ending::{FileEnd, tell, write_last};
use crate::fetching::fetch_pair;
use crate::inspecting::{checked, dumped};
use sp_disk::{Disk, Shelf, ShelfFault};
use sp_io::Sink;
use sp_journal::JournalError;
use sp_list::Text;
use sp_pair::Pair;
use sp_report::compact_text;
use std::alloc::Global;

/// How a command ended, and the two disks where they were fetched.
#[derive(Drop)]
pub struct Finished<D: Disk> {
    pub end: FileEnd,
    pub disks: Option<Pair<D>>,
}

/// Writes the records of the journal of that name: `found N`, and a line for each of the N records by
/// ascending id. It only reads.
pub fn dump<H: Shelf, K: Sink>(
    alloc: Global,
    shelf: &mut H,
    name: &str,
    sink: &mut K,
) -> Finished<H::Disk>
    // What the end says of the two files, and which text was written.
    ensures reports { IsTrue (H.tells shelf.old) → Reports dump_text result.end (H.holds shelf.old name.now) (H.holds shelf.old (alt_name name.now)) (K.taken sink.old) (K.taken sink.new) }
    // At a fault its line alone is written.
    ensures closes { Closes result.end (K.taken sink.old) (K.taken sink.new) (K.write_faults sink.old) (K.write_faults sink.new) }
    // Where all was written, nothing is held back.
    ensures handed { result.end ≡ FileEnd.Written → K.holds_back sink.new ≡ false }
    // The disks that the shelf handed out were only read.
    ensures main_looks { IsTrue (H.tells shelf.old) → IfSome result.disks (λ p. (was : H.Disk) × (H.Disk.reads was ≡ H.holds shelf.old name.now) × OnlyReads (H.Disk.moment was) (H.Disk.moment p.main) (H.Disk.reads was) (H.Disk.reads p.main) (H.Disk.images was) (H.Disk.images p.main)) }
    ensures alt_looks { IsTrue (H.tells shelf.old) → IfSome result.disks (λ p. (was : H.Disk) × (H.Disk.reads was ≡ H.holds shelf.old (alt_name name.now)) × OnlyReads (H.Disk.moment was) (H.Disk.moment p.alt) (H.Disk.reads was) (H.Disk.reads p.alt) (H.Disk.images was) (H.Disk.images p.alt)) }
    // The shelf was asked for the two names, and holds the others as before.
    ensures asked { MatchOption result.disks (AsksFirst (H.asked shelf.old) (H.asked shelf.new) (names_of name.now)) (λ p. H.asked shelf.new ≡ H.asked shelf.old ++ names_of name.now) }
    ensures others { IsTrue (H.tells shelf.old) → (other : List ℕ) → other ≢ name.now → other ≢ alt_name name.now → H.holds shelf.new other ≡ H.holds shelf.old other }
    // Without disks the shelf failed, or there was no memory.
    ensures unfetched { IfNone result.disks ((result.end ≡ FileEnd.DiskFault) ⊎ (result.end ≡ FileEnd.Memory)) }
    ensures disk_fault { result.end ≡ FileEnd.DiskFault → MatchOption result.disks (Rose (H.faults shelf.old) (H.faults shelf.new)) (λ p. Rose 0 (H.Disk.faults p.main) ⊎ Rose 0 (H.Disk.faults p.alt)) }
    ensures later { (H.faults shelf.old ≤ H.faults shelf.new) × (K.write_faults sink.old ≤ K.write_faults sink.new) }
    ensures tells { H.tells shelf.new ≡ H.tells shelf.old }
{
    let mut pair = match fetch_pair(alloc, shelf, name) {
        Ok(pair) => pair,
        Err(fault) => return unfetched(sink, fault),
    };
    let answer = dumped(alloc, &mut pair);
    let end = tell(sink, answer);
    Finished {
        end,
        disks: Some(pair),
    }
}

/// Counts what the journal of that name holds: `whole B C R`, its batches, commits and records. It only
/// reads.
pub fn check<H: Shelf, K: Sink>(
    alloc: Global,
    shelf: &mut H,
    name: &str,
    sink: &mut K,
) -> Finished<H::Disk>
    ensures reports { IsTrue (H.tells shelf.old) → Reports check_text result.end (H.holds shelf.old name.now) (H.holds shelf.old (alt_name name.now)) (K.taken sink.old) (K.taken sink.new) }
    ensures closes { Closes result.end (K.taken sink.old) (K.taken sink.new) (K.write_faults sink.old) (K.write_faults sink.new) }
    ensures handed { result.end ≡ FileEnd.Written → K.holds_back sink.new ≡ false }
    ensures main_looks { IsTrue (H.tells shelf.old) → IfSome result.disks (λ p. (was : H.Disk) × (H.Disk.reads was ≡ H.holds shelf.old name.now) × OnlyReads (H.Disk.moment was) (H.Disk.moment p.main) (H.Disk.reads was) (H.Disk.reads p.main) (H.Disk.images was) (H.Disk.images p.main)) }
    ensures alt_looks { IsTrue (H.tells shelf.old) → IfSome result.disks (λ p. (was : H.Disk) × (H.Disk.reads was ≡ H.holds shelf.old (alt_name name.now)) × OnlyReads (H.Disk.moment was) (H.Disk.moment p.alt) (H.Disk.reads was) (H.Disk.reads p.alt) (H.Disk.images was) (H.Disk.images p.alt)) }
    ensures asked { MatchOption result.disks (AsksFirst (H.asked shelf.old) (H.asked shelf.new) (names_of name.now)) (λ p. H.asked shelf.new ≡ H.asked shelf.old ++ names_of name.now) }
    ensures others { IsTrue (H.tells shelf.old) → (other : List ℕ) → other ≢ name.now → other ≢ alt_name name.now → H.holds shelf.new other ≡ H.holds shelf.old other }
    ensures unfetched { IfNone result.disks ((result.end ≡ FileEnd.DiskFault) ⊎ (result.end ≡ FileEnd.Memory)) }
    ensures disk_fault { result.end ≡ FileEnd.DiskFault → MatchOption result.disks (Rose (H.faults shelf.old) (H.faults shelf.new)) (λ p. Rose 0 (H.Disk.faults p.main) ⊎ Rose 0 (H.Disk.faults p.alt)) }
    ensures later { (H.faults shelf.old ≤ H.faults shelf.new) × (K.write_faults sink.old ≤ K.write_faults sink.new) }
    ensures tells { H.tells shelf.new ≡ H.tells shelf.old }
{
    let mut pair = match fetch_pair(alloc, shelf, name) {
        Ok(pair) => pair,
        Err(fault) => return unfetched(sink, fault),
    };
    let answer = checked(alloc, &mut pair);
    let end = tell(sink, answer);
    Finished {
        end,
        disks: Some(pair),
    }
}

/// Writes the journal of that name anew into the file that is not current, without its history, and then
/// `compacted G R`: its new generation, and the number of records.
pub fn compact<H: Shelf, K: Sink>(
    alloc: Global,
    shelf: &mut H,
    name: &str,
    sink: &mut K,
) -> Finished<H::Disk>
    ensures compacts { IsTrue (H.tells shelf.old) → IfSome result.disks (λ p. Compacts result.end (H.holds shelf.old name.now) (H.holds shelf.old (alt_name name.now)) (H.Disk.reads p.main) (H.Disk.reads p.alt) (K.taken sink.old) (K.taken sink.new)) }
    ensures closes { Closes result.end (K.taken sink.old) (K.taken sink.new) (K.write_faults sink.old) (K.write_faults sink.new) }
    ensures handed { result.end ≡ FileEnd.Written → K.holds_back sink.new ≡ false }
    // Whatever a stop leaves of the disks that the shelf handed out, since their first syncs, holds the same records.
    ensures crash { IsTrue (H.tells shelf.old) → IfSome result.disks (λ p. (main alt : H.Disk) × (H.Disk.reads main ≡ H.holds shelf.old name.now) × (H.Disk.reads alt ≡ H.holds shelf.old (alt_name name.now)) × Survives (H.Disk.moment main) (H.Disk.moment p.main) (H.Disk.moment alt) (H.Disk.moment p.alt) (H.Disk.reads main) (H.Disk.reads alt) (H.Disk.reads p.main) (H.Disk.reads p.alt) (H.Disk.images main) (H.Disk.images p.main) (H.Disk.images alt) (H.Disk.images p.alt)) }
    ensures asked { MatchOption result.disks (AsksFirst (H.asked shelf.old) (H.asked shelf.new) (names_of name.now)) (λ p. H.asked shelf.new ≡ H.asked shelf.old ++ names_of name.now) }
    ensures others { IsTrue (H.tells shelf.old) → (other : List ℕ) → other ≢ name.now → other ≢ alt_name name.now → H.holds shelf.new other ≡ H.holds shelf.old other }
    ensures unfetched { IfNone result.disks ((result.end ≡ FileEnd.DiskFault) ⊎ (result.end ≡ FileEnd.Memory)) }
    ensures disk_fault { result.end ≡ FileEnd.DiskFault → MatchOption result.disks (Rose (H.faults shelf.old) (H.faults shelf.new)) (λ p. Rose 0 (H.Disk.faults p.main) ⊎ Rose 0 (H.Disk.faults p.alt)) }
    ensures later { (H.faults shelf.old ≤ H.faults shelf.new) × (K.write_faults sink.old ≤ K.write_faults sink.new) }
    ensures tells { H.tells shelf.new ≡ H.tells shelf.old }
{
    let pair = match fetch_pair(alloc, shelf, name) {
        Ok(pair) => pair,
        Err(fault) => return unfetched(sink, fault),
    };
    let (pair, compaction) = compact_pair(alloc, pair);
    let answer = text_of(alloc, compaction);
    let end = tell(sink, answer);
    Finished {
        end,
        disks: Some(pair),
    }
}

// The text that tells of a compaction.
fn text_of(
    alloc: Global,
    compaction: Result<Compaction, JournalError>,
) -> Result<Text, JournalError>
    ensures text { IfOk result (λ text. (c : CompactionOf) × (compaction ≡ Ok c) × (text ≡ compact_text c.generation c.records)) }
    ensures refused { IfErr result (λ e. (compaction ≡ Err e) ⊎ (e ≡ JournalError.Memory)) }
{
    let Compaction {
        generation,
        records,
    } = compaction?;
    Ok(compact_text(alloc, generation, records)?)
}

// The files were not fetched: the fault's line is written.
fn unfetched<D: Disk, K: Sink>(sink: &mut K, fault: ShelfFault) -> Finished<D>
    ensures end { result.end ≡ end_unfetched fault }
    ensures disks { result.disks ≡ None }
    ensures written { WritesOrFails (K.taken sink.old) (K.taken sink.new) (K.write_faults sink.old) (K.write_faults sink.new) (last_line result.end) }
    ensures later { K.write_faults sink.old ≤ K.write_faults sink.new }
{
    let end = end_unfetched(fault);
    write_last(sink, end);
    Finished { end, disks: None }
}

fn end_unfetched(fault: ShelfFault) -> FileEnd
    ensures { result ≡ end_unfetched fault }
{
    match fault {
        ShelfFault::Fault => FileEnd::DiskFault,
        ShelfFault::Memory => FileEnd::Memory,
    }
}
