// The other file is written anew from what the current one holds, and becomes current.
ghost use Rattle.std.specs.Prelude.{◌≡◌, ◌⊎◌, ◌+◌, ◌<◌, ◌≤◌, ◌^◌, not, ℕ, Bool, List, length, IsTrue, IfOk, IfErr, OnOk, IsErrOf, MatchResult};
ghost use Rattle.sp_disk.specs.Faults.{Rose};
ghost use Rattle.sp_disk.specs.Moments.{LeavesOnly};
ghost use Rattle.sp_rect.specs.Store.{IsOrdered};
ghost use Rattle.sp_journal.specs.declared.types.Recovered.{Recovered as RecoveredOf};
ghost use Rattle.sp_journal.specs.Format.{IsCheckpoint};
ghost use Rattle.sp_journal.specs.Looking.{OnlyReads};
ghost use Rattle.sp_journal.specs.Recovery.{Foreign, Damaged, Holds, Recovers};
ghost use Rattle.sp_pair.specs.Compacting.{next_generation, compacted, MayLeave, IsAtRest, IsCompacted, Keeps, RefusedRoles};

use crate::checkpoint::checkpoint_body;
use crate::pair::Chosen;
use crate::rewriting::{begin, finish};
use sp_disk::Disk;
use sp_journal::{JournalError, Recovered, Scan, scan_file};
use sp_rect::Records;
use std::alloc::Global;

// The last generation that there is.
const LAST: u64 = (1 << 63) - 1;

// What the current file holds. It had a header when it was chosen: one that is gone since is damage.
fn load<D: Disk>(alloc: Global, disk: &mut D) -> Result<Recovered, JournalError>
    ensures recovered { IsTrue (D.tells disk.old) → IfOk result (λ found. Recovers (D.reads disk.old) (Holds found)) }
    ensures damaged { (at : ℕ) → IsTrue (D.tells disk.old) → (Recovers (D.reads disk.old) Foreign → ⊥) → IsErrOf result (JournalError.Damaged at) → Recovers (D.reads disk.old) (Damaged at) }
    ensures foreign { IsErrOf result JournalError.Foreign → ⊥ }
    ensures worn { IsErrOf result JournalError.Worn → ⊥ }
    ensures looks { IsTrue (D.tells disk.old) → OnlyReads (D.moment disk.old) (D.moment disk.new) (D.reads disk.old) (D.reads disk.new) (D.images disk.old) (D.images disk.new) }
    ensures later { D.faults disk.old ≤ D.faults disk.new }
    ensures fault { IsErrOf result JournalError.Fault → Rose (D.faults disk.old) (D.faults disk.new) }
    ensures tells { D.tells disk.new ≡ D.tells disk.old }
    ensures takes { D.takes_memory disk.new ≡ D.takes_memory disk.old }
{
    match scan_file(alloc, disk) {
        Ok(
            Scan {
                found,
                kind: _,
                end: _,
            },
        ) => Ok(found),
        Err(JournalError::Foreign) => Err(JournalError::Damaged(0)),
        Err(error) => Err(error),
    }
}

// The records of the current file of that generation, which is not the last.
fn read<D: Disk>(alloc: Global, disk: &mut D, generation: u64) -> Result<Records, JournalError>
    ensures records { IsTrue (D.tells disk.old) → IfOk result (λ records. (found : RecoveredOf) × Recovers (D.reads disk.old) (Holds found) × (found.records ≡ records)) }
    ensures early { OnOk result (generation + 1 < 2 ^ 63) }
    ensures damaged { (at : ℕ) → IsTrue (D.tells disk.old) → (Recovers (D.reads disk.old) Foreign → ⊥) → IsErrOf result (JournalError.Damaged at) → Recovers (D.reads disk.old) (Damaged at) }
    ensures worn { IsErrOf result JournalError.Worn → 2 ^ 63 ≤ generation + 1 }
    ensures read { IsTrue (D.tells disk.old) → IsErrOf result JournalError.Worn → (found : RecoveredOf) × Recovers (D.reads disk.old) (Holds found) }
    ensures foreign { IsErrOf result JournalError.Foreign → ⊥ }
    ensures looks { IsTrue (D.tells disk.old) → OnlyReads (D.moment disk.old) (D.moment disk.new) (D.reads disk.old) (D.reads disk.new) (D.images disk.old) (D.images disk.new) }
    ensures later { D.faults disk.old ≤ D.faults disk.new }
    ensures fault { IsErrOf result JournalError.Fault → Rose (D.faults disk.old) (D.faults disk.new) }
    ensures tells { D.tells disk.new ≡ D.tells disk.old }
    ensures takes { D.takes_memory disk.new ≡ D.takes_memory disk.old }
{
    let Recovered {
        records,
        batches: _,
        commits: _,
    } = load(alloc, disk)?;
    if generation >= LAST {
        return Err(JournalError::Worn);
    }
    Ok(records)
}

// Writes the file anew, of that generation and with the checkpoint of these records.
fn rewrite<D: Disk>(
    alloc: Global,
    disk: &mut D,
    generation: u64,
    records: &Records,
) -> Result<(), JournalError>
    ensures crash { IsTrue (D.tells disk.old) → 2 ≤ generation → generation < 2 ^ 63 → IsOrdered records.now → ((file : List ℕ) → D.images disk.old (D.moment disk.old) file → file ≡ D.reads disk.old) → LeavesOnly (D.moment disk.old) (D.moment disk.new) (D.images disk.old) (D.images disk.new) (MayLeave (D.reads disk.old) generation records.now) }
    ensures whole { IsTrue (D.tells disk.old) → OnOk result ((D.reads disk.new ≡ compacted generation records.now) × ((file : List ℕ) → D.images disk.new (D.moment disk.new) file → file ≡ D.reads disk.new)) }
    ensures valid { IsOrdered records.now → OnOk result (IsCheckpoint records.now) }
    ensures damaged { (at : ℕ) → IsErrOf result (JournalError.Damaged at) → ⊥ }
    ensures foreign { IsErrOf result JournalError.Foreign → ⊥ }
    ensures worn { IsErrOf result JournalError.Worn → ⊥ }
    ensures later { D.faults disk.old ≤ D.faults disk.new }
    ensures fault { IsErrOf result JournalError.Fault → Rose (D.faults disk.old) (D.faults disk.new) }
    ensures tells { D.tells disk.new ≡ D.tells disk.old }
    ensures takes { D.takes_memory disk.new ≡ D.takes_memory disk.old }
{
    let body = checkpoint_body(alloc, records)?;
    begin(disk, generation)?;
    finish(disk, body.as_slice())?;
    Ok(())
}

// The generation of the file that is written from one of that generation.
fn next(generation: u64) -> u64
    requires { generation + 1 < 2 ^ 63 }
    ensures { result ≡ next_generation generation }
{
    generation.max(1) + 1
}

// Writes the other file anew from what the current one holds, and gives the number of records.
fn renew<D: Disk>(
    alloc: Global,
    current: &mut D,
    other: &mut D,
    generation: u64,
) -> Result<u64, JournalError>
    ensures crash { (is_alt : Bool) → IsTrue (D.tells current.old) → IsTrue (D.tells other.old) → IsAtRest is_alt generation (D.reads current.old) (D.reads other.old) (D.images current.old (D.moment current.old)) (D.images other.old (D.moment other.old)) → Keeps is_alt (D.reads current.old) (D.reads other.old) (D.moment current.old) (D.moment current.new) (D.moment other.old) (D.moment other.new) (D.images current.old) (D.images current.new) (D.images other.old) (D.images other.new) }
    ensures compacted { (is_alt : Bool) → IsTrue (D.tells current.old) → IsTrue (D.tells other.old) → IsAtRest is_alt generation (D.reads current.old) (D.reads other.old) (D.images current.old (D.moment current.old)) (D.images other.old (D.moment other.old)) → IfOk result (λ count. IsCompacted is_alt generation count (D.reads current.old) (D.reads other.old) (D.reads other.new)) }
    ensures rests { (is_alt : Bool) → IsTrue (D.tells current.old) → IsTrue (D.tells other.old) → IsAtRest is_alt generation (D.reads current.old) (D.reads other.old) (D.images current.old (D.moment current.old)) (D.images other.old (D.moment other.old)) → OnOk result (IsAtRest (not is_alt) (next_generation generation) (D.reads other.new) (D.reads current.new) (D.images other.new (D.moment other.new)) (D.images current.new (D.moment current.new))) }
    ensures refused { (is_alt : Bool) → IsTrue (D.tells current.old) → IsTrue (D.tells other.old) → IsAtRest is_alt generation (D.reads current.old) (D.reads other.old) (D.images current.old (D.moment current.old)) (D.images other.old (D.moment other.old)) → IfErr result (λ e. RefusedRoles e is_alt generation (D.reads current.old) (D.reads other.old)) }
    ensures early { OnOk result (generation + 1 < 2 ^ 63) }
    ensures worn { IsErrOf result JournalError.Worn → 2 ^ 63 ≤ generation + 1 }
    ensures foreign { IsErrOf result JournalError.Foreign → ⊥ }
    ensures untouched { (IsErrOf result JournalError.Worn → other.new ≡ other.old) × ((at : ℕ) → IsErrOf result (JournalError.Damaged at) → other.new ≡ other.old) }
    ensures looks { IsTrue (D.tells current.old) → OnlyReads (D.moment current.old) (D.moment current.new) (D.reads current.old) (D.reads current.new) (D.images current.old) (D.images current.new) }
    ensures later { (D.faults current.old ≤ D.faults current.new) × (D.faults other.old ≤ D.faults other.new) }
    ensures fault { IsErrOf result JournalError.Fault → Rose (D.faults current.old) (D.faults current.new) ⊎ Rose (D.faults other.old) (D.faults other.new) }
    ensures tells { (D.tells current.new ≡ D.tells current.old) × (D.tells other.new ≡ D.tells other.old) }
    ensures takes { (D.takes_memory current.new ≡ D.takes_memory current.old) × (D.takes_memory other.new ≡ D.takes_memory other.old) }
{
    let records = read(alloc, current, generation)?;
    rewrite(alloc, other, next(generation), &records)?;
    Ok(records.len() as u64)
}

/// Writes all records of the current file into the other one, as a checkpoint, and changes the roles of the
/// two: from the last sync on the other one is current, with version 2 and the next generation, which is
/// told with the number of the records. It reads the current file and makes eight calls of the other one.
///
/// It takes what [`choose`](crate::choose) or this gave, with nothing pending on either file; a journal may
/// have written whole entries to the current one since. Then a stop at any moment leaves two files that
/// hold these records, also after a fault or where there was no memory. After one of these the other
/// file may be cut or written in part, and the two are to be chosen again.
///
/// `Damaged` comes where the current file is so. `Worn` comes only after that, exactly where the
/// generation is 2^63 - 1. Both write nothing. `Foreign` never comes. It takes as much memory as the file
/// and its records.
pub fn compact<D: Disk>(
    alloc: Global,
    chosen: Chosen<D>,
) -> Result<(Chosen<D>, u64), (Chosen<D>, JournalError)>
    ensures crash { IsTrue (D.tells chosen.current) → IsTrue (D.tells chosen.other) → IsAtRest chosen.is_alt chosen.generation (D.reads chosen.current) (D.reads chosen.other) (D.images chosen.current (D.moment chosen.current)) (D.images chosen.other (D.moment chosen.other)) → MatchResult result (λ p. Keeps chosen.is_alt (D.reads chosen.current) (D.reads chosen.other) (D.moment chosen.current) (D.moment p.0.other) (D.moment chosen.other) (D.moment p.0.current) (D.images chosen.current) (D.images p.0.other) (D.images chosen.other) (D.images p.0.current)) (λ e. Keeps chosen.is_alt (D.reads chosen.current) (D.reads chosen.other) (D.moment chosen.current) (D.moment e.0.current) (D.moment chosen.other) (D.moment e.0.other) (D.images chosen.current) (D.images e.0.current) (D.images chosen.other) (D.images e.0.other)) }
    ensures compacted { IsTrue (D.tells chosen.current) → IsTrue (D.tells chosen.other) → IsAtRest chosen.is_alt chosen.generation (D.reads chosen.current) (D.reads chosen.other) (D.images chosen.current (D.moment chosen.current)) (D.images chosen.other (D.moment chosen.other)) → IfOk result (λ p. IsCompacted chosen.is_alt chosen.generation p.1 (D.reads chosen.current) (D.reads chosen.other) (D.reads p.0.current)) }
    ensures rests { IsTrue (D.tells chosen.current) → IsTrue (D.tells chosen.other) → IsAtRest chosen.is_alt chosen.generation (D.reads chosen.current) (D.reads chosen.other) (D.images chosen.current (D.moment chosen.current)) (D.images chosen.other (D.moment chosen.other)) → IfOk result (λ p. IsAtRest p.0.is_alt p.0.generation (D.reads p.0.current) (D.reads p.0.other) (D.images p.0.current (D.moment p.0.current)) (D.images p.0.other (D.moment p.0.other))) }
    ensures turned { IfOk result (λ p. (p.0.is_alt ≡ not chosen.is_alt) × (p.0.version ≡ 2) × (p.0.generation ≡ next_generation chosen.generation)) }
    ensures same { IfErr result (λ e. (e.0.is_alt ≡ chosen.is_alt) × (e.0.version ≡ chosen.version) × (e.0.generation ≡ chosen.generation)) }
    ensures refused { IsTrue (D.tells chosen.current) → IsTrue (D.tells chosen.other) → IsAtRest chosen.is_alt chosen.generation (D.reads chosen.current) (D.reads chosen.other) (D.images chosen.current (D.moment chosen.current)) (D.images chosen.other (D.moment chosen.other)) → IfErr result (λ e. RefusedRoles e.1 chosen.is_alt chosen.generation (D.reads chosen.current) (D.reads chosen.other)) }
    ensures early { IfOk result (λ p. chosen.generation + 1 < 2 ^ 63) }
    ensures worn { IfErr result (λ e. e.1 ≡ JournalError.Worn → 2 ^ 63 ≤ chosen.generation + 1) }
    ensures foreign { IfErr result (λ e. e.1 ≡ JournalError.Foreign → ⊥) }
    ensures untouched { IfErr result (λ e. (e.1 ≡ JournalError.Worn → e.0.other ≡ chosen.other) × ((at : ℕ) → e.1 ≡ JournalError.Damaged at → e.0.other ≡ chosen.other)) }
    ensures looks { IsTrue (D.tells chosen.current) → MatchResult result (λ p. OnlyReads (D.moment chosen.current) (D.moment p.0.other) (D.reads chosen.current) (D.reads p.0.other) (D.images chosen.current) (D.images p.0.other)) (λ e. OnlyReads (D.moment chosen.current) (D.moment e.0.current) (D.reads chosen.current) (D.reads e.0.current) (D.images chosen.current) (D.images e.0.current)) }
    ensures later { MatchResult result (λ p. (D.faults chosen.current ≤ D.faults p.0.other) × (D.faults chosen.other ≤ D.faults p.0.current)) (λ e. (D.faults chosen.current ≤ D.faults e.0.current) × (D.faults chosen.other ≤ D.faults e.0.other)) }
    ensures fault { IfErr result (λ e. e.1 ≡ JournalError.Fault → Rose (D.faults chosen.current) (D.faults e.0.current) ⊎ Rose (D.faults chosen.other) (D.faults e.0.other)) }
    ensures tells { MatchResult result (λ p. (D.tells p.0.other ≡ D.tells chosen.current) × (D.tells p.0.current ≡ D.tells chosen.other)) (λ e. (D.tells e.0.current ≡ D.tells chosen.current) × (D.tells e.0.other ≡ D.tells chosen.other)) }
    ensures takes { MatchResult result (λ p. (D.takes_memory p.0.other ≡ D.takes_memory chosen.current) × (D.takes_memory p.0.current ≡ D.takes_memory chosen.other)) (λ e. (D.takes_memory e.0.current ≡ D.takes_memory chosen.current) × (D.takes_memory e.0.other ≡ D.takes_memory chosen.other)) }
{
    let Chosen {
        mut current,
        mut other,
        is_alt,
        version,
        generation,
    } = chosen;
    match renew(alloc, &mut current, &mut other, generation) {
        Ok(count) => Ok((
            Chosen {
                current: other,
                other: current,
                is_alt: !is_alt,
                version: 2,
                generation: next(generation),
            },
            count,
        )),
        Err(error) => Err((
            Chosen {
                current,
                other,
                is_alt,
                version,
                generation,
            },
            error,
        )),
    }
}
