// The two files of a journal, and which of them is current.
ghost use Rattle.std.specs.Prelude.{◌≡◌, ◌⊎◌, ◌≤◌, ℕ, List, IsTrue, IfOk, OnOk, IfErr, IsErrOf, MatchResult, if◌then◌else◌};
ghost use Rattle.sp_disk.specs.Faults.{Rose};
ghost use Rattle.sp_journal.specs.Looking.{OnlyReads};
ghost use Rattle.sp_journal.specs.Recovery.{Holds, Recovers};
ghost use Rattle.sp_pair.specs.Compacting.{IsAtRest};
ghost use Rattle.sp_pair.specs.Pairs.{IsChosen, RecoversPair, RefusedAs, RefusedPair, RefusedKinds};
ghost use Rattle.sp_pair.specs.Settling.{IsSettled, Looked, SinceSynced};

use crate::choice::{Choice, choice_of};
use crate::looking::{look, settle};
use sp_disk::{Disk, DiskError};
use sp_journal::{JournalError, Recovered, inspect};
use std::alloc::Global;

/// The two files.
#[derive(Drop)]
pub struct Pair<D: Disk> {
    pub main: D,
    pub alt: D,
}

/// The two files by what they are: the current one, and the other.
#[derive(Drop)]
pub struct Chosen<D: Disk> {
    pub current: D,
    pub other: D,
    pub is_alt: bool,
    pub version: u32,
    pub generation: u64,
}

// Settles both files.
fn settle_both<D: Disk>(main: &mut D, alt: &mut D) -> Result<(), DiskError>
    ensures settled { IsTrue (D.tells main.old) → IsTrue (D.tells alt.old) → OnOk result (IsSettled (D.moment main.old) (D.moment main.new) (D.reads main.old) (D.reads main.new) (D.images main.old) (D.images main.new) × IsSettled (D.moment alt.old) (D.moment alt.new) (D.reads alt.old) (D.reads alt.new) (D.images alt.old) (D.images alt.new)) }
    ensures main_looked { IsTrue (D.tells main.old) → Looked (D.moment main.old) (D.moment main.new) (D.reads main.old) (D.reads main.new) (D.images main.old) (D.images main.new) }
    ensures alt_looked { IsTrue (D.tells alt.old) → Looked (D.moment alt.old) (D.moment alt.new) (D.reads alt.old) (D.reads alt.new) (D.images alt.old) (D.images alt.new) }
    ensures later { (D.faults main.old ≤ D.faults main.new) × (D.faults alt.old ≤ D.faults alt.new) }
    ensures fault { IsErrOf result DiskError.Fault → Rose (D.faults main.old) (D.faults main.new) ⊎ Rose (D.faults alt.old) (D.faults alt.new) }
    ensures tells { (D.tells main.new ≡ D.tells main.old) × (D.tells alt.new ≡ D.tells alt.old) }
    ensures takes { (D.takes_memory main.new ≡ D.takes_memory main.old) × (D.takes_memory alt.new ≡ D.takes_memory alt.old) }
{
    settle(main)?;
    settle(alt)?;
    Ok(())
}

// What the two files are, and which is current.
fn look_both<D: Disk>(main: &mut D, alt: &mut D) -> Result<Choice, JournalError>
    ensures chosen { IsTrue (D.tells main.old) → IsTrue (D.tells alt.old) → IfOk result (λ c. IsChosen (D.reads main.old) (D.reads alt.old) c.is_alt c.version c.generation) }
    ensures refused { IsTrue (D.tells main.old) → IsTrue (D.tells alt.old) → IfErr result (λ e. RefusedKinds e (D.reads main.old) (D.reads alt.old)) }
    ensures main_looks { IsTrue (D.tells main.old) → OnlyReads (D.moment main.old) (D.moment main.new) (D.reads main.old) (D.reads main.new) (D.images main.old) (D.images main.new) }
    ensures alt_looks { IsTrue (D.tells alt.old) → OnlyReads (D.moment alt.old) (D.moment alt.new) (D.reads alt.old) (D.reads alt.new) (D.images alt.old) (D.images alt.new) }
    ensures only { (IsErrOf result JournalError.Worn → ⊥) × ((at : ℕ) → IsErrOf result (JournalError.Damaged at) → ⊥) }
    ensures later { (D.faults main.old ≤ D.faults main.new) × (D.faults alt.old ≤ D.faults alt.new) }
    ensures fault { IsErrOf result JournalError.Fault → Rose (D.faults main.old) (D.faults main.new) ⊎ Rose (D.faults alt.old) (D.faults alt.new) }
    ensures tells { (D.tells main.new ≡ D.tells main.old) × (D.tells alt.new ≡ D.tells alt.old) }
    ensures takes { (D.takes_memory main.new ≡ D.takes_memory main.old) × (D.takes_memory alt.new ≡ D.takes_memory alt.old) }
{
    let one = look(main)?;
    let other = look(alt)?;
    choice_of(one, other)
}

// Settles both files, and tells which is current.
fn choose_of<D: Disk>(main: &mut D, alt: &mut D) -> Result<Choice, JournalError>
    ensures chosen { IsTrue (D.tells main.old) → IsTrue (D.tells alt.old) → IfOk result (λ c. IsChosen (D.reads main.old) (D.reads alt.old) c.is_alt c.version c.generation) }
    ensures refused { IsTrue (D.tells main.old) → IsTrue (D.tells alt.old) → IfErr result (λ e. RefusedKinds e (D.reads main.old) (D.reads alt.old)) }
    ensures settled { IsTrue (D.tells main.old) → IsTrue (D.tells alt.old) → OnOk result (IsSettled (D.moment main.old) (D.moment main.new) (D.reads main.old) (D.reads main.new) (D.images main.old) (D.images main.new) × IsSettled (D.moment alt.old) (D.moment alt.new) (D.reads alt.old) (D.reads alt.new) (D.images alt.old) (D.images alt.new)) }
    ensures crash { IsTrue (D.tells main.old) → IsTrue (D.tells alt.old) → MatchResult result (λ c. SinceSynced (D.moment main.old) (D.moment main.new) (D.moment alt.old) (D.moment alt.new) (D.reads main.old) (D.reads alt.old) (D.images main.new) (D.images alt.new)) (λ e. e ≡ JournalError.Foreign → SinceSynced (D.moment main.old) (D.moment main.new) (D.moment alt.old) (D.moment alt.new) (D.reads main.old) (D.reads alt.old) (D.images main.new) (D.images alt.new)) }
    ensures main_looked { IsTrue (D.tells main.old) → IsTrue (D.tells alt.old) → Looked (D.moment main.old) (D.moment main.new) (D.reads main.old) (D.reads main.new) (D.images main.old) (D.images main.new) }
    ensures alt_looked { IsTrue (D.tells main.old) → IsTrue (D.tells alt.old) → Looked (D.moment alt.old) (D.moment alt.new) (D.reads alt.old) (D.reads alt.new) (D.images alt.old) (D.images alt.new) }
    ensures only { (IsErrOf result JournalError.Worn → ⊥) × ((at : ℕ) → IsErrOf result (JournalError.Damaged at) → ⊥) }
    ensures later { (D.faults main.old ≤ D.faults main.new) × (D.faults alt.old ≤ D.faults alt.new) }
    ensures fault { IsErrOf result JournalError.Fault → Rose (D.faults main.old) (D.faults main.new) ⊎ Rose (D.faults alt.old) (D.faults alt.new) }
    ensures tells { (D.tells main.new ≡ D.tells main.old) × (D.tells alt.new ≡ D.tells alt.old) }
    ensures takes { (D.takes_memory main.new ≡ D.takes_memory main.old) × (D.takes_memory alt.new ≡ D.takes_memory alt.old) }
{
    settle_both(main, alt)?;
    look_both(main, alt)
}

// The two files by their roles.
fn by_role<D: Disk>(main: D, alt: D, choice: Choice) -> Chosen<D>
    ensures main { (if result.is_alt then result.other else result.current) ≡ main }
    ensures alt { (if result.is_alt then result.current else result.other) ≡ alt }
    ensures is_alt { result.is_alt ≡ choice.is_alt }
    ensures numbers { (result.version ≡ choice.version) × (result.generation ≡ choice.generation) }
{
    let Choice {
        is_alt,
        version,
        generation,
    } = choice;
    let (current, other) = if is_alt { (alt, main) } else { (main, alt) };
    Chosen {
        current,
        other,
        is_alt,
        version,
        generation,
    }
}

/// Tells which of the two files is current. It begins with a sync of both, and writes nothing. Of the
/// settled files the one of the greater generation is current, and the first where they are equal; where
/// none is settled it is the first, with version 0 and generation 0. `Foreign` comes exactly where one of
/// the two is; it reads no entry, so nothing is found damaged or worn.
pub fn choose<D: Disk>(pair: Pair<D>) -> Result<Chosen<D>, (Pair<D>, JournalError)>
    ensures chosen { IsTrue (D.tells pair.main) → IsTrue (D.tells pair.alt) → IfOk result (λ c. IsChosen (D.reads pair.main) (D.reads pair.alt) c.is_alt c.version c.generation) }
    ensures main_settled { IsTrue (D.tells pair.main) → IsTrue (D.tells pair.alt) → IfOk result (λ c. let main = (if c.is_alt then c.other else c.current) in IsSettled (D.moment pair.main) (D.moment main) (D.reads pair.main) (D.reads main) (D.images pair.main) (D.images main)) }
    ensures alt_settled { IsTrue (D.tells pair.main) → IsTrue (D.tells pair.alt) → IfOk result (λ c. let alt = (if c.is_alt then c.current else c.other) in IsSettled (D.moment pair.alt) (D.moment alt) (D.reads pair.alt) (D.reads alt) (D.images pair.alt) (D.images alt)) }
    ensures crash { IsTrue (D.tells pair.main) → IsTrue (D.tells pair.alt) → MatchResult result (λ c. let main = (if c.is_alt then c.other else c.current) in let alt = (if c.is_alt then c.current else c.other) in SinceSynced (D.moment pair.main) (D.moment main) (D.moment pair.alt) (D.moment alt) (D.reads pair.main) (D.reads pair.alt) (D.images main) (D.images alt)) (λ e. e.1 ≡ JournalError.Foreign → SinceSynced (D.moment pair.main) (D.moment e.0.main) (D.moment pair.alt) (D.moment e.0.alt) (D.reads pair.main) (D.reads pair.alt) (D.images e.0.main) (D.images e.0.alt)) }
    ensures rests { IsTrue (D.tells pair.main) → IsTrue (D.tells pair.alt) → IfOk result (λ c. IsAtRest c.is_alt c.generation (D.reads c.current) (D.reads c.other) (D.images c.current (D.moment c.current)) (D.images c.other (D.moment c.other))) }
    ensures main_same { IfOk result (λ c. let main = (if c.is_alt then c.other else c.current) in (D.faults pair.main ≤ D.faults main) × (D.tells main ≡ D.tells pair.main) × (D.takes_memory main ≡ D.takes_memory pair.main)) }
    ensures alt_same { IfOk result (λ c. let alt = (if c.is_alt then c.current else c.other) in (D.faults pair.alt ≤ D.faults alt) × (D.tells alt ≡ D.tells pair.alt) × (D.takes_memory alt ≡ D.takes_memory pair.alt)) }
    ensures same { IfErr result (λ e. (D.faults pair.main ≤ D.faults e.0.main) × (D.tells e.0.main ≡ D.tells pair.main) × (D.faults pair.alt ≤ D.faults e.0.alt) × (D.tells e.0.alt ≡ D.tells pair.alt)) }
    ensures refused { IsTrue (D.tells pair.main) → IsTrue (D.tells pair.alt) → IfErr result (λ e. RefusedKinds e.1 (D.reads pair.main) (D.reads pair.alt)) }
    ensures only { IfErr result (λ e. (e.1 ≡ JournalError.Worn → ⊥) × ((at : ℕ) → e.1 ≡ JournalError.Damaged at → ⊥)) }
    ensures main_looked { IsTrue (D.tells pair.main) → IsTrue (D.tells pair.alt) → IfErr result (λ e. Looked (D.moment pair.main) (D.moment e.0.main) (D.reads pair.main) (D.reads e.0.main) (D.images pair.main) (D.images e.0.main)) }
    ensures alt_looked { IsTrue (D.tells pair.main) → IsTrue (D.tells pair.alt) → IfErr result (λ e. Looked (D.moment pair.alt) (D.moment e.0.alt) (D.reads pair.alt) (D.reads e.0.alt) (D.images pair.alt) (D.images e.0.alt)) }
    ensures fault { IfErr result (λ e. e.1 ≡ JournalError.Fault → Rose (D.faults pair.main) (D.faults e.0.main) ⊎ Rose (D.faults pair.alt) (D.faults e.0.alt)) }
{
    let Pair { mut main, mut alt } = pair;
    match choose_of(&mut main, &mut alt) {
        Ok(choice) => Ok(by_role(main, alt, choice)),
        Err(error) => Err((Pair { main, alt }, error)),
    }
}

// What the current one of the two files holds.
fn inspect_current<D: Disk>(
    alloc: Global,
    main: &mut D,
    alt: &mut D,
    is_alt: bool,
) -> Result<Recovered, JournalError>
    ensures recovered { IsTrue (D.tells main.old) → IsTrue (D.tells alt.old) → IfOk result (λ found. Recovers (if is_alt then D.reads alt.old else D.reads main.old) (Holds found)) }
    ensures refused { IsTrue (D.tells main.old) → IsTrue (D.tells alt.old) → IfErr result (λ e. RefusedAs e (if is_alt then D.reads alt.old else D.reads main.old)) }
    ensures main_looks { IsTrue (D.tells main.old) → OnlyReads (D.moment main.old) (D.moment main.new) (D.reads main.old) (D.reads main.new) (D.images main.old) (D.images main.new) }
    ensures alt_looks { IsTrue (D.tells alt.old) → OnlyReads (D.moment alt.old) (D.moment alt.new) (D.reads alt.old) (D.reads alt.new) (D.images alt.old) (D.images alt.new) }
    ensures later { (D.faults main.old ≤ D.faults main.new) × (D.faults alt.old ≤ D.faults alt.new) }
    ensures fault { IsErrOf result JournalError.Fault → Rose (D.faults main.old) (D.faults main.new) ⊎ Rose (D.faults alt.old) (D.faults alt.new) }
{
    if is_alt {
        inspect(alloc, alt)
    } else {
        inspect(alloc, main)
    }
}

/// Tells what the two files hold together. It writes nothing and makes no sync.
pub fn inspect_pair<D: Disk>(alloc: Global, pair: &mut Pair<D>) -> Result<Recovered, JournalError>
    ensures recovered { IsTrue (D.tells pair.old.main) → IsTrue (D.tells pair.old.alt) → IfOk result (λ found. RecoversPair (D.reads pair.old.main) (D.reads pair.old.alt) (Holds found)) }
    ensures refused { IsTrue (D.tells pair.old.main) → IsTrue (D.tells pair.old.alt) → IfErr result (λ e. RefusedPair e (D.reads pair.old.main) (D.reads pair.old.alt)) }
    ensures main_looks { IsTrue (D.tells pair.old.main) → OnlyReads (D.moment pair.old.main) (D.moment pair.new.main) (D.reads pair.old.main) (D.reads pair.new.main) (D.images pair.old.main) (D.images pair.new.main) }
    ensures alt_looks { IsTrue (D.tells pair.old.alt) → OnlyReads (D.moment pair.old.alt) (D.moment pair.new.alt) (D.reads pair.old.alt) (D.reads pair.new.alt) (D.images pair.old.alt) (D.images pair.new.alt) }
    ensures later { (D.faults pair.old.main ≤ D.faults pair.new.main) × (D.faults pair.old.alt ≤ D.faults pair.new.alt) }
    ensures fault { IsErrOf result JournalError.Fault → Rose (D.faults pair.old.main) (D.faults pair.new.main) ⊎ Rose (D.faults pair.old.alt) (D.faults pair.new.alt) }
{
    let choice = look_both(&mut pair.main, &mut pair.alt)?;
    inspect_current(alloc, &mut pair.main, &mut pair.alt, choice.is_alt)
}
