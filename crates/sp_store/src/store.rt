// A kernel over the current one of a journal's two files.
ghost use Rattle.std.specs.Prelude.{◌≡◌, ◌⊎◌, ℕ, List, IsTrue, IfOk, IfErr, MatchResult};
ghost use Rattle.sp_disk.specs.Faults.{Rose};
ghost use Rattle.sp_rect.specs.declared.record.Record.{Record as AnyRecord};
ghost use Rattle.sp_node.specs.Table.{IsShape};
ghost use Rattle.sp_journal.specs.Kinds.{HasVersion};
ghost use Rattle.sp_pair.specs.Compacting.{IsAtRest, first_of, second_of};
ghost use Rattle.sp_pair.specs.Pairs.{IsChosen, RefusedPair};
ghost use Rattle.sp_model.specs.Opening.{IsOpened};
ghost use Rattle.sp_store.specs.Opening.{IsOpenedOver, ComeFrom, RolesComeFrom, IsCurrent, IsRenewed};
ghost use Rattle.sp_store.specs.Files.{main_of, alt_of, Follows, told_as};
ghost use Rattle.sp_store.specs.Keeping.{IsBeside};
ghost use Rattle.sp_store.specs.Stopping.{IsTurned, SinceChosen, SinceOpened};

use sp_audit::Audit;
use sp_disk::Disk;
use sp_journal::JournalError;
use sp_kernel::{Kernel, StartError};
use sp_node::Shape;
use sp_pair::{Chosen, Pair, choose, compact};
use std::alloc::Global;

/// A kernel over the current one of a journal's two files, and the other file, which it leaves as it is.
#[derive(Drop)]
pub struct Store<D: Disk> {
    pub kernel: Kernel<D>,
    pub other: D,
    /// Whether the current file is the second of the two.
    pub is_alt: bool,
}

// The two files by their names.
fn by_name<D: Disk>(current: D, other: D, is_alt: bool) -> Pair<D>
    ensures main { result.main ≡ main_of is_alt current other }
    ensures alt { result.alt ≡ alt_of is_alt current other }
{
    if is_alt {
        Pair {
            main: other,
            alt: current,
        }
    } else {
        Pair {
            main: current,
            alt: other,
        }
    }
}

// What a kernel that could not be started is told as.
fn refusal_of(error: StartError) -> JournalError
    ensures { result ≡ told_as error }
{
    match error {
        StartError::Foreign => JournalError::Foreign,
        StartError::Damaged(offset) => JournalError::Damaged(offset),
        StartError::DiskFault => JournalError::Fault,
        StartError::Memory => JournalError::Memory,
    }
}

impl<D: Disk> Store<D> {
    /// The audit and the two files. Takes no memory.
    pub fn finish(self) -> (Audit, Pair<D>)
        ensures base { result.0.base ≡ self.kernel.kernel.base }
        ensures commits { result.0.commits ≡ self.kernel.kernel.commits }
        ensures ended { result.0.ended ≡ self.kernel.kernel.ended }
        ensures main { result.1.main ≡ main_of self.is_alt self.kernel.disk self.other }
        ensures alt { result.1.alt ≡ alt_of self.is_alt self.kernel.disk self.other }
    {
        let Store {
            kernel,
            other,
            is_alt,
        } = self;
        let (audit, current) = kernel.finish();
        (audit, by_name(current, other, is_alt))
    }
}

// A current file of version 1, whose generation is 0, is written anew, as one of version 2, into the other one, which
// is then current.
fn renew<D: Disk>(alloc: Global, chosen: Chosen<D>) -> Result<Chosen<D>, (Chosen<D>, JournalError)>
    ensures come { IsTrue (D.tells chosen.current) → IsTrue (D.tells chosen.other) → IsAtRest chosen.is_alt chosen.generation (D.reads chosen.current) (D.reads chosen.other) (D.images chosen.current (D.moment chosen.current)) (D.images chosen.other (D.moment chosen.other)) → IfOk result (λ c. RolesComeFrom chosen.is_alt (D.reads chosen.current) (D.reads chosen.other) c.is_alt (D.reads c.current) (D.reads c.other)) }
    ensures current { IsTrue (D.tells chosen.current) → IsTrue (D.tells chosen.other) → IsAtRest chosen.is_alt chosen.generation (D.reads chosen.current) (D.reads chosen.other) (D.images chosen.current (D.moment chosen.current)) (D.images chosen.other (D.moment chosen.other)) → IfOk result (λ c. IsCurrent c.is_alt (D.reads c.current) (D.reads c.other)) }
    ensures alone { IsTrue (D.tells chosen.current) → IsTrue (D.tells chosen.other) → IsAtRest chosen.is_alt chosen.generation (D.reads chosen.current) (D.reads chosen.other) (D.images chosen.current (D.moment chosen.current)) (D.images chosen.other (D.moment chosen.other)) → IfOk result (λ c. (file : List ℕ) → D.images c.other (D.moment c.other) file → file ≡ D.reads c.other) }
    ensures crash { IfOk result (λ c. ((c.is_alt ≡ chosen.is_alt) × (c.current ≡ chosen.current) × (c.other ≡ chosen.other)) ⊎ IsTurned D.tells D.reads D.moment D.images chosen.is_alt chosen.generation chosen.current chosen.other c.is_alt c.current c.other) }
    ensures refused { IsTrue (D.tells chosen.current) → IsTrue (D.tells chosen.other) → IsAtRest chosen.is_alt chosen.generation (D.reads chosen.current) (D.reads chosen.other) (D.images chosen.current (D.moment chosen.current)) (D.images chosen.other (D.moment chosen.other)) → IsChosen (first_of chosen.is_alt (D.reads chosen.current) (D.reads chosen.other)) (second_of chosen.is_alt (D.reads chosen.current) (D.reads chosen.other)) chosen.is_alt chosen.version chosen.generation → IfErr result (λ e. RefusedPair e.1 (first_of chosen.is_alt (D.reads chosen.current) (D.reads chosen.other)) (second_of chosen.is_alt (D.reads chosen.current) (D.reads chosen.other))) }
    ensures renewed { IfOk result (λ c. c.version ≡ 1 → c.generation ≡ 0 → ⊥) }
    ensures version { IsTrue (D.tells chosen.current) → IsTrue (D.tells chosen.other) → IsAtRest chosen.is_alt chosen.generation (D.reads chosen.current) (D.reads chosen.other) (D.images chosen.current (D.moment chosen.current)) (D.images chosen.other (D.moment chosen.other)) → IsChosen (first_of chosen.is_alt (D.reads chosen.current) (D.reads chosen.other)) (second_of chosen.is_alt (D.reads chosen.current) (D.reads chosen.other)) chosen.is_alt chosen.version chosen.generation → IfOk result (λ c. IsRenewed c.is_alt (D.reads c.current) (D.reads c.other)) }
    ensures unworn { IfErr result (λ e. e.1 ≡ JournalError.Worn → ⊥) }
    ensures main_same { MatchResult result (λ c. Follows D.tells D.faults (main_of chosen.is_alt chosen.current chosen.other) (main_of c.is_alt c.current c.other)) (λ e. Follows D.tells D.faults (main_of chosen.is_alt chosen.current chosen.other) (main_of e.0.is_alt e.0.current e.0.other)) }
    ensures alt_same { MatchResult result (λ c. Follows D.tells D.faults (alt_of chosen.is_alt chosen.current chosen.other) (alt_of c.is_alt c.current c.other)) (λ e. Follows D.tells D.faults (alt_of chosen.is_alt chosen.current chosen.other) (alt_of e.0.is_alt e.0.current e.0.other)) }
    ensures fault { IfErr result (λ e. e.1 ≡ JournalError.Fault → Rose (D.faults (main_of chosen.is_alt chosen.current chosen.other)) (D.faults (main_of e.0.is_alt e.0.current e.0.other)) ⊎ Rose (D.faults (alt_of chosen.is_alt chosen.current chosen.other)) (D.faults (alt_of e.0.is_alt e.0.current e.0.other))) }
{
    match (chosen.version, chosen.generation) {
        (1, 0) => match compact(alloc, chosen) {
            Ok((renewed, _)) => Ok(renewed),
            Err(refused) => Err(refused),
        },
        _ => Ok(chosen),
    }
}

// The two files by what they are, once a current one of version 1 is written anew.
fn choose_renewed<D: Disk>(
    alloc: Global,
    pair: Pair<D>,
) -> Result<Chosen<D>, (Pair<D>, JournalError)>
    ensures come { IsTrue (D.tells pair.main) → IsTrue (D.tells pair.alt) → IfOk result (λ c. ComeFrom (D.reads pair.main) (D.reads pair.alt) (first_of c.is_alt (D.reads c.current) (D.reads c.other)) (second_of c.is_alt (D.reads c.current) (D.reads c.other))) }
    ensures current { IsTrue (D.tells pair.main) → IsTrue (D.tells pair.alt) → IfOk result (λ c. IsTrue (D.tells c.current) × IsCurrent c.is_alt (D.reads c.current) (D.reads c.other)) }
    ensures alone { IsTrue (D.tells pair.main) → IsTrue (D.tells pair.alt) → IfOk result (λ c. (file : List ℕ) → D.images c.other (D.moment c.other) file → file ≡ D.reads c.other) }
    ensures crash { IsTrue (D.tells pair.main) → IsTrue (D.tells pair.alt) → IfOk result (λ c. SinceChosen D.reads D.moment D.images pair.main pair.alt c.is_alt c.current c.other) }
    ensures refused { IsTrue (D.tells pair.main) → IsTrue (D.tells pair.alt) → IfErr result (λ e. RefusedPair e.1 (D.reads pair.main) (D.reads pair.alt)) }
    ensures renewed { IfOk result (λ c. c.version ≡ 1 → c.generation ≡ 0 → ⊥) }
    ensures version { IsTrue (D.tells pair.main) → IsTrue (D.tells pair.alt) → IfOk result (λ c. IsRenewed c.is_alt (D.reads c.current) (D.reads c.other)) }
    ensures unworn { IfErr result (λ e. e.1 ≡ JournalError.Worn → ⊥) }
    ensures main_same { MatchResult result (λ c. Follows D.tells D.faults pair.main (main_of c.is_alt c.current c.other)) (λ e. Follows D.tells D.faults pair.main e.0.main) }
    ensures alt_same { MatchResult result (λ c. Follows D.tells D.faults pair.alt (alt_of c.is_alt c.current c.other)) (λ e. Follows D.tells D.faults pair.alt e.0.alt) }
    ensures fault { IfErr result (λ e. e.1 ≡ JournalError.Fault → Rose (D.faults pair.main) (D.faults e.0.main) ⊎ Rose (D.faults pair.alt) (D.faults e.0.alt)) }
{
    let chosen = choose(pair)?;
    match renew(alloc, chosen) {
        Ok(renewed) => Ok(renewed),
        Err((left, error)) => Err((by_name(left.current, left.other, left.is_alt), error)),
    }
}

// Starts a kernel over the current file.
fn start_over<D: Disk>(
    alloc: Global,
    chosen: Chosen<D>,
    shape: Shape,
) -> Result<Store<D>, (Pair<D>, JournalError)>
    requires { IsShape shape }
    ensures opened { IfOk result (λ store. (records : List AnyRecord) × IsOpened shape records store.kernel.kernel) }
    ensures over { IsTrue (D.tells chosen.current) → IsCurrent chosen.is_alt (D.reads chosen.current) (D.reads chosen.other) → IfOk result (λ store. IsOpenedOver (first_of chosen.is_alt (D.reads chosen.current) (D.reads chosen.other)) (second_of chosen.is_alt (D.reads chosen.current) (D.reads chosen.other)) shape store.kernel.kernel) }
    ensures beside { IsTrue (D.tells chosen.current) → IsCurrent chosen.is_alt (D.reads chosen.current) (D.reads chosen.other) → ((file : List ℕ) → D.images chosen.other (D.moment chosen.other) file → file ≡ D.reads chosen.other) → IfOk result (λ store. IsBeside store.is_alt (D.reads store.other) (D.images store.kernel.disk (D.moment store.kernel.disk)) (D.images store.other (D.moment store.other))) }
    ensures crash { (main alt : D) → IsTrue (D.tells chosen.current) → IsCurrent chosen.is_alt (D.reads chosen.current) (D.reads chosen.other) → SinceChosen D.reads D.moment D.images main alt chosen.is_alt chosen.current chosen.other → IfOk result (λ s. SinceOpened D.reads D.moment D.images main alt s.is_alt s.kernel.disk s.other) }
    ensures version { IsTrue (D.tells chosen.current) → IsRenewed chosen.is_alt (D.reads chosen.current) (D.reads chosen.other) → IfOk result (λ store. (file : List ℕ) → D.images store.kernel.disk (D.moment store.kernel.disk) file → HasVersion 2 file) }
    ensures refused { IsTrue (D.tells chosen.current) → IsCurrent chosen.is_alt (D.reads chosen.current) (D.reads chosen.other) → IfErr result (λ e. RefusedPair e.1 (first_of chosen.is_alt (D.reads chosen.current) (D.reads chosen.other)) (second_of chosen.is_alt (D.reads chosen.current) (D.reads chosen.other))) }
    ensures unworn { IfErr result (λ e. e.1 ≡ JournalError.Worn → ⊥) }
    ensures main_same { MatchResult result (λ s. Follows D.tells D.faults (main_of chosen.is_alt chosen.current chosen.other) (main_of s.is_alt s.kernel.disk s.other)) (λ e. Follows D.tells D.faults (main_of chosen.is_alt chosen.current chosen.other) e.0.main) }
    ensures alt_same { MatchResult result (λ s. Follows D.tells D.faults (alt_of chosen.is_alt chosen.current chosen.other) (alt_of s.is_alt s.kernel.disk s.other)) (λ e. Follows D.tells D.faults (alt_of chosen.is_alt chosen.current chosen.other) e.0.alt) }
    ensures fault { IfErr result (λ e. e.1 ≡ JournalError.Fault → Rose (D.faults (main_of chosen.is_alt chosen.current chosen.other)) (D.faults e.0.main) ⊎ Rose (D.faults (alt_of chosen.is_alt chosen.current chosen.other)) (D.faults e.0.alt)) }
{
    let Chosen {
        current,
        other,
        is_alt,
        version: _,
        generation: _,
    } = chosen;
    match Kernel::start(alloc, current, shape) {
        Ok(kernel) => Ok(Store {
            kernel,
            other,
            is_alt,
        }),
        Err((current, error)) => Err((by_name(current, other, is_alt), refusal_of(error))),
    }
}

/// Starts a kernel over the two files of a journal: over the current one, as `Kernel::start` says, once one of
/// version 1 is written anew. `shape` bounds the members of a node. Over disks that tell their bytes the kernel is the
/// one that opening gives over the records that the two files hold, and `Foreign` and `Damaged` come only where they
/// are so. `Fault` comes only where the count of one of the two rose. With an error the two files are handed back.
/// From the first syncs on, which are the first calls, up to the start of the kernel, whichever two files a stop leaves
/// hold the same records, or are damaged at the same offset.
///
/// Then the kernel's file is the current one beside the other as it reads, with nothing pending on that: so whatever a
/// stop leaves while the kernel runs, the two files hold what the kernel's one does
/// ([`two_files_hold_what_the_current_one_does`](crate::two_files_hold_what_the_current_one_does)). Whatever a stop leaves
/// of the kernel's file begins with a valid header of version 2, also where it has no commit.
pub fn open_store<D: Disk>(
    alloc: Global,
    pair: Pair<D>,
    shape: Shape,
) -> Result<Store<D>, (Pair<D>, JournalError)>
    requires { IsShape shape }
    ensures opened { IfOk result (λ store. (records : List AnyRecord) × IsOpened shape records store.kernel.kernel) }
    ensures over { IsTrue (D.tells pair.main) → IsTrue (D.tells pair.alt) → IfOk result (λ store. IsOpenedOver (D.reads pair.main) (D.reads pair.alt) shape store.kernel.kernel) }
    ensures beside { IsTrue (D.tells pair.main) → IsTrue (D.tells pair.alt) → IfOk result (λ store. IsBeside store.is_alt (D.reads store.other) (D.images store.kernel.disk (D.moment store.kernel.disk)) (D.images store.other (D.moment store.other))) }
    ensures version { IsTrue (D.tells pair.main) → IsTrue (D.tells pair.alt) → IfOk result (λ store. (file : List ℕ) → D.images store.kernel.disk (D.moment store.kernel.disk) file → HasVersion 2 file) }
    ensures crash { IsTrue (D.tells pair.main) → IsTrue (D.tells pair.alt) → IfOk result (λ store. SinceOpened D.reads D.moment D.images pair.main pair.alt store.is_alt store.kernel.disk store.other) }
    ensures refused { IsTrue (D.tells pair.main) → IsTrue (D.tells pair.alt) → IfErr result (λ e. RefusedPair e.1 (D.reads pair.main) (D.reads pair.alt)) }
    ensures unworn { IfErr result (λ e. e.1 ≡ JournalError.Worn → ⊥) }
    ensures main_same { MatchResult result (λ s. Follows D.tells D.faults pair.main (main_of s.is_alt s.kernel.disk s.other)) (λ e. Follows D.tells D.faults pair.main e.0.main) }
    ensures alt_same { MatchResult result (λ s. Follows D.tells D.faults pair.alt (alt_of s.is_alt s.kernel.disk s.other)) (λ e. Follows D.tells D.faults pair.alt e.0.alt) }
    ensures fault { IfErr result (λ e. e.1 ≡ JournalError.Fault → Rose (D.faults pair.main) (D.faults e.0.main) ⊎ Rose (D.faults pair.alt) (D.faults e.0.alt)) }
{
    let chosen = choose_renewed(alloc, pair)?;
    start_over(alloc, chosen, shape)
}
