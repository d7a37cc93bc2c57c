// The two files of a journal are compacted, and told by their names again.
ghost use Rattle.std.specs.Prelude.{◌≡◌, ◌⊎◌, ◌≤◌, IsTrue, IfOk, IfErr, IsErrOf, if◌then◌else◌};
ghost use Rattle.sp_disk.specs.Faults.{Rose};
ghost use Rattle.sp_files.specs.Compacting.{Leaves, Refuses, Renews, Survives};

use sp_disk::Disk;
use sp_journal::JournalError;
use sp_pair::{Chosen, Pair, choose, compact};
use std::alloc::Global;

/// The generation of a journal that was compacted, and the number of records with which it begins.
#[derive(Clone, Copy, Debug, PartialEq, Eq)]
pub struct Compaction {
    pub generation: u64,
    pub records: u64,
}

/// Settles the two files, and writes all records of the current one into the other, which then is current,
/// with the next generation and no history. Whatever a stop at some moment since the first syncs leaves of
/// the two holds these records. `Foreign` comes exactly where one of the files is, `Damaged` where the current
/// one is so, and `Worn` where it has the last generation that there is; each leaves the two as they were.
/// `Fault` comes only where the count of one of the disks rose.
pub fn compact_pair<D: Disk>(
    alloc: Global,
    pair: Pair<D>,
) -> (Pair<D>, Result<Compaction, JournalError>)
    ensures renews { IsTrue (D.tells pair.main) → IsTrue (D.tells pair.alt) → IfOk result.1 (λ c. Renews (D.reads pair.main) (D.reads pair.alt) (D.reads result.0.main) (D.reads result.0.alt) c.generation c.records) }
    ensures refused { IsTrue (D.tells pair.main) → IsTrue (D.tells pair.alt) → IfErr result.1 (λ e. Refuses e (D.reads pair.main) (D.reads pair.alt)) }
    ensures leaves { IsTrue (D.tells pair.main) → IsTrue (D.tells pair.alt) → IfErr result.1 (λ e. Leaves e (D.reads pair.main) (D.reads pair.alt) (D.reads result.0.main) (D.reads result.0.alt)) }
    ensures crash { IsTrue (D.tells pair.main) → IsTrue (D.tells pair.alt) → Survives (D.moment pair.main) (D.moment result.0.main) (D.moment pair.alt) (D.moment result.0.alt) (D.reads pair.main) (D.reads pair.alt) (D.reads result.0.main) (D.reads result.0.alt) (D.images pair.main) (D.images result.0.main) (D.images pair.alt) (D.images result.0.alt) }
    ensures later { (D.faults pair.main ≤ D.faults result.0.main) × (D.faults pair.alt ≤ D.faults result.0.alt) }
    ensures fault { IsErrOf result.1 JournalError.Fault → Rose (D.faults pair.main) (D.faults result.0.main) ⊎ Rose (D.faults pair.alt) (D.faults result.0.alt) }
    ensures tells { (D.tells result.0.main ≡ D.tells pair.main) × (D.tells result.0.alt ≡ D.tells pair.alt) }
{
    let chosen = match choose(pair) {
        Ok(chosen) => chosen,
        Err((pair, error)) => return (pair, Err(error)),
    };
    match compact(alloc, chosen) {
        Ok((chosen, records)) => {
            let generation = chosen.generation;
            (
                by_name(chosen),
                Ok(Compaction {
                    generation,
                    records,
                }),
            )
        }
        Err((chosen, error)) => (by_name(chosen), Err(error)),
    }
}

// The two files by their names.
fn by_name<D: Disk>(chosen: Chosen<D>) -> Pair<D>
    ensures main { result.main ≡ (if chosen.is_alt then chosen.other else chosen.current) }
    ensures alt { result.alt ≡ (if chosen.is_alt then chosen.current else chosen.other) }
{
    let Chosen {
        current,
        other,
        is_alt,
        version: _,
        generation: _,
    } = chosen;
    if is_alt {
        Pair {
            main: other,
            alt: current,
        }
    } else {
        Pair {
            main: current,
            alt: other,
        }
    }
}
