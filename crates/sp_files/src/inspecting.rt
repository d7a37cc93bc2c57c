// What two files hold together is told.
ghost use Rattle.std.specs.Prelude.{◌⊎◌, ◌≤◌, IsTrue, IfOk, IfErr, IsErrOf};
ghost use Rattle.sp_disk.specs.Faults.{Rose};
ghost use Rattle.sp_journal.specs.Looking.{OnlyReads};
ghost use Rattle.sp_pair.specs.Pairs.{RefusedPair};
ghost use Rattle.sp_report.specs.Report.{check_text, dump_text};
ghost use Rattle.sp_files.specs.Reporting.{TextOver};

use sp_disk::Disk;
use sp_journal::JournalError;
use sp_list::Text;
use sp_pair::{Pair, inspect_pair};
use sp_report::{check_text, dump_text};
use std::alloc::Global;

/// The records that the two files hold, as a text: `found N`, and a line for each. It only reads.
pub fn dumped<D: Disk>(alloc: Global, pair: &mut Pair<D>) -> Result<Text, JournalError>
    ensures text { IsTrue (D.tells pair.old.main) → IsTrue (D.tells pair.old.alt) → IfOk result (TextOver dump_text (D.reads pair.old.main) (D.reads pair.old.alt)) }
    ensures refused { IsTrue (D.tells pair.old.main) → IsTrue (D.tells pair.old.alt) → IfErr result (λ e. RefusedPair e (D.reads pair.old.main) (D.reads pair.old.alt)) }
    ensures main_looks { IsTrue (D.tells pair.old.main) → OnlyReads (D.moment pair.old.main) (D.moment pair.new.main) (D.reads pair.old.main) (D.reads pair.new.main) (D.images pair.old.main) (D.images pair.new.main) }
    ensures alt_looks { IsTrue (D.tells pair.old.alt) → OnlyReads (D.moment pair.old.alt) (D.moment pair.new.alt) (D.reads pair.old.alt) (D.reads pair.new.alt) (D.images pair.old.alt) (D.images pair.new.alt) }
    ensures later { (D.faults pair.old.main ≤ D.faults pair.new.main) × (D.faults pair.old.alt ≤ D.faults pair.new.alt) }
    ensures fault { IsErrOf result JournalError.Fault → Rose (D.faults pair.old.main) (D.faults pair.new.main) ⊎ Rose (D.faults pair.old.alt) (D.faults pair.new.alt) }
{
    let found = inspect_pair(alloc, pair)?;
    Ok(dump_text(alloc, &found)?)
}

/// What the two files hold, counted: the line `whole B C R`. It only reads.
pub fn checked<D: Disk>(alloc: Global, pair: &mut Pair<D>) -> Result<Text, JournalError>
    ensures text { IsTrue (D.tells pair.old.main) → IsTrue (D.tells pair.old.alt) → IfOk result (TextOver check_text (D.reads pair.old.main) (D.reads pair.old.alt)) }
    ensures refused { IsTrue (D.tells pair.old.main) → IsTrue (D.tells pair.old.alt) → IfErr result (λ e. RefusedPair e (D.reads pair.old.main) (D.reads pair.old.alt)) }
    ensures main_looks { IsTrue (D.tells pair.old.main) → OnlyReads (D.moment pair.old.main) (D.moment pair.new.main) (D.reads pair.old.main) (D.reads pair.new.main) (D.images pair.old.main) (D.images pair.new.main) }
    ensures alt_looks { IsTrue (D.tells pair.old.alt) → OnlyReads (D.moment pair.old.alt) (D.moment pair.new.alt) (D.reads pair.old.alt) (D.reads pair.new.alt) (D.images pair.old.alt) (D.images pair.new.alt) }
    ensures later { (D.faults pair.old.main ≤ D.faults pair.new.main) × (D.faults pair.old.alt ≤ D.faults pair.new.alt) }
    ensures fault { IsErrOf result JournalError.Fault → Rose (D.faults pair.old.main) (D.faults pair.new.main) ⊎ Rose (D.faults pair.old.alt) (D.faults pair.new.alt) }
{
    let found = inspect_pair(alloc, pair)?;
    Ok(check_text(alloc, &found)?)
}
