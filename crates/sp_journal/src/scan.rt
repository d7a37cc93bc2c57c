// A whole file, read.
ghost use Rattle.std.specs.Prelude.{◌≡◌, ◌<◌, ◌≤◌, ◌^◌, ◌++◌, ℕ, length, drop, IsTrue, IfOk, IsErrOf};
ghost use Rattle.sp_disk.specs.Faults.{Rose};
ghost use Rattle.sp_journal.specs.Chaining.{Ended};
ghost use Rattle.sp_journal.specs.Format.{header_bytes};
ghost use Rattle.sp_journal.specs.Looking.{OnlyReads};
ghost use Rattle.sp_journal.specs.Recovery.{Base, IsHeader, Recovers, nothing};
ghost use Rattle.sp_journal.specs.Kinds.{IsKind};
ghost use Rattle.sp_journal.specs.Recovery.{Foreign, Damaged, Holds};
ghost use Rattle.sp_journal.specs.Scanning.{IsScan};
ghost use Rattle.sp_journal.specs.Scanning.{AreHeld};

use crate::chain::Chain;
use crate::kind::{Kind, kind_on};
use crate::scanned::Scan;
use crate::turn::{Turn, walk};
use crate::{JournalError, Recovered};
use sp_disk::Disk;
use sp_rect::Records;
use std::alloc::Global;

// The entries of a settled file of that length and generation.
fn entries<D: Disk>(
    alloc: Global,
    disk: &mut D,
    len: u64,
    generation: u64,
) -> Result<Chain, JournalError>
    requires long { 17 < len }
    requires small { len < 2 ^ 63 }
    ensures ended { (version : ℕ) → IsTrue (D.tells disk.old) → length (D.reads disk.old) ≡ len → IsHeader version generation → D.reads disk.old ≡ header_bytes version generation ++ drop 16 (D.reads disk.old) → IfOk result (λ chain. (base : Base) × (base.version ≡ version) × Ended (D.reads disk.old) chain base) }
    ensures generation { IfOk result (λ chain. chain.generation ≡ generation) }
    ensures damaged { (version at : ℕ) → IsTrue (D.tells disk.old) → length (D.reads disk.old) ≡ len → IsHeader version generation → D.reads disk.old ≡ header_bytes version generation ++ drop 16 (D.reads disk.old) → IsErrOf result (JournalError.Damaged at) → Recovers (D.reads disk.old) (Damaged at) }
    ensures foreign { IsErrOf result JournalError.Foreign → ⊥ }
    ensures worn { IsErrOf result JournalError.Worn → ⊥ }
    ensures looks { IsTrue (D.tells disk.old) → OnlyReads (D.moment disk.old) (D.moment disk.new) (D.reads disk.old) (D.reads disk.new) (D.images disk.old) (D.images disk.new) }
    ensures later { D.faults disk.old ≤ D.faults disk.new }
    ensures fault { IsErrOf result JournalError.Fault → Rose (D.faults disk.old) (D.faults disk.new) }
    ensures tells { D.tells disk.new ≡ D.tells disk.old }
    ensures takes { D.takes_memory disk.new ≡ D.takes_memory disk.old }
{
    let mut chain = Chain::new(alloc, generation);
    match walk(disk, &mut chain, len)? {
        Turn::Closed => Ok(chain),
        _ => Err(JournalError::Damaged(chain.at)),
    }
}

// What a settled file of that length, version and generation holds.
fn settled<D: Disk>(
    alloc: Global,
    disk: &mut D,
    len: u64,
    version: u32,
    generation: u64,
) -> Result<Scan, JournalError>
    requires long { 17 < len }
    requires small { len < 2 ^ 63 }
    ensures held { IfOk result (λ scan. AreHeld scan.found.records) }
    ensures scan { IsTrue (D.tells disk.old) → length (D.reads disk.old) ≡ len → IsKind (D.reads disk.old) (Kind.Settled version generation) → IfOk result (IsScan (D.reads disk.old)) }
    ensures damaged { (at : ℕ) → IsTrue (D.tells disk.old) → length (D.reads disk.old) ≡ len → IsKind (D.reads disk.old) (Kind.Settled version generation) → IsErrOf result (JournalError.Damaged at) → Recovers (D.reads disk.old) (Damaged at) }
    ensures foreign { IsErrOf result JournalError.Foreign → ⊥ }
    ensures worn { IsErrOf result JournalError.Worn → ⊥ }
    ensures looks { IsTrue (D.tells disk.old) → OnlyReads (D.moment disk.old) (D.moment disk.new) (D.reads disk.old) (D.reads disk.new) (D.images disk.old) (D.images disk.new) }
    ensures later { D.faults disk.old ≤ D.faults disk.new }
    ensures fault { IsErrOf result JournalError.Fault → Rose (D.faults disk.old) (D.faults disk.new) }
    ensures tells { D.tells disk.new ≡ D.tells disk.old }
    ensures takes { D.takes_memory disk.new ≡ D.takes_memory disk.old }
{
    let chain = entries(alloc, disk, len, generation)?;
    Ok(Scan {
        kind: Kind::Settled {
            version,
            generation,
        },
        end: chain.at,
        found: chain.recovered()?,
    })
}

// What a file holds that is to be made anew.
fn unmade(alloc: Global, kind: Kind) -> Scan
    ensures kind { result.kind ≡ kind }
    ensures end { result.end ≡ 16 }
    ensures found { result.found ≡ nothing }
{
    Scan {
        kind,
        end: 16,
        found: Recovered {
            records: Records::new(alloc),
            batches: 0,
            commits: 0,
        },
    }
}

/// Reads a file: its kind, and what it holds. Nothing is written. `Foreign` and `Damaged` come exactly
/// where the file is so. The payload of one entry is held at a time, and no more memory is taken for it
/// than the file has bytes.
pub fn scan_file<D: Disk>(alloc: Global, disk: &mut D) -> Result<Scan, JournalError>
    ensures held { IfOk result (λ scan. AreHeld scan.found.records) }
    ensures scan { IsTrue (D.tells disk.old) → IfOk result (IsScan (D.reads disk.old)) }
    ensures foreign { IsTrue (D.tells disk.old) → IsErrOf result JournalError.Foreign → Recovers (D.reads disk.old) Foreign }
    ensures worn { IsErrOf result JournalError.Worn → ⊥ }
    ensures damaged { (at : ℕ) → IsTrue (D.tells disk.old) → IsErrOf result (JournalError.Damaged at) → Recovers (D.reads disk.old) (Damaged at) }
    ensures looks { IsTrue (D.tells disk.old) → OnlyReads (D.moment disk.old) (D.moment disk.new) (D.reads disk.old) (D.reads disk.new) (D.images disk.old) (D.images disk.new) }
    ensures later { D.faults disk.old ≤ D.faults disk.new }
    ensures fault { IsErrOf result JournalError.Fault → Rose (D.faults disk.old) (D.faults disk.new) }
    ensures tells { D.tells disk.new ≡ D.tells disk.old }
    ensures takes { D.takes_memory disk.new ≡ D.takes_memory disk.old }
{
    let len = disk.len()?;
    match kind_on(disk, len)? {
        Kind::Settled {
            version,
            generation,
        } => settled(alloc, disk, len, version, generation),
        Kind::Foreign => Err(JournalError::Foreign),
        kind => Ok(unmade(alloc, kind)),
    }
}
