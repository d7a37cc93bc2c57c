// The entries of a file on a disk, one at a time.
ghost use Rattle.std.specs.Prelude.{◌≡◌, ◌≢◌, ◌+◌, ◌<◌, ◌≤◌, ◌^◌, ℕ, List, length, IsTrue, IfOk, IfErr, IsErrOf};
ghost use Rattle.sp_disk.specs.Faults.{Rose};
ghost use Rattle.sp_journal.specs.Recovery.{Base, Enters};
ghost use Rattle.sp_journal.specs.Chaining.{Reached, Turned, Stopped, found_in};
ghost use Rattle.sp_journal.specs.declared.types.Recovered.{Recovered};
ghost use Rattle.sp_journal.specs.Looking.{OnlyReads};

use crate::chain::Chain;
use crate::decode::Unread;
use crate::entry::{read_front, read_payload};
use sp_disk::{Disk, DiskError};

/// What stands at a gate.
#[derive(Clone, Copy, PartialEq, Eq)]
pub enum Turn {
    /// The gate is closed.
    Closed,
    /// It is open, and no whole entry that can be applied stands behind it.
    Damaged,
    /// An entry was read.
    Entered,
}

// Takes in the entry of that payload, if it may stand there and can be applied.
fn take_in(chain: &mut Chain, payload: &[u8]) -> Result<Turn, DiskError>
    requires short { length payload.now < 2 ^ 32 }
    requires fits { chain.old.at + 5 + length payload.now < 2 ^ 63 }
    ensures entered { (front : List ℕ) → chain.old.at ≡ 16 + length front → IfOk result (λ turn. turn ≡ Turn.Entered → Enters chain.old.generation front (found_in chain.old) payload.now (found_in chain.new)) }
    ensures refused { (front : List ℕ) (after : Recovered) → chain.old.at ≡ 16 + length front → IfOk result (λ turn. turn ≡ Turn.Damaged → Enters chain.old.generation front (found_in chain.old) payload.now after → ⊥) }
    ensures place { IfOk result (λ turn. turn ≡ Turn.Entered → chain.new.at ≡ chain.old.at + 5 + length payload.now) }
    ensures stays { IfOk result (λ turn. turn ≡ Turn.Damaged → chain.new.at ≡ chain.old.at) }
    ensures open_gate { IfOk result (λ turn. turn ≢ Turn.Closed) }
    ensures generation { chain.new.generation ≡ chain.old.generation }
    ensures memory { IfErr result (λ e. e ≡ DiskError.Memory) }
{
    match chain.enter(payload) {
        Ok(()) => Ok(Turn::Entered),
        Err(Unread::Bad) => Ok(Turn::Damaged),
        Err(Unread::Memory) => Err(DiskError::Memory),
    }
}

// What stands at the gate that comes next in a file of that length.
fn turn_at<D: Disk>(disk: &mut D, chain: &mut Chain, len: u64) -> Result<Turn, DiskError>
    requires inside { chain.old.at < len }
    requires small { len < 2 ^ 63 }
    ensures turned { (base : Base) → IsTrue (D.tells disk.old) → length (D.reads disk.old) ≡ len → Reached (D.reads disk.old) chain.old base → IfOk result (λ turn. Turned turn (D.reads disk.old) chain.new base) }
    ensures on { IfOk result (λ turn. turn ≡ Turn.Entered → (chain.old.at < chain.new.at) × (chain.new.at < len)) }
    ensures generation { chain.new.generation ≡ chain.old.generation }
    ensures looks { IsTrue (D.tells disk.old) → OnlyReads (D.moment disk.old) (D.moment disk.new) (D.reads disk.old) (D.reads disk.new) (D.images disk.old) (D.images disk.new) }
    ensures later { D.faults disk.old ≤ D.faults disk.new }
    ensures fault { IsErrOf result DiskError.Fault → Rose (D.faults disk.old) (D.faults disk.new) }
    ensures tells { D.tells disk.new ≡ D.tells disk.old }
    ensures takes { D.takes_memory disk.new ≡ D.takes_memory disk.old }
{
    let front = read_front(disk, chain.at)?;
    if front.gate != 1 {
        return Ok(Turn::Closed);
    }
    match read_payload(chain.alloc, disk, chain.at, front.size, len)? {
        Some(payload) => take_in(chain, payload.as_slice()),
        None => Ok(Turn::Damaged),
    }
}

/// Reads the entries from the gate that comes next on, up to one behind which there is none.
pub fn walk<D: Disk>(disk: &mut D, chain: &mut Chain, len: u64) -> Result<Turn, DiskError>
    requires inside { chain.old.at < len }
    requires small { len < 2 ^ 63 }
    ensures stopped { (base : Base) → IsTrue (D.tells disk.old) → length (D.reads disk.old) ≡ len → Reached (D.reads disk.old) chain.old base → IfOk result (λ turn. Stopped turn (D.reads disk.old) chain.new base.version) }
    ensures generation { chain.new.generation ≡ chain.old.generation }
    ensures looks { IsTrue (D.tells disk.old) → OnlyReads (D.moment disk.old) (D.moment disk.new) (D.reads disk.old) (D.reads disk.new) (D.images disk.old) (D.images disk.new) }
    ensures later { D.faults disk.old ≤ D.faults disk.new }
    ensures fault { IsErrOf result DiskError.Fault → Rose (D.faults disk.old) (D.faults disk.new) }
    ensures tells { D.tells disk.new ≡ D.tells disk.old }
    ensures takes { D.takes_memory disk.new ≡ D.takes_memory disk.old }
{
    'walk: loop {
        let turn = turn_at(disk, chain, len)?;
        if turn != Turn::Entered {
            return Ok(turn);
        }
    }
}
