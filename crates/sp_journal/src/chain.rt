// The entries of a file that were read so far.
ghost use Rattle.std.specs.Prelude.{◌<◌, ◌≤◌, ◌^◌, length};
ghost use Rattle.sp_plain.specs.Taking.{most_records};

use crate::Recovered;
use crate::contents::{load, make_batch};
use crate::decode::Unread;
use sp_list::Duplicate;
use sp_plain::Plain;
use std::alloc::{AllocError, Global};

/// The entries that were read so far, and what they lead to.
#[derive(Drop)]
pub struct Chain {
    pub alloc: Global,
    /// The generation of the file.
    pub generation: u64,
    /// The offset of the gate behind the entries.
    pub at: u64,
    pub store: Plain,
    pub batches: u64,
    pub commits: u64,
    ghost at_low: { 16 ≤ at },
    ghost at_fits: { at < 2 ^ 63 },
    ghost few_batches: { batches ≤ at },
    ghost few_commits: { commits ≤ at },
    ghost few_records: { length store ≤ most_records },
}

impl Chain {
    ghost use Rattle.std.specs.Prelude.{◌≡◌, ◌+◌, ◌<◌, ◌≤◌, ◌^◌, [], ℕ, List, length, OnOk, OnErr, IsErrOf};
    ghost use Rattle.std.specs.Prelude.{IfOk};
    ghost use Rattle.sp_journal.specs.declared.types.Recovered.{Recovered as RecoveredOf};
    ghost use Rattle.sp_journal.specs.Recovery.{nothing, Enters};
    ghost use Rattle.sp_rect.specs.Store.{IsOrdered};
    ghost use Rattle.sp_plain.specs.Taking.{most_records};
    ghost use Rattle.sp_journal.specs.Chaining.{found_in};

    /// No entry of a file of that generation was read.
    pub fn new(alloc: Global, generation: u64) -> Chain
        ensures at { result.at ≡ 16 }
        ensures generation { result.generation ≡ generation }
        ensures found { found_in result ≡ nothing }
    {
        Chain {
            alloc,
            generation,
            at: 16,
            store: Plain::new(alloc),
            batches: 0,
            commits: 0,
        }
    }

    // Takes in a checkpoint of that payload.
    fn begin(&mut self, payload: &[u8]) -> Result<(), Unread>
        requires { self.old.at + 5 + length payload.now < 2 ^ 63 }
        ensures entered { (found : RecoveredOf) → 2 ≤ self.old.generation → OnOk result (Enters self.old.generation [] found payload.now (found_in self.new)) }
        ensures refused { (found after : RecoveredOf) → 2 ≤ self.old.generation → IsErrOf result Unread.Bad → Enters self.old.generation [] found payload.now after → ⊥ }
        ensures place { OnOk result (self.new.at ≡ self.old.at + 5 + length payload.now) }
        ensures stays { OnErr result (self.new.at ≡ self.old.at) }
        ensures generation { self.new.generation ≡ self.old.generation }
    {
        self.store = load(self.alloc, payload)?;
        self.batches = 0;
        self.commits = 0;
        self.at += 5 + payload.len() as u64;
        Ok(())
    }

    // Takes in a batch of that payload.
    fn add(&mut self, payload: &[u8]) -> Result<(), Unread>
        requires short { length payload.now < 2 ^ 32 }
        requires fits { self.old.at + 5 + length payload.now < 2 ^ 63 }
        ensures entered { (front : List ℕ) → (2 ≤ self.old.generation → 1 ≤ length front) → OnOk result (Enters self.old.generation front (found_in self.old) payload.now (found_in self.new)) }
        ensures refused { (front : List ℕ) (after : RecoveredOf) → (2 ≤ self.old.generation → 1 ≤ length front) → IsErrOf result Unread.Bad → Enters self.old.generation front (found_in self.old) payload.now after → ⊥ }
        ensures place { OnOk result (self.new.at ≡ self.old.at + 5 + length payload.now) }
        ensures stays { OnErr result (self.new.at ≡ self.old.at) }
        ensures generation { self.new.generation ≡ self.old.generation }
    {
        let count = make_batch(self.alloc, &mut self.store, payload)?;
        self.at += 5 + payload.len() as u64;
        self.batches += 1;
        self.commits += count;
        Ok(())
    }

    /// Takes in the entry of that payload. `Bad` comes where it may not stand there or can't be applied:
    /// the first of a file of generation 2 or more is a checkpoint, and every other one a batch.
    pub fn enter(&mut self, payload: &[u8]) -> Result<(), Unread>
        requires short { length payload.now < 2 ^ 32 }
        requires fits { self.old.at + 5 + length payload.now < 2 ^ 63 }
        ensures entered { (front : List ℕ) → self.old.at ≡ 16 + length front → OnOk result (Enters self.old.generation front (found_in self.old) payload.now (found_in self.new)) }
        ensures refused { (front : List ℕ) (after : RecoveredOf) → self.old.at ≡ 16 + length front → IsErrOf result Unread.Bad → Enters self.old.generation front (found_in self.old) payload.now after → ⊥ }
        ensures place { OnOk result (self.new.at ≡ self.old.at + 5 + length payload.now) }
        ensures stays { OnErr result (self.new.at ≡ self.old.at) }
        ensures generation { self.new.generation ≡ self.old.generation }
    {
        if self.generation >= 2 && self.at == 16 {
            self.begin(payload)
        } else {
            self.add(payload)
        }
    }

    /// What the entries lead to. Costs a copy of the records.
    pub fn recovered(&self) -> Result<Recovered, AllocError>
        ensures found { IfOk result (λ found. found ≡ found_in self.now) }
        ensures ordered { IsOrdered self.now.store }
        ensures small { length self.now.store ≤ most_records }
    {
        Ok(Recovered {
            records: self.store.records().copy(self.alloc)?,
            batches: self.batches,
            commits: self.commits,
        })
    }
}
