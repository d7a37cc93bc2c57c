// A shelf in memory.
ghost use Rattle.std.specs.Prelude.{◌≡◌, ◌<◌, ◌≤◌, ℕ, true, false, [], length, slice_index_or, IfOk, IfSome, IfNone};
ghost use Rattle.std.specs.List.{All};
ghost use Rattle.sp_disk.specs.History.{failures};
ghost use Rattle.sp_disk.specs.Shelves.{Named, is_named};

use crate::{MemDisk, Shelf, ShelfFault};
use sp_list::Sequence;
use std::alloc::{AllocError, Global};

/// Disks in memory by their names. Some of its calls are to fail.
#[derive(Drop)]
pub struct MemShelf {
    alloc: Global,
    disks: Vec<(String, MemDisk)>,
    asked: Sequence<Sequence<u8>>,
    fail: Vec<u64>,
    faults: u64,
    ghost unfailed: { All (λ disk. failures disk.1.log.calls ≡ 0) disks.items },
}

impl MemShelf {
    /// A shelf that holds these disks, of which none has failed. Of two with one name the first is the
    /// one that it holds under it. Its calls of these numbers fail, counted from 1.
    pub fn new(
        alloc: Global,
        disks: Vec<(String, MemDisk)>,
        fail: Vec<u64>,
    ) -> Result<MemShelf, AllocError>
        requires { All (λ disk. failures disk.1.log.calls ≡ 0) disks.items }
        ensures { IfOk result (λ shelf. (shelf.disks.items ≡ disks.items) × (shelf.asked ≡ []) × (shelf.faults ≡ 0)) }
    {
        Ok(MemShelf {
            alloc,
            disks,
            asked: Sequence::new(alloc),
            fail,
            faults: 0,
        })
    }

    /// The disks that it holds, with their names.
    pub fn disks(&self) -> &[(String, MemDisk)]
        ensures { result.now ≡ self.now.disks.items }
    {
        self.disks.as_slice()
    }

    // Whether the next call is not one of those that are to fail.
    fn succeeds(&self) -> bool {
        let next = self.asked.len() as u64 + 1;
        !self.fail.contains(&next)
    }
}

// The place of the first disk of that name.
fn find(disks: &[(String, MemDisk)], name: &str) -> Option<usize>
    ensures place { IfSome result (λ at. at < length disks.now) }
    ensures named { IfSome result (λ at. (d : Named) → is_named name.now (slice_index_or disks.now at d) ≡ true) }
    ensures first { IfSome result (λ at. (k : ℕ) (d : Named) → k < at → is_named name.now (slice_index_or disks.now k d) ≡ false) }
    ensures absent { IfNone result ((k : ℕ) (d : Named) → k < length disks.now → is_named name.now (slice_index_or disks.now k d) ≡ false) }
{
    for (at, disk) in disks.iter().enumerate() {
        if disk.0.as_str() == name {
            return Some(at);
        }
    }
    None
}

impl Shelf for MemShelf {
    ghost use Rattle.std.specs.Prelude.{true};
    ghost use Rattle.sp_disk.specs.Shelves.{held};

    type Disk = MemDisk;

    ghost tells = { λ s. true };

    ghost holds = { λ s. held s.disks.items };

    ghost asked = { λ s. s.asked };

    ghost faults = { λ s. s.faults };

    fn fetch(&mut self, name: &str) -> Result<MemDisk, ShelfFault> {
        let asked = Sequence::from_vec(name.as_bytes().to_vec(self.alloc)?);
        if !self.succeeds() {
            self.asked.push(asked)?;
            self.faults = self.faults.saturating_add(1);
            return Err(ShelfFault::Fault);
        }
        match find(self.disks.as_slice(), name) {
            Some(at) => {
                self.asked.push(asked)?;
                let (_, disk) = self.disks.remove(at);
                Ok(disk)
            }
            None => {
                let disk = MemDisk::new(self.alloc, Vec::new(self.alloc), Vec::new(self.alloc))?;
                self.asked.push(asked)?;
                Ok(disk)
            }
        }
    }
}
