// Disks in memory.
ghost use Rattle.std.specs.Prelude.{◌≡◌, ◌+◌, ◌-◌, ◌^◌, ◌<◌, ◌≤◌, ◌↔◌, min, ℕ, Bool, true, IsTrue, List, [], ◌∷◌, ◌++◌, length, take, drop, IfOk, OnOk, OnErr, IsErrOf, Ok, Err, if◌then◌else◌};
ghost use Rattle.sp_disk.specs.declared.disk.DiskError.TheVariants.{Fault};
ghost use Rattle.sp_disk.specs.History.{History, reads_of, images_of, samples_of, failures};
ghost use Rattle.sp_disk.specs.Membership.{In};
ghost use Rattle.sp_disk.specs.Laws.{reads_now};

use crate::history::{CallLog, copy_out};
use crate::samples::samples_after;
use crate::{Disk, DiskCall, DiskError, Images};
use std::alloc::{AllocError, Global};

/// A disk in memory that keeps all its calls, some of which are to fail.
#[derive(Drop)]
pub struct MemDisk {
    log: CallLog,
    fail: Vec<u64>,
}

impl MemDisk {
    /// A disk with these bytes, all of them settled. Its calls of these numbers fail, counted from 1.
    pub fn new(alloc: Global, bytes: Vec<u8>, fail: Vec<u64>) -> Result<MemDisk, AllocError>
        ensures { IfOk result (λ disk. disk.log ≡ record { start = bytes.items; calls = [] }) }
    {
        let log = CallLog::new(alloc, bytes)?;
        Ok(MemDisk { log, fail })
    }

    /// The bytes that a read gives.
    pub fn bytes(&self) -> &[u8]
        ensures { result.now ≡ reads_of self.now.log }
    {
        self.log.bytes()
    }

    /// The calls that were made, in order.
    pub fn calls(&self) -> &[DiskCall]
        ensures { result.now ≡ self.now.log.calls }
    {
        self.log.calls()
    }

    /// Samples of the files that a stop after that many calls might have left. In them each write since
    /// the last sync that answered `Ok` is whole, missing, or cut after its first byte, and each cut is
    /// done or not; every such file is in the list, and none else. They are three for each write and
    /// two for each cut, so it costs the product of these.
    pub fn samples(&self, alloc: Global, moment: u64) -> Result<Images, AllocError>
        ensures samples { IfOk result (λ files. (file : List ℕ) → In file files ↔ samples_of self.now.log moment file) }
        ensures images { IfOk result (λ files. (file : List ℕ) → In file files → images_of self.now.log moment file) }
    {
        let calls = self.log.calls();
        let count = calls.len().min(moment as usize);
        Ok(samples_after(alloc, self.log.start(), &calls[..count])?)
    }

    // Whether the next call is not one of those that are to fail.
    fn succeeds(&self) -> bool {
        let next = self.log.calls().len() as u64 + 1;
        !self.fail.contains(&next)
    }
}

// The answer of a call that was noted.
fn answer(made: bool) -> Result<(), DiskError>
    ensures { result ≡ (if made then Ok tt else Err Fault) }
{
    if made { Ok(()) } else { Err(DiskError::Fault) }
}

impl Disk for MemDisk {
    ghost tells = { λ d. true };

    ghost takes_memory = { λ d. true };

    ghost faults = { λ d. failures d.log.calls };

    ghost reads = { λ d. reads_of d.log };

    ghost moment = { λ d. length d.log.calls };

    ghost images = { λ d. images_of d.log };

    ghost as_it_reads = { λ d tells. reads_now d.log };

    fn len(&mut self) -> Result<u64, DiskError> {
        let made = self.succeeds();
        self.log.look(made)?;
        answer(made)?;
        Ok(self.log.bytes().len() as u64)
    }

    fn read_at(&mut self, at: u64, buf: &mut [u8]) -> Result<usize, DiskError> {
        let made = self.succeeds();
        self.log.look(made)?;
        answer(made)?;
        Ok(copy_out(self.log.bytes(), at, buf))
    }

    fn write_at(&mut self, at: u64, bytes: &[u8]) -> Result<(), DiskError> {
        let made = self.succeeds();
        self.log.write(at, bytes, made)?;
        answer(made)
    }

    fn cut(&mut self, len: u64) -> Result<(), DiskError> {
        let made = self.succeeds();
        self.log.cut(len, made)?;
        answer(made)
    }

    fn sync(&mut self) -> Result<(), DiskError> {
        let made = self.succeeds();
        self.log.sync(made)?;
        answer(made)
    }
}

/// A disk in memory that never fails.
#[derive(Drop)]
pub struct HonestDisk {
    log: CallLog,
}

impl HonestDisk {
    /// An empty disk.
    pub fn new(alloc: Global) -> Result<HonestDisk, AllocError>
        ensures { IfOk result (λ disk. disk.log ≡ record { start = []; calls = [] }) }
    {
        let log = CallLog::new(alloc, Vec::new(alloc))?;
        Ok(HonestDisk { log })
    }

    /// The bytes that a read gives.
    pub fn bytes(&self) -> &[u8]
        ensures { result.now ≡ reads_of self.now.log }
    {
        self.log.bytes()
    }
}

impl Disk for HonestDisk {
    ghost tells = { λ d. true };

    ghost takes_memory = { λ d. true };

    ghost faults = { λ d. 0 };

    ghost reads = { λ d. reads_of d.log };

    ghost moment = { λ d. length d.log.calls };

    ghost images = { λ d. images_of d.log };

    ghost as_it_reads = { λ d tells. reads_now d.log };

    fn len(&mut self) -> Result<u64, DiskError> {
        self.log.look(true)?;
        Ok(self.log.bytes().len() as u64)
    }

    fn read_at(&mut self, at: u64, buf: &mut [u8]) -> Result<usize, DiskError> {
        self.log.look(true)?;
        Ok(copy_out(self.log.bytes(), at, buf))
    }

    fn write_at(&mut self, at: u64, bytes: &[u8]) -> Result<(), DiskError> {
        self.log.write(at, bytes, true)?;
        Ok(())
    }

    fn cut(&mut self, len: u64) -> Result<(), DiskError> {
        self.log.cut(len, true)?;
        Ok(())
    }

    fn sync(&mut self) -> Result<(), DiskError> {
        self.log.sync(true)?;
        Ok(())
    }
}
