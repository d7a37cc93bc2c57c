// A file in memory that keeps the calls that were made on it.
ghost use Rattle.std.specs.Prelude.{◌≡◌, ◌+◌, ◌-◌, ◌^◌, ◌<◌, ◌≤◌, min, [], ◌∷◌, ◌++◌, length, take, drop, IfOk, OnOk, OnErr, is_ok, if◌then◌else◌};
ghost use Rattle.std.proofs.Math.ListN.{replicate};
ghost use Rattle.sp_disk.specs.declared.history.DiskCall.TheVariants.{Look, Write, Cut, Sync};
ghost use Rattle.sp_disk.specs.Files.{put};
ghost use Rattle.sp_disk.specs.History.{add, reads_of, failures};

use sp_list::Sequence;
use std::alloc::{AllocError, Global};
use std::marker::Model;

/// A call that was made on a disk in memory, and whether it was made whole: else it has failed.
#[derive(Drop)]
pub enum DiskCall {
    /// Asked for the length, or read.
    Look {
        made: bool,
    },
    /// Wrote these bytes from there on.
    Write {
        at: u64,
        bytes: Sequence<u8>,
        made: bool,
    },
    /// Cut the file to that length.
    Cut {
        len: u64,
        made: bool,
    },
    Sync {
        made: bool,
    },
}

/// The longest file: no vector is longer.
pub const LONGEST: usize = (1 << 63) - 1;

/// The bytes that a file had first, those that it has now, and the calls between.
#[derive(Drop)]
pub struct CallLog {
    alloc: Global,
    start: Vec<u8>,
    bytes: Vec<u8>,
    calls: Vec<DiskCall>,
}

impl Model for CallLog {
    ghost use Rattle.std.specs.Prelude.{◌≡◌};
    ghost use Rattle.sp_disk.specs.History.{History, reads_after};

    ghost Value = { History };

    ghost view = { λ l. record { start = l.start.items; calls = l.calls.items } };

    ghost invariant = { λ l. l.bytes.items ≡ reads_after l.start.items l.calls.items };
}

impl CallLog {
    /// A file of these bytes, all of them on the disk.
    pub fn new(alloc: Global, bytes: Vec<u8>) -> Result<CallLog, AllocError>
        ensures { IfOk result (λ log. log ≡ record { start = bytes.items; calls = [] }) }
    {
        let start = bytes.to_vec(alloc)?;
        Ok(CallLog {
            alloc,
            start,
            bytes,
            calls: Vec::new(alloc),
        })
    }

    /// The bytes that it had first.
    pub fn start(&self) -> &[u8]
        ensures { result.now ≡ self.now.start }
    {
        self.start.as_slice()
    }

    /// The bytes that it has now.
    pub fn bytes(&self) -> &[u8]
        ensures { result.now ≡ reads_of self.now }
    {
        self.bytes.as_slice()
    }

    /// The calls, in order.
    pub fn calls(&self) -> &[DiskCall]
        ensures { result.now ≡ self.now.calls }
    {
        self.calls.as_slice()
    }

    /// Notes that the bytes or their number were asked for.
    pub fn look(&mut self, made: bool) -> Result<(), AllocError>
        ensures { self.new ≡ (if is_ok result then add self.old (Look made) else self.old) }
    {
        self.calls.push(DiskCall::Look { made })?;
        Ok(())
    }

    /// Writes, where it is to be made, and notes it.
    pub fn write(&mut self, at: u64, bytes: &[u8], made: bool) -> Result<(), AllocError>
        ensures log { self.new ≡ (if is_ok result then add self.old (Write at bytes.now made) else self.old) }
        ensures short { OnOk result (at + length bytes.now < 2 ^ 63) }
    {
        let at = at as usize;
        if at > LONGEST - bytes.len() {
            return Err(AllocError);
        }
        let kept = Sequence::from_vec(bytes.to_vec(self.alloc)?);
        let at64 = at as u64;
        self.calls.push(DiskCall::Write {
            at: at64,
            bytes: kept,
            made,
        })?;
        if !made {
            return Ok(());
        }
        if overwrite(&mut self.bytes, at, bytes).is_err() {
            let _ = self.calls.pop();
            return Err(AllocError);
        }
        Ok(())
    }

    /// Cuts the file, where it is to be made, and notes it.
    pub fn cut(&mut self, len: u64, made: bool) -> Result<(), AllocError>
        ensures { self.new ≡ (if is_ok result then add self.old (Cut len made) else self.old) }
    {
        self.calls.push(DiskCall::Cut { len, made })?;
        if made {
            self.bytes.truncate(len as usize);
        }
        Ok(())
    }

    /// Notes a sync.
    pub fn sync(&mut self, made: bool) -> Result<(), AllocError>
        ensures { self.new ≡ (if is_ok result then add self.old (Sync made) else self.old) }
    {
        self.calls.push(DiskCall::Sync { made })?;
        Ok(())
    }
}

/// Writes the bytes into a file from there on. Where there is no memory it is as it was.
pub fn overwrite(file: &mut Vec<u8>, at: usize, bytes: &[u8]) -> Result<(), AllocError>
    requires { at + length bytes.now < 2 ^ 63 }
    ensures { file.new.items ≡ (if is_ok result then put file.old.items at bytes.now else file.old.items) }
{
    let end = at + bytes.len();
    reach(file, end)?;
    file[at..end].copy_from_slice(bytes);
    Ok(())
}

/// Fills a file up with zeros to at least that length. Where there is no memory it is as it was.
fn reach(file: &mut Vec<u8>, len: usize) -> Result<(), AllocError>
    ensures { file.new.items ≡ (if is_ok result then file.old.items ++ replicate (len - length file.old.items) 0 else file.old.items) }
{
    file.resize(file.len().max(len), 0)
}

/// Fills the buffer with the bytes of a file from there on, as far as it reaches.
pub fn copy_out(file: &[u8], at: u64, buf: &mut [u8]) -> usize
    ensures count { result ≡ min (length buf.old) (length file.now - at) }
    ensures filled { buf.new ≡ take result (drop at file.now) ++ drop result buf.old }
{
    let start = file.len().min(at as usize);
    let count = buf.len().min(file.len() - start);
    buf[..count].copy_from_slice(&file[start..start + count]);
    count
}
