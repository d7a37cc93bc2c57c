// A source and a sink in memory, with a list of calls that are to fail.
ghost use Rattle.std.specs.Prelude.{◌≡◌, [], ◌≤◌, Some, IfOk, length, take};

use crate::{Got, Sink, Source, Took, WriteFailed};
use std::alloc::{AllocError, Global};

/// A source in memory: it gives its pieces one after the other, at most one piece a read, and then the
/// end.
#[derive(Drop)]
pub struct MemSource {
    bytes: Vec<u8>,
    ends: Vec<usize>,
    at: usize,
    calls: u64,
    fail: Vec<u64>,
    faults: u64,
    ghost in_range: { at ≤ length bytes.items },
}

impl MemSource {
    ghost use Rattle.sp_io.specs.Memory.{bytes_left, read_fault_count, failing_reads};
    ghost use Rattle.std.specs.Prelude.{◌≡◌, IfOk};
    ghost use Rattle.std.specs.List.{flat_map};

    /// A source that gives these pieces, and whose calls of these numbers fail, counted from 1. Empty
    /// pieces are passed over.
    pub fn new(alloc: Global, pieces: Vec<Vec<u8>>, fail: Vec<u64>) -> Result<MemSource, AllocError>
        ensures left { IfOk result (λ s. bytes_left s ≡ flat_map (λ piece. piece.items) pieces.items) }
        ensures faults { IfOk result (λ s. read_fault_count s ≡ 0) }
        ensures failing { IfOk result (λ s. failing_reads s ≡ fail.items) }
    {
        let mut bytes = Vec::new(alloc);
        let mut ends = Vec::new(alloc);
        for piece in &pieces {
            bytes.extend_from_slice(piece.as_slice())?;
            ends.push(bytes.len())?;
        }
        Ok(MemSource {
            bytes,
            ends,
            at: 0,
            calls: 0,
            fail,
            faults: 0,
        })
    }
}

impl Source for MemSource {
    ghost use Rattle.sp_io.specs.Memory.{bytes_left, read_fault_count};
    ghost use Rattle.std.specs.Prelude.{Some};

    ghost left = { λ s. Some (bytes_left s) };

    ghost read_faults = { read_fault_count };

    fn read(&mut self, buf: &mut [u8]) -> Got {
        self.calls = self.calls.saturating_add(1);
        if self.fail.contains(&self.calls) {
            self.faults = self.faults.saturating_add(1);
            return Got::Failed;
        }
        let end = piece_end(self.ends.as_slice(), self.at, self.bytes.len());
        if end == self.at {
            return Got::End;
        }
        let count = buf.len().min(end - self.at);
        copy_front(&self.bytes[self.at..], buf, count);
        self.at += count;
        Got::Bytes(count)
    }
}

// Copies the first bytes into the front of a buffer.
fn copy_front(bytes: &[u8], buf: &mut [u8], count: usize)
    requires in_bytes { count ≤ length bytes.now }
    requires in_buf { count ≤ length buf.old }
    ensures { take count buf.new ≡ take count bytes.now }
{
    buf[..count].copy_from_slice(&bytes[..count]);
}

// The end of the piece in which the bytes from there on begin.
fn piece_end(ends: &[usize], at: usize, len: usize) -> usize
    requires { at ≤ len }
    ensures low { at ≤ result }
    ensures high { result ≤ len }
    ensures some { result ≡ at → at ≡ len }
{
    for end in ends {
        if at < *end && *end <= len {
            return *end;
        }
    }
    len
}

/// A sink in memory, which keeps all that it takes. A write for which there is no memory fails.
#[derive(Drop)]
pub struct MemSink {
    bytes: Vec<u8>,
    calls: u64,
    fail: Vec<u64>,
    faults: u64,
}

impl MemSink {
    ghost use Rattle.sp_io.specs.Memory.{bytes_taken, write_fault_count, failing_writes};
    ghost use Rattle.std.specs.Prelude.{◌≡◌, [], IfOk};

    /// A sink whose calls of these numbers fail, counted from 1.
    pub fn new(alloc: Global, fail: Vec<u64>) -> Result<MemSink, AllocError>
        ensures taken { IfOk result (λ s. bytes_taken s ≡ []) }
        ensures faults { IfOk result (λ s. write_fault_count s ≡ 0) }
        ensures failing { IfOk result (λ s. failing_writes s ≡ fail.items) }
    {
        Ok(MemSink {
            bytes: Vec::new(alloc),
            calls: 0,
            fail,
            faults: 0,
        })
    }

    /// What was taken so far.
    pub fn bytes(&self) -> &[u8]
        ensures { result.now ≡ bytes_taken self.now }
    {
        self.bytes.as_slice()
    }
}

impl Sink for MemSink {
    ghost use Rattle.sp_io.specs.Memory.{bytes_taken, write_fault_count};
    ghost use Rattle.std.specs.Prelude.{Some, false};

    ghost taken = { λ s. Some (bytes_taken s) };

    ghost write_faults = { write_fault_count };

    ghost holds_back = { λ s. false };

    fn write(&mut self, bytes: &[u8]) -> Took {
        self.calls = self.calls.saturating_add(1);
        if self.fail.contains(&self.calls) || self.bytes.extend_from_slice(bytes).is_err() {
            self.faults = self.faults.saturating_add(1);
            return Took::Failed;
        }
        Took::Bytes(bytes.len())
    }

    // It holds nothing back.
    fn flush(&mut self) -> Result<(), WriteFailed> {
        Ok(())
    }
}
