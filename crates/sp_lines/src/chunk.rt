// The bytes of one read.
ghost use Rattle.std.specs.Prelude.{◌≡◌, ◌≤◌, ◌<◌, ◌∷◌, [], ◌^◌, IfSome, None, length, drop};
ghost use Rattle.sp_lines.specs.Cutting.{IsBeforeNewline};
ghost use Rattle.sp_io.specs.Faults.{Rose};
ghost use Rattle.sp_lines.specs.Taking.{FillsTo};

use memchr::memchr;
use sp_io::{Got, Source};
use std::marker::Model;

/// How many bytes of a source are read at most.
pub const MAX_INPUT: u64 = 1 << 32;

const CHUNK: usize = 4096;

/// What a read gave.
#[derive(Clone, Copy, Debug, PartialEq, Eq)]
pub enum Filled {
    /// Some bytes.
    Bytes,
    /// The end of the source.
    End,
    /// The source failed.
    Failed,
    /// As much was read as is read at most, and the source was not asked.
    Full,
}

/// The bytes of the last read that were not taken yet, and how many may still be read.
#[derive(Drop)]
pub struct Chunk {
    buf: [u8; CHUNK],
    from: usize,
    to: usize,
    room: u64,
}

impl Model for Chunk {
    ghost use Rattle.std.specs.Prelude.{◌≤◌, take, drop};
    ghost use Rattle.sp_lines.specs.Pending.{Pending};

    ghost Value = { Pending };

    ghost view = { λ c. record { bytes = drop c.from (take c.to c.buf); room = c.room } };

    ghost invariant = { λ c. (c.from ≤ c.to) × (c.to ≤ 4096) };
}

impl Chunk {
    /// Before the first read.
    pub fn new() -> Chunk
        ensures bytes { result.bytes ≡ [] }
        ensures room { result.room ≡ 2 ^ 32 }
    {
        Chunk {
            buf: [0u8; CHUNK],
            from: 0,
            to: 0,
            room: MAX_INPUT,
        }
    }

    /// Takes the first byte, if there is one.
    pub fn next_byte(&mut self) -> Option<u8>
        ensures some { IfSome result (λ byte. self.old.bytes ≡ byte ∷ self.new.bytes) }
        ensures none { result ≡ None → (self.old.bytes ≡ []) × (self.new.bytes ≡ []) }
        ensures room { self.new.room ≡ self.old.room }
    {
        if self.from == self.to {
            return None;
        }
        let byte = self.buf[self.from];
        self.from += 1;
        Some(byte)
    }

    /// The bytes before the first LF, or all where none is pending.
    pub fn front(&self) -> &[u8]
        ensures { IsBeforeNewline result.now self.now.bytes }
    {
        before_newline(&self.buf[self.from..self.to])
    }

    /// Passes over so many first bytes.
    pub fn pass(&mut self, count: usize)
        requires { count ≤ length self.old.bytes }
        ensures bytes { self.new.bytes ≡ drop count self.old.bytes }
        ensures room { self.new.room ≡ self.old.room }
    {
        self.from += count;
    }

    /// Reads the next bytes, where none are left.
    pub fn fill<S: Source>(&mut self, source: &mut S) -> Filled
        requires { self.old.bytes ≡ [] }
        ensures filled { FillsTo result (S.left source.old) (S.left source.new) self.old self.new }
        ensures failed { result ≡ Filled.Failed → Rose (S.read_faults source.old) (S.read_faults source.new) }
        ensures later { S.read_faults source.old ≤ S.read_faults source.new }
    {
        if self.room == 0 {
            return Filled::Full;
        }
        let want = self.room.min(CHUNK as u64) as usize;
        self.from = 0;
        self.to = 0;
        match source.read(&mut self.buf[..want]) {
            Got::Failed => Filled::Failed,
            Got::End => Filled::End,
            Got::Bytes(count) => {
                self.to = count;
                self.room -= count as u64;
                Filled::Bytes
            }
        }
    }
}

// The bytes before the first LF, or all where there is none.
fn before_newline(bytes: &[u8]) -> &[u8]
    ensures { IsBeforeNewline result.now bytes.now }
{
    match memchr(b'\n', bytes) {
        Some(at) => &bytes[..at],
        None => bytes,
    }
}
