// Sources and sinks of bytes, by what they have left, what they took, and how often they failed.
ghost use Rattle.std.specs.Prelude.{◌≡◌, ◌≤◌, ◌++◌, Bool, false, List, ℕ, length, Option, OnOk, OnErr};
ghost use Rattle.std.specs.Io.KnownBytes.{Appends, Keeps};
ghost use Rattle.sp_io.specs.Faults.{Rose};
ghost use Rattle.sp_io.specs.Streams.{AppendsFront, ReadGives, ReadCounts, WriteTakes, WriteCounts};

/// What a read gave.
#[derive(Clone, Copy, Debug, PartialEq, Eq)]
pub enum Got {
    /// So many bytes stand at the front of the buffer.
    Bytes(usize),
    /// Nothing is left.
    End,
    /// The read failed, and the count of faults rose.
    Failed,
}

/// What a write took.
#[derive(Clone, Copy, Debug, PartialEq, Eq)]
pub enum Took {
    /// So many first bytes of the piece were taken.
    Bytes(usize),
    /// The write failed, took nothing, and the count of faults rose.
    Failed,
}

/// A source of bytes. One that reads a file or a terminal does not tell what it has left; one in memory
/// does.
pub trait Source: Drop {
    /// The bytes that it has left, where it tells them.
    ghost left: { Self → Option (List ℕ) };

    /// How often a read has failed. It never falls, and a count at its type's end counts as risen.
    ghost read_faults: { Self → ℕ };

    /// Into a buffer that is not empty it gives at least one byte, `End` or `Failed`. Where it tells what
    /// it has left, the bytes are the first of that, and `End` comes only where nothing is left.
    fn read(&mut self, buf: &mut [u8]) -> Got
        ensures bytes { ReadGives (left self.old) (left self.new) buf.new result }
        ensures cause { ReadCounts (read_faults self.old) (read_faults self.new) result };
}

/// A sink of bytes. One that writes a file or a terminal does not tell what it took; one in memory does. A sink may
/// hold back what it has taken, until it is flushed.
pub trait Sink: Drop {
    /// The bytes that it has taken, where it tells them.
    ghost taken: { Self → Option (List ℕ) };

    /// How often a write has failed. It never falls, and a count at its type's end counts as risen.
    ghost write_faults: { Self → ℕ };

    /// Whether it may hold back some of what it has taken.
    ghost holds_back: { Self → Bool };

    /// Of a piece that is not empty it takes at least one byte, or it is `Failed`. Where it tells what it
    /// took, the bytes that it takes come behind all before.
    fn write(&mut self, bytes: &[u8]) -> Took
        ensures bytes { WriteTakes (taken self.old) (taken self.new) bytes.now result }
        ensures cause { WriteCounts (write_faults self.old) (write_faults self.new) result };

    /// Hands on all that it holds back, and takes nothing. `WriteFailed` comes only where the count rose.
    fn flush(&mut self) -> Result<(), WriteFailed>
        ensures kept { Keeps (taken self.old) (taken self.new) }
        ensures handed { OnOk result (holds_back self.new ≡ false) }
        ensures later { write_faults self.old ≤ write_faults self.new }
        ensures failed { OnErr result (Rose (write_faults self.old) (write_faults self.new)) };
}

/// A write failed.
#[derive(Clone, Copy, Debug, PartialEq, Eq, Drop)]
pub struct WriteFailed;

/// Writes all of the bytes, which the sink may hold back. `WriteFailed` comes only where the count of the sink
/// rose; the sink has then taken some first ones of the bytes.
pub fn put_all<K: Sink>(sink: &mut K, bytes: &[u8]) -> Result<(), WriteFailed>
    ensures written { OnOk result (Appends (K.taken sink.old) (K.taken sink.new) bytes.now) }
    ensures front { OnErr result (AppendsFront (K.taken sink.old) (K.taken sink.new) bytes.now) }
    ensures later { K.write_faults sink.old ≤ K.write_faults sink.new }
    ensures failed { OnErr result (Rose (K.write_faults sink.old) (K.write_faults sink.new)) }
{
    let mut rest = bytes;
    while !rest.is_empty() {
        match sink.write(rest) {
            Took::Bytes(count) => rest = &rest[count..],
            Took::Failed => return Err(WriteFailed),
        }
    }
    Ok(())
}

/// Writes all of the bytes, and flushes the sink. `WriteFailed` comes only where the count of the sink rose; the
/// sink has then taken some first ones of the bytes.
pub fn write_all<K: Sink>(sink: &mut K, bytes: &[u8]) -> Result<(), WriteFailed>
    ensures written { OnOk result (Appends (K.taken sink.old) (K.taken sink.new) bytes.now) }
    ensures front { OnErr result (AppendsFront (K.taken sink.old) (K.taken sink.new) bytes.now) }
    ensures later { K.write_faults sink.old ≤ K.write_faults sink.new }
    ensures failed { OnErr result (Rose (K.write_faults sink.old) (K.write_faults sink.new)) }
    ensures handed { OnOk result (K.holds_back sink.new ≡ false) }
{
    put_all(sink, bytes)?;
    sink.flush()
}
