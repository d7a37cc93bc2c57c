// Sources and sinks over readers and writers of std: the trusted edge. What a real file or terminal gives
// is not proved; that a fault is answered only where it is counted is.
ghost use Rattle.std.specs.Prelude.{◌≡◌, true};

use crate::{Got, Sink, Source, Took, WriteFailed};
use std::io::{Read, Write};

/// A source over a reader. It counts the reads that failed.
#[derive(Drop)]
pub struct StdSource<R: Read + Drop> {
    reader: R,
    faults: u64,
}

impl<R: Read + Drop> StdSource<R> {
    /// The source of that reader, with no fault counted.
    pub fn new(reader: R) -> StdSource<R>
        ensures { result ≡ record { reader = reader; faults = 0 } }
    {
        StdSource { reader, faults: 0 }
    }
}

impl<R: Read + Drop> Source for StdSource<R> {
    ghost left = { λ s. R.remaining s.reader };

    ghost read_faults = { λ s. s.faults };

    fn read(&mut self, buf: &mut [u8]) -> Got {
        match self.reader.read(buf) {
            Ok(0) => Got::End,
            Ok(count) => Got::Bytes(count),
            Err(_) => {
                self.faults = self.faults.saturating_add(1);
                Got::Failed
            }
        }
    }
}

/// A sink over a writer. It counts the writes and flushes that failed; a write that takes nothing of a piece that
/// is not empty has. Whatever was written since the last flush that did not fail may be held back.
#[derive(Drop)]
pub struct StdSink<W: Write + Drop> {
    writer: W,
    faults: u64,
    unflushed: bool,
}

impl<W: Write + Drop> StdSink<W> {
    /// The sink of that writer, with no fault counted. The writer may hold something back.
    pub fn new(writer: W) -> StdSink<W>
        ensures { result ≡ record { writer = writer; faults = 0; unflushed = true } }
    {
        StdSink {
            writer,
            faults: 0,
            unflushed: true,
        }
    }
}

impl<W: Write + Drop> Sink for StdSink<W> {
    ghost taken = { λ s. W.contents s.writer };

    ghost write_faults = { λ s. s.faults };

    ghost holds_back = { λ s. s.unflushed };

    fn write(&mut self, bytes: &[u8]) -> Took {
        self.unflushed = true;
        match self.writer.write(bytes) {
            Ok(0) if !bytes.is_empty() => {
                self.faults = self.faults.saturating_add(1);
                Took::Failed
            }
            Ok(count) => Took::Bytes(count),
            Err(_) => {
                self.faults = self.faults.saturating_add(1);
                Took::Failed
            }
        }
    }

    fn flush(&mut self) -> Result<(), WriteFailed> {
        match self.writer.flush() {
            Ok(()) => {
                self.unflushed = false;
                Ok(())
            }
            Err(_) => {
                self.faults = self.faults.saturating_add(1);
                Err(WriteFailed)
            }
        }
    }
}
