// How a command on the files of a journal ends.
ghost use Rattle.std.specs.Prelude.{◌≡◌, ◌≤◌, ◌++◌, OnOk, OnErr, codes, decimal, false};
ghost use Rattle.std.specs.Io.KnownBytes.{Appends};
ghost use Rattle.sp_io.specs.Faults.{Rose};
ghost use Rattle.sp_io.specs.Streams.{AppendsFront};
ghost use Rattle.sp_files.specs.Ending.{end_of, last_line, Tells, WritesOrFails};

use itoa::Buffer;
use sp_io::{Sink, WriteFailed, write_all};
use sp_journal::JournalError;
use sp_list::Text;

/// How a command on the files of a journal ended.
#[derive(Clone, Copy, Debug, PartialEq, Eq)]
pub enum FileEnd {
    /// All was written.
    Written,
    /// A write failed.
    WriteFault,
    /// A call of a disk or of the shelf failed.
    DiskFault,
    /// One of the files is no journal.
    Foreign,
    /// The journal is damaged at this offset.
    Damaged(u64),
    /// The journal's generation is the last that there is.
    Worn,
    /// There was no memory.
    Memory,
}

impl FileEnd {
    ghost use Rattle.std.specs.Prelude.{◌≡◌};
    ghost use Rattle.sp_files.specs.Ending.{status_of};

    /// The exit status: 0 where all was written, and else that of the fault.
    pub fn status(self) -> u8
        ensures { result ≡ status_of self }
    {
        match self {
            FileEnd::Written => 0,
            FileEnd::WriteFault => 3,
            FileEnd::DiskFault => 4,
            FileEnd::Foreign | FileEnd::Damaged(_) | FileEnd::Worn => 5,
            FileEnd::Memory => 6,
        }
    }
}

// The end of a command whose journal could not be read.
pub(crate) fn end_of(error: JournalError) -> FileEnd
    ensures { result ≡ end_of error }
{
    match error {
        JournalError::Foreign => FileEnd::Foreign,
        JournalError::Damaged(at) => FileEnd::Damaged(at),
        JournalError::Worn => FileEnd::Worn,
        JournalError::Fault => FileEnd::DiskFault,
        JournalError::Memory => FileEnd::Memory,
    }
}

// Writes the answer: the text, or the last line of the fault.
pub(crate) fn tell<K: Sink>(sink: &mut K, answer: Result<Text, JournalError>) -> FileEnd
    ensures told { Tells answer result (K.taken sink.old) (K.taken sink.new) (K.write_faults sink.old) (K.write_faults sink.new) }
    ensures handed { result ≡ FileEnd.Written → K.holds_back sink.new ≡ false }
    ensures later { K.write_faults sink.old ≤ K.write_faults sink.new }
{
    match answer {
        Ok(text) => match write_all(sink, text.bytes()) {
            Ok(()) => FileEnd::Written,
            Err(_) => FileEnd::WriteFault,
        },
        Err(error) => {
            let end = end_of(error);
            write_last(sink, end);
            end
        }
    }
}

// Writes the last line after a fault. Where that write fails too, the first fault stays.
pub(crate) fn write_last<K: Sink>(sink: &mut K, end: FileEnd)
    ensures written { WritesOrFails (K.taken sink.old) (K.taken sink.new) (K.write_faults sink.old) (K.write_faults sink.new) (last_line end) }
    ensures later { K.write_faults sink.old ≤ K.write_faults sink.new }
{
    let _ = match end {
        FileEnd::Written | FileEnd::WriteFault => Ok(()),
        FileEnd::DiskFault => write_all(sink, b"! disk\n"),
        FileEnd::Foreign => write_all(sink, b"! foreign\n"),
        FileEnd::Damaged(at) => write_damaged(sink, at),
        FileEnd::Worn => write_all(sink, b"! worn\n"),
        FileEnd::Memory => write_all(sink, b"! memory\n"),
    };
}

// Writes the line of damage at this offset.
fn write_damaged<K: Sink>(sink: &mut K, at: u64) -> Result<(), WriteFailed>
    ensures written { OnOk result (Appends (K.taken sink.old) (K.taken sink.new) (codes "! damaged " ++ decimal at ++ codes "\n")) }
    ensures front { OnErr result (AppendsFront (K.taken sink.old) (K.taken sink.new) (codes "! damaged " ++ decimal at ++ codes "\n")) }
    ensures later { K.write_faults sink.old ≤ K.write_faults sink.new }
    ensures failed { OnErr result (Rose (K.write_faults sink.old) (K.write_faults sink.new)) }
{
    let mut digits = Buffer::new();
    write_all(sink, b"! damaged ")?;
    write_all(sink, digits.format(at).as_bytes())?;
    write_all(sink, b"\n")
}
