// The last line of a run.
ghost use Rattle.std.specs.Prelude.{◌≡◌, ◌≤◌, ◌++◌, [], OnOk, OnErr, codes, decimal};
ghost use Rattle.std.specs.Io.KnownBytes.{Appends};
ghost use Rattle.sp_io.specs.Faults.{Rose};
ghost use Rattle.sp_io.specs.Streams.{AppendsFront};
ghost use Rattle.sp_runs.specs.Writing.{last_line, WritesOrFails};

use itoa::Buffer;
use sp_io::{Sink, WriteFailed, write_all};
use sp_text::End;

/// Writes the last line after a fault, which names it; at the end of the input and after a failed write there is none.
/// Where that write fails too, the first fault stays the run's. Takes no memory.
pub fn write_last<K: Sink>(sink: &mut K, end: End)
    ensures written { WritesOrFails (K.taken sink.old) (K.taken sink.new) (K.write_faults sink.old) (K.write_faults sink.new) (last_line end) }
    ensures none { last_line end ≡ [] → sink.new ≡ sink.old }
    ensures later { K.write_faults sink.old ≤ K.write_faults sink.new }
{
    let _ = match end {
        End::Input | End::WriteFault => Ok(()),
        End::Usage => write_all(sink, b"! usage\n"),
        End::ReadFault => write_all(sink, b"! read\n"),
        End::DiskFault => write_all(sink, b"! disk\n"),
        End::Foreign => write_all(sink, b"! foreign\n"),
        End::Damaged(offset) => write_damaged(sink, offset),
        End::Memory => write_all(sink, b"! memory\n"),
        End::Long => write_all(sink, b"! long\n"),
    };
}

// Writes the line of damage at this offset.
fn write_damaged<K: Sink>(sink: &mut K, offset: u64) -> Result<(), WriteFailed>
    ensures written { OnOk result (Appends (K.taken sink.old) (K.taken sink.new) (codes "! damaged " ++ decimal offset ++ codes "\n")) }
    ensures front { OnErr result (AppendsFront (K.taken sink.old) (K.taken sink.new) (codes "! damaged " ++ decimal offset ++ codes "\n")) }
    ensures later { K.write_faults sink.old ≤ K.write_faults sink.new }
    ensures failed { OnErr result (Rose (K.write_faults sink.old) (K.write_faults sink.new)) }
{
    let mut digits = Buffer::new();
    write_all(sink, b"! damaged ")?;
    write_all(sink, digits.format(offset).as_bytes())?;
    write_all(sink, b"\n")
}
