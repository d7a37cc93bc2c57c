// What can end a run before its input does, besides the source.
ghost use Rattle.std.specs.Prelude.{◌≡◌};
ghost use Rattle.sp_lines.specs.Hearing.{end_of};

use sp_text::End;

/// A fault while a line is answered.
#[derive(Clone, Copy, Debug, PartialEq, Eq)]
pub enum Fault {
    /// A write of the sink failed.
    Write,
    /// A call of the disk failed.
    Disk,
    /// There was no memory.
    Memory,
}

/// How a run ends by a fault of an answer.
pub fn end_of(fault: Fault) -> End
    ensures { result ≡ end_of fault }
{
    match fault {
        Fault::Write => End::WriteFault,
        Fault::Disk => End::DiskFault,
        Fault::Memory => End::Memory,
    }
}
