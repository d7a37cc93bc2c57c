// The exit status of a run.
ghost use Rattle.std.specs.Prelude.{◌≡◌};
ghost use Rattle.spatial.specs.Commands.{status_of};

use sp_text::End;

pub(crate) fn status_of(end: End) -> u8
    ensures { result ≡ status_of end }
{
    match end {
        End::Input => 0,
        End::Usage => 1,
        End::ReadFault => 2,
        End::WriteFault => 3,
        End::DiskFault => 4,
        End::Foreign | End::Damaged(_) => 5,
        End::Memory => 6,
        End::Long => 8,
    }
}
