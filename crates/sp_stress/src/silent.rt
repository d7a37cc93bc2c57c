// A sink that forgets what it takes.
ghost use Rattle.std.specs.Prelude.{None};

use sp_io::{Sink, Took, WriteFailed};

// It takes all that is written, and never fails.
#[derive(Drop)]
pub(crate) struct Silent;

impl Sink for Silent {
    ghost use Rattle.std.specs.Prelude.{None, false};

    ghost taken = { λ s. None };

    ghost write_faults = { λ s. 0 };

    ghost holds_back = { λ s. false };

    fn write(&mut self, bytes: &[u8]) -> Took {
        Took::Bytes(bytes.len())
    }

    fn flush(&mut self) -> Result<(), WriteFailed> {
        Ok(())
    }
}
