// Why words could not be read.
use crate::Bad;
use std::alloc::AllocError;

/// What is wrong with the words of a line, or that there was no memory.
#[derive(Clone, Copy, Debug, PartialEq, Eq)]
pub enum Flaw {
    Bad(Bad),
    Memory,
}

impl From<AllocError> for Flaw {
    ghost use Rattle.std.specs.Prelude.{◌≡◌};
    ghost use Rattle.sp_text.specs.declared.flaw.Flaw.TheVariants.{Memory};

    ghost from_gives = { λ _ e. e ≡ Memory };

    fn from(_: AllocError) -> Self {
        Flaw::Memory
    }
}
