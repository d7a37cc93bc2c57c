// Which of two files is current, by their kinds.
ghost use Rattle.std.specs.Prelude.{◌≡◌, ◌⊎◌, ℕ, List, IfOk, IfErr};
ghost use Rattle.sp_journal.specs.Kinds.{IsKind};
ghost use Rattle.sp_pair.specs.Pairs.{IsChosen, IsUnsettled};

use sp_journal::{JournalError, Kind};

/// The current one of two files, and its version and generation, zeros where none is settled.
#[derive(Clone, Copy)]
pub struct Choice {
    pub is_alt: bool,
    pub version: u32,
    pub generation: u64,
}

// The first file is settled.
fn beside(version: u32, generation: u64, alt: Kind) -> Result<Choice, JournalError>
    ensures chosen { (m a : List ℕ) → IsKind m (Kind.Settled version generation) → IsKind a alt → IfOk result (λ c. IsChosen m a c.is_alt c.version c.generation) }
    ensures refused { IfErr result (λ e. (e ≡ JournalError.Foreign) × (alt ≡ Kind.Foreign)) }
{
    match alt {
        Kind::Foreign => Err(JournalError::Foreign),
        Kind::Settled {
            version: other,
            generation: own,
        } => {
            if own > generation {
                Ok(Choice {
                    is_alt: true,
                    version: other,
                    generation: own,
                })
            } else {
                Ok(Choice {
                    is_alt: false,
                    version,
                    generation,
                })
            }
        }
        Kind::Empty | Kind::Unfinished => Ok(Choice {
            is_alt: false,
            version,
            generation,
        }),
    }
}

// The first file is not settled.
fn alone(alt: Kind) -> Result<Choice, JournalError>
    ensures chosen { (one : Kind) (m a : List ℕ) → IsKind m one → IsUnsettled one → IsKind a alt → IfOk result (λ c. IsChosen m a c.is_alt c.version c.generation) }
    ensures refused { IfErr result (λ e. (e ≡ JournalError.Foreign) × (alt ≡ Kind.Foreign)) }
{
    match alt {
        Kind::Foreign => Err(JournalError::Foreign),
        Kind::Settled {
            version,
            generation,
        } => Ok(Choice {
            is_alt: true,
            version,
            generation,
        }),
        Kind::Empty | Kind::Unfinished => Ok(Choice {
            is_alt: false,
            version: 0,
            generation: 0,
        }),
    }
}

/// The current one of two files of these kinds. `Foreign` comes exactly where one of them is.
pub fn choice_of(main: Kind, alt: Kind) -> Result<Choice, JournalError>
    ensures chosen { (m a : List ℕ) → IsKind m main → IsKind a alt → IfOk result (λ c. IsChosen m a c.is_alt c.version c.generation) }
    ensures refused { IfErr result (λ e. (e ≡ JournalError.Foreign) × ((main ≡ Kind.Foreign) ⊎ (alt ≡ Kind.Foreign))) }
{
    match main {
        Kind::Foreign => Err(JournalError::Foreign),
        Kind::Settled {
            version,
            generation,
        } => beside(version, generation, alt),
        Kind::Empty | Kind::Unfinished => alone(alt),
    }
}
