// Laws of the definitions.
ghost use Rattle.std.specs.Prelude.{◌≡◌, ℕ, List};
ghost use Rattle.sp_journal.specs.Recovery.{Outcome};
ghost use Rattle.sp_pair.specs.Pairs.{RecoversPair};

/// Two files are recovered to one outcome.
pub fn pair_outcome_is_one()
    ensures { (main alt : List ℕ) (a b : Outcome) → RecoversPair main alt a → RecoversPair main alt b → a ≡ b }
{}
