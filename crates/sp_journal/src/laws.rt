// Laws of the definitions.
ghost use Rattle.std.specs.Prelude.{◌≡◌, ℕ, List};
ghost use Rattle.sp_rect.specs.Store.{IsOrdered};
ghost use Rattle.sp_journal.specs.declared.types.Recovered.{Recovered as RecoveredOf};
ghost use Rattle.sp_journal.specs.Recovery.{Outcome, Holds, Recovers};

/// A file is recovered to one outcome.
pub fn outcome_is_one()
    ensures { (file : List ℕ) (a b : Outcome) → Recovers file a → Recovers file b → a ≡ b }
{}

/// What a file holds is by strictly ascending id.
pub fn what_is_held_ascends()
    ensures { (file : List ℕ) (found : RecoveredOf) → Recovers file (Holds found) → IsOrdered found.records }
{}
