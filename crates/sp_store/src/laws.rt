// Laws of the two files of a journal while a kernel runs over the current one.
ghost use Rattle.std.specs.Prelude.{◌≤◌, ℕ, Bool, List};
ghost use Rattle.sp_disk.specs.Moments.{LeavesOnly};
ghost use Rattle.sp_journal.specs.Kinds.{KeepsKind, KeepsOneOf};
ghost use Rattle.sp_journal.specs.Recovery.{Outcome, Recovers};
ghost use Rattle.sp_pair.specs.Compacting.{first_of, second_of};
ghost use Rattle.sp_pair.specs.Pairs.{IsChosen, RecoversPair};
ghost use Rattle.sp_store.specs.Keeping.{IsBeside};

use sp_disk::Disk;

/// A file that keeps the kind of the current one stands in its place: the two are then recovered to what that file is.
pub fn what_keeps_its_kind_stays_current()
    ensures { (is_alt : Bool) (version generation : ℕ) (current file other : List ℕ) (outcome : Outcome) → IsChosen (first_of is_alt current other) (second_of is_alt current other) is_alt version generation → KeepsKind current file → Recovers file outcome → RecoversPair (first_of is_alt file other) (second_of is_alt file other) outcome }
{}

/// While a kernel runs over the current file, whichever file a stop at any moment leaves of it, and whichever it leaves
/// of the other one, the two are recovered to what the first of these is.
pub fn two_files_hold_what_the_current_one_does<D: Disk>()
    ensures { (is_alt : Bool) (was now other : D) (k : ℕ) (file file' : List ℕ) (outcome : Outcome) → IsBeside is_alt (D.reads other) (D.images was (D.moment was)) (D.images other (D.moment other)) → LeavesOnly (D.moment was) (D.moment now) (D.images was) (D.images now) (KeepsOneOf (D.images was (D.moment was))) → D.moment was ≤ k → k ≤ D.moment now → D.images now k file → D.images other (D.moment other) file' → Recovers file outcome → RecoversPair (first_of is_alt file file') (second_of is_alt file file') outcome }
{}
