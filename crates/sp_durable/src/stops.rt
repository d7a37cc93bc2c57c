// A law of what a stop leaves on the disk.
ghost use Rattle.std.specs.Prelude.{ℕ, List};
ghost use Rattle.sp_journal.specs.declared.work.Work.{Work as AnyWork};
ghost use Rattle.sp_journal.specs.declared.work.Phase.{Phase as AnyPhase};
ghost use Rattle.sp_journal.specs.Standing.{Ledger, Stands, MayLeave};
ghost use Rattle.sp_model.specs.State.{Kernel};
ghost use Rattle.sp_model.specs.Soundness.{Sound};
ghost use Rattle.sp_durable.specs.Standing.{Matches};
ghost use Rattle.sp_durable.specs.Recovered.{IsLeft, IsLeftInCall};

use sp_disk::Disk;

/// A law: where a journal stands by a ledger that agrees with a sound kernel, each file that a stop leaves
/// is recovered to what the commits of the kernel leave, or, where the gate of the batch in flight may be
/// written, to what these and the whole batch leave. It is so between two calls of the disk, and at any
/// moment of a call.
pub fn stops_leave_every_commit<D: Disk>()
    ensures between { (disk : D) (work : AnyWork) (ledger : Ledger) (k : Kernel) (file : List ℕ)
        → Stands (D.reads disk) (D.images disk (D.moment disk)) work ledger → Matches k ledger → Sound k
        → D.images disk (D.moment disk) file → IsLeft work.phase k file }
    ensures in_call { (phase : AnyPhase) (ledger : Ledger) (k : Kernel) (file : List ℕ)
        → Matches k ledger → Sound k → MayLeave phase ledger file → IsLeftInCall phase k file }
{}
