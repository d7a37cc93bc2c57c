// Laws of the events by which transactions begin, and operations get their locks.
ghost use Rattle.std.specs.Prelude.{◌≡◌, ℕ, None};
ghost use Rattle.sp_rect.specs.declared.operation.Op.{Op as AnyOp};
ghost use Rattle.sp_event.specs.declared.event.Event.TheVariants.{Begin, Start, Name, Plan, Ask};
ghost use Rattle.sp_event.specs.declared.answer.Answer.{Answer as AnyAnswer};
ghost use Rattle.sp_model.specs.State.{Kernel};
ghost use Rattle.sp_model.specs.Refusals.{turned_away};
ghost use Rattle.sp_model.specs.Removal.{KeepsOthers};
ghost use Rattle.sp_model.specs.Stepped.{Does};
ghost use Rattle.sp_model.specs.Soundness.{Sound};

/// A law: a begin keeps a kernel sound.
pub fn begins_keep_sound()
    ensures { (k : Kernel) (s : ℕ) (answer : AnyAnswer) (after : Kernel)
        → Sound k → turned_away k (Begin s) ≡ None → Does KeepsOthers k (Begin s) answer after → Sound after }
{}

/// A law: the start of an operation and its plan keep a kernel sound: what the plan leaves to ask are
/// the needs that no lock covers, and nobody else holds the latch against it.
pub fn plans_keep_sound()
    ensures start { (k : Kernel) (s : ℕ) (op : AnyOp) (answer : AnyAnswer) (after : Kernel)
        → Sound k → turned_away k (Start s op) ≡ None → Does KeepsOthers k (Start s op) answer after → Sound after }
    ensures plan { (k : Kernel) (s : ℕ) (answer : AnyAnswer) (after : Kernel)
        → Sound k → turned_away k (Plan s) ≡ None → Does KeepsOthers k (Plan s) answer after → Sound after }
{}

/// A law: each question for a lock keeps a kernel sound, whether the lock is granted, has to be waited
/// for, or closes a cycle of waits and ends the transaction.
pub fn requests_keep_sound()
    ensures name { (k : Kernel) (s : ℕ) (answer : AnyAnswer) (after : Kernel)
        → Sound k → turned_away k (Name s) ≡ None → Does KeepsOthers k (Name s) answer after → Sound after }
    ensures ask { (k : Kernel) (s : ℕ) (answer : AnyAnswer) (after : Kernel)
        → Sound k → Does KeepsOthers k (Ask s) answer after → Sound after }
{}
