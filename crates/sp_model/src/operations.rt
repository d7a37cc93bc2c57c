// The law of operations that are applied.
ghost use Rattle.std.specs.Prelude.{ℕ};
ghost use Rattle.sp_event.specs.declared.event.Event.TheVariants.{Apply as AskApply};
ghost use Rattle.sp_event.specs.declared.answer.Answer.{Answer as AnyAnswer};
ghost use Rattle.sp_model.specs.State.{Kernel};
ghost use Rattle.sp_model.specs.Removal.{KeepsOthers};
ghost use Rattle.sp_model.specs.Stepped.{Does};
ghost use Rattle.sp_model.specs.Soundness.{Sound};

/// A law: an operation that is applied keeps a kernel sound, whatever it is answered: a search, which reads
/// what it guards; a put that finds a record of its id; a drop, a set, a fill or a clear, which marks what it
/// owns; a put that adds its entry, with the locks that it gets on new granules; and an operation that would
/// pass a limit, which ends without effect.
pub fn operations_keep_sound()
    ensures { (k : Kernel) (s : ℕ) (answer : AnyAnswer) (after : Kernel)
        → Sound k → Does KeepsOthers k (AskApply s) answer after → Sound after }
{}
