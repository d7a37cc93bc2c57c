// Laws of what a transcript has told, and what a kernel keeps.
ghost use Rattle.std.specs.Prelude.{◌≡◌, ◌≢◌, ℕ, List, [], ◌∷◌, ◌++◌};
ghost use Rattle.sp_rect.specs.declared.operation.Op.{Op as AnyOp};
ghost use Rattle.sp_rect.specs.declared.commit.Commit.{Commit as AnyCommit};
ghost use Rattle.sp_event.specs.declared.event.Event.{Event as AnyEvent};
ghost use Rattle.sp_event.specs.declared.event.Event.TheVariants.{Commit as AskCommit, Apply as AskApply};
ghost use Rattle.sp_event.specs.declared.answer.Answer.{Answer as AnyAnswer};
ghost use Rattle.sp_event.specs.declared.answer.Answer.TheVariants.{Memory as WantsMemory};
ghost use Rattle.sp_text.specs.declared.types.Command.TheVariants.{Do};
ghost use Rattle.sp_text.specs.declared.types.Item.{Item as AnyItem};
ghost use Rattle.sp_text.specs.Transcripts.{Ledger, ledger, note, noted, stepped_to};
ghost use Rattle.sp_model.specs.State.{Kernel as AnyKernel};
ghost use Rattle.sp_model.specs.Soundness.{Sound};
ghost use Rattle.sp_kernel.specs.Answers.{Answers};
ghost use Rattle.sp_told.specs.Telling.{owed, TellsCommits, TellsStarted, Tells, IsOf, DoesNoOther};

/// A law: one item more is one step more of the ledger.
pub fn transcripts_grow_by_items()
    ensures { (items : List AnyItem) (item : AnyItem) → ledger (items ++ item ∷ []) ≡ note (ledger items) item }
{}

/// A law: what was told of events is what the kernel keeps. It is so at the start, where no session has a
/// transaction and nothing was told; each event with its answer, whatever that is, leaves it so, and after
/// the last call of a batch the sessions of the batch are to be told their places; each of these, asked to
/// commit in turn, is told its place; and where none is left, the kernel's commits are those of the start
/// and then those that were told, each with its place and its operations.
pub fn events_tell_what_is_kept()
    ensures begins { (k : AnyKernel) → k.sessions ≡ [] → Tells k.commits (ledger []) k [] }
    ensures event { (before : List AnyCommit) (l : Ledger) (k : AnyKernel) (event : AnyEvent) (answer : AnyAnswer) (after : AnyKernel) → Sound k
        → Tells before l k [] → Answers k event answer after → Tells before (stepped_to l event answer) after (owed k answer) }
    ensures late { (before : List AnyCommit) (l : Ledger) (k : AnyKernel) (s : ℕ) (rest : List ℕ) (answer : AnyAnswer) (after : AnyKernel) → Sound k
        → Tells before l k (s ∷ rest) → answer ≢ WantsMemory → Answers k (AskCommit s) answer after → Tells before (stepped_to l (AskCommit s) answer) after rest }
    ensures memory { (before : List AnyCommit) (l : Ledger) (k : AnyKernel) (s : ℕ) (rest : List ℕ) (after : AnyKernel)
        → Tells before l k (s ∷ rest) → Answers k (AskCommit s) WantsMemory after → after ≡ k }
    ensures ends { (before : List AnyCommit) (l : Ledger) (k : AnyKernel) → Tells before l k [] → k.commits ≡ before ++ l.done }
{}

/// A law: the same of commits alone, where a session is told the answer to its command in place of those to
/// each event. Each event of an operation leaves it so, with the answer told to that operation, whoever is
/// still to be told a place; each other event does, where nobody is; and the commit of the first session
/// that is to be told its place does.
pub fn commands_tell_what_is_kept()
    ensures operation { (before : List AnyCommit) (l : Ledger) (k : AnyKernel) (owing : List ℕ) (s : ℕ) (op : AnyOp) (event : AnyEvent) (answer : AnyAnswer) (after : AnyKernel)
        → TellsCommits before l k owing → IsOf s op event → DoesNoOther k s op → Answers k event answer after → TellsCommits before (noted l s (Do op) answer) after owing }
    ensures other { (before : List AnyCommit) (l : Ledger) (k : AnyKernel) (event : AnyEvent) (answer : AnyAnswer) (after : AnyKernel) → Sound k
        → TellsCommits before l k [] → ((s : ℕ) → event ≢ AskApply s) → Answers k event answer after → TellsCommits before (stepped_to l event answer) after (owed k answer) }
    ensures late { (before : List AnyCommit) (l : Ledger) (k : AnyKernel) (s : ℕ) (rest : List ℕ) (answer : AnyAnswer) (after : AnyKernel)
        → TellsCommits before l k (s ∷ rest) → answer ≢ WantsMemory → Answers k (AskCommit s) answer after → TellsCommits before (stepped_to l (AskCommit s) answer) after rest }
    ensures ends { (before : List AnyCommit) (l : Ledger) (k : AnyKernel) → TellsCommits before l k [] → k.commits ≡ before ++ l.done }
{}

/// A law: each event with its answer leaves every session that has an operation under way told of it last
/// that it is started, whoever is to be told a place.
pub fn events_tell_what_is_started()
    ensures { (l : Ledger) (k : AnyKernel) (event : AnyEvent) (answer : AnyAnswer) (after : AnyKernel) → Sound k
        → TellsStarted l k → Answers k event answer after → TellsStarted (stepped_to l event answer) after }
{}
