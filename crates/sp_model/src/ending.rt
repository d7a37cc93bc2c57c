// Laws of the events by which transactions end, and dead entries go.
ghost use Rattle.std.specs.Prelude.{◌≡◌, ℕ, true, List, None};
ghost use Rattle.sp_rect.specs.declared.commit.Commit.{Commit as AnyCommit};
ghost use Rattle.sp_node.specs.Among.{Among};
ghost use Rattle.sp_node.specs.Change.{table_with};
ghost use Rattle.sp_node.specs.Marks.{settled, undone};
ghost use Rattle.sp_event.specs.declared.event.Event.{Event as AnyEvent};
ghost use Rattle.sp_event.specs.declared.event.Event.TheVariants.{Commit as AskCommit, Rollback as AskRollback, Flush as AskFlush, Clean as AskClean};
ghost use Rattle.sp_event.specs.declared.answer.Answer.{Answer as AnyAnswer};
ghost use Rattle.sp_event.specs.declared.answer.Answer.TheVariants.{Committed};
ghost use Rattle.sp_model.specs.declared.session.Session.{Session as AnySession};
ghost use Rattle.sp_model.specs.declared.session.Stage.TheVariants.{Placed};
ghost use Rattle.sp_model.specs.Places.{HasPlaces};
ghost use Rattle.sp_model.specs.State.{Kernel, is_active};
ghost use Rattle.sp_model.specs.Refusals.{turned_away};
ghost use Rattle.sp_model.specs.Removal.{KeepsOthers};
ghost use Rattle.sp_model.specs.Stepped.{Does, IsAt};
ghost use Rattle.sp_model.specs.Soundness.{Sound};
ghost use Rattle.sp_model.specs.Unmarked.{IsDeadUntouched, AreNumbersMarked, one_by_one};

/// A law: a commit keeps a kernel sound, whatever it is answered: the transaction without changes that
/// takes its place at once, the one that joins the queue or stays there, and the news of a place.
pub fn commits_keep_sound()
    ensures { (k : Kernel) (s : ℕ) (answer : AnyAnswer) (after : Kernel)
        → Sound k → Does KeepsOthers k (AskCommit s) answer after → Sound after }
{}

/// A law: a rollback keeps a kernel sound.
pub fn rollbacks_keep_sound()
    ensures { (k : Kernel) (s : ℕ) (answer : AnyAnswer) (after : Kernel)
        → Sound k → turned_away k (AskRollback s) ≡ None → Does KeepsOthers k (AskRollback s) answer after → Sound after }
{}

/// A law: a flush keeps a kernel sound: its commits in the queue become the batch, the calls are made,
/// and once they are the commits take their places in order.
pub fn flushes_keep_sound()
    ensures { (k : Kernel) (answer : AnyAnswer) (after : Kernel)
        → Sound k → Does KeepsOthers k AskFlush answer after → Sound after }
{}

/// A law: the removal of a dead entry keeps a kernel sound, and so does one that is put off. Any removal
/// will do that leaves a valid tree with the other entries.
pub fn removals_keep_sound()
    ensures { (k : Kernel) (answer : AnyAnswer) (after : Kernel)
        → Sound k → turned_away k AskClean ≡ None → Does KeepsOthers k AskClean answer after → Sound after }
{}

/// A law: each event leaves nothing of an active transaction on dead entries. So the end of one is what it
/// makes of the entries that bear its marks, one after the other.
pub fn ends_change_marked_entries()
    ensures untouched { (k : Kernel) (event : AnyEvent) (answer : AnyAnswer) (after : Kernel) → Sound k
        → turned_away k event ≡ None → Does KeepsOthers k event answer after → IsDeadUntouched after }
    ensures commit { (k : Kernel) (x : AnySession) (numbers : List ℕ) → Sound k → Among x k.sessions → is_active x ≡ true
        → AreNumbersMarked k.tree x.txn.number numbers
        → one_by_one (settled x.txn.number) numbers k.tree ≡ table_with (settled x.txn.number) k.tree }
    ensures rollback { (k : Kernel) (x : AnySession) (numbers : List ℕ) → Sound k → Among x k.sessions → is_active x ≡ true
        → AreNumbersMarked k.tree x.txn.number numbers
        → one_by_one (undone x.txn.number) numbers k.tree ≡ table_with (undone x.txn.number) k.tree }
{}

/// A law: each event leaves the last commit of a placed session in the audit that of its transaction. So
/// its next commit is answered with the place that its transaction took.
pub fn placed_sessions_are_told_their_places()
    ensures stays { (k : Kernel) (event : AnyEvent) (answer : AnyAnswer) (after : Kernel) → Sound k
        → Does KeepsOthers k event answer after → HasPlaces after }
    ensures told { (k : Kernel) (s : ℕ) (x : AnySession) (answer : AnyAnswer) (after : Kernel) → Sound k → IsAt k s x → x.stage ≡ Placed
        → Does KeepsOthers k (AskCommit s) answer after
        → (c : AnyCommit) × Among c k.commits × (c.txn ≡ x.txn.number) × (answer ≡ Committed c.place) }
{}
