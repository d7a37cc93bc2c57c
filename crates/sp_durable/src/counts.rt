// Laws of the counts that the work of a journal keeps, whatever its disk does.
ghost use Rattle.std.specs.Prelude.{◌≡◌, ◌≢◌, ◌+◌, ◌^◌, ◌≤◌, ℕ, nat_eq, true, List, length, Some, None};
ghost use Rattle.std.specs.List.{sum_by, IsDistinct};
ghost use Rattle.sp_plain.specs.declared.change.Change.{Change as AnyChange};
ghost use Rattle.sp_node.specs.Among.{Among};
ghost use Rattle.sp_txn.specs.Changes.{changes_of};
ghost use Rattle.sp_journal.specs.declared.types.Call.TheVariants.{Fault};
ghost use Rattle.sp_journal.specs.declared.work.Work.{Work as AnyWork};
ghost use Rattle.sp_journal.specs.Standing.{Ledger, Stands, Answered, queued_after};
ghost use Rattle.sp_event.specs.declared.event.Event.{Event as AnyEvent};
ghost use Rattle.sp_event.specs.declared.event.Event.TheVariants.{Commit as AskCommit, Flush as AskFlush};
ghost use Rattle.sp_event.specs.declared.answer.Answer.{Answer as AnyAnswer};
ghost use Rattle.sp_event.specs.declared.answer.Answer.TheVariants.{Queued as IsQueued};
ghost use Rattle.sp_model.specs.declared.session.Session.{Session as AnySession};
ghost use Rattle.sp_model.specs.declared.session.Stage.TheVariants.{Idle, Queued};
ghost use Rattle.sp_model.specs.State.{Kernel, entries_in, session_at};
ghost use Rattle.sp_model.specs.Moves.{placed_all};
ghost use Rattle.sp_model.specs.Refusals.{turned_away};
ghost use Rattle.sp_model.specs.Removal.{IsTakenOut};
ghost use Rattle.sp_model.specs.Stepped.{Does, IsAt, has_changes};
ghost use Rattle.sp_model.specs.Soundness.{Sound};
ghost use Rattle.sp_durable.specs.Held.{AreChanges};
ghost use Rattle.sp_durable.specs.Standing.{Matches, Counted, call_of, phase_of, changes_by, changes_queued};

use sp_disk::Disk;

/// A law: an entry gives a change of one transaction at most, so those of different sessions are no more
/// than the entries. A transaction that may commit has one or more, where it has any, and with those that
/// are queued they are at most 2^20, so a journal can take them.
pub fn queued_changes_are_few()
    ensures entries { (k : Kernel) (numbers : List ℕ) → Sound k → IsDistinct nat_eq numbers → sum_by (λ s. changes_by (entries_in k) (session_at s k.sessions)) numbers ≤ length (entries_in k) }
    ensures few { (k : Kernel) (x : AnySession) → Sound k → Among x k.sessions → x.stage ≡ Idle → changes_queued k + length (changes_of x.txn.number (entries_in k)) ≤ 2 ^ 20 }
    ensures some { (k : Kernel) (x : AnySession) (changes : List AnyChange) → has_changes k x ≡ true → AreChanges (entries_in k) x.txn.number changes → 1 ≤ length changes }
    ensures room { (k : Kernel) (x : AnySession) (changes : List AnyChange) (work : AnyWork) → Sound k → Among x k.sessions → x.stage ≡ Idle
        → AreChanges (entries_in k) x.txn.number changes → Counted k work → work.changes + length changes ≤ 2 ^ 20 }
{}

/// A law: what a journal that stands has in flight and in its queue is what the kernel has there.
pub fn standing_counts_agree<D: Disk>()
    ensures { (disk : D) (work : AnyWork) (ledger : Ledger) (k : Kernel) → Stands (D.reads disk) (D.images disk (D.moment disk)) work ledger
        → Matches k ledger → (work.flying ≡ length k.flight) × (work.commits ≡ length k.queue) }
{}

/// A law: an event leaves the number of changes that are queued. A commit that joins the queue brings its
/// own, and the call of the disk by which the queue becomes the batch in flight leaves none.
pub fn events_leave_changes_queued()
    ensures others { (k : Kernel) (event : AnyEvent) (answer : AnyAnswer) (after : Kernel) → Sound k → turned_away k event ≡ None
        → event ≢ AskFlush → answer ≢ IsQueued → Does IsTakenOut k event answer after → changes_queued after ≡ changes_queued k }
    ensures waits { (k : Kernel) (s : ℕ) (x : AnySession) (answer : AnyAnswer) (after : Kernel) → IsAt k s x → x.stage ≡ Queued
        → Does IsTakenOut k (AskCommit s) answer after → changes_queued after ≡ changes_queued k }
    ensures joins { (k : Kernel) (s : ℕ) (x : AnySession) (after : Kernel) → Sound k → IsAt k s x → x.stage ≡ Idle → Does IsTakenOut k (AskCommit s) IsQueued after
        → changes_queued after ≡ changes_queued k + length (changes_of x.txn.number (entries_in k)) }
    ensures flush { (k : Kernel) (answer : AnyAnswer) (after : Kernel) → Sound k → turned_away k AskFlush ≡ None → Does IsTakenOut k AskFlush answer after
        → changes_queued after ≡ queued_after (phase_of k.stopped k.calls) (call_of answer) (changes_queued k) }
    ensures durable { (k : Kernel) → Sound k → changes_queued (placed_all k) ≡ changes_queued k }
{}

/// A law: an event leaves the agreement of a kernel with the counts of its journal's work. A commit that
/// joins the queue is one more, with its changes; a flush has the counts that its call of the disk leaves;
/// every other event leaves the work as it is; and a fault of the disk stops both.
pub fn events_leave_counts()
    ensures others { (k : Kernel) (event : AnyEvent) (answer : AnyAnswer) (after : Kernel) (work : AnyWork) → Sound k → turned_away k event ≡ None
        → event ≢ AskFlush → answer ≢ IsQueued → Does IsTakenOut k event answer after → Counted k work → Counted after work }
    ensures waits { (k : Kernel) (s : ℕ) (x : AnySession) (answer : AnyAnswer) (after : Kernel) (work : AnyWork) → IsAt k s x → x.stage ≡ Queued
        → Does IsTakenOut k (AskCommit s) answer after → Counted k work → Counted after work }
    ensures joins { (k : Kernel) (s : ℕ) (x : AnySession) (changes : List AnyChange) (after : Kernel) (old new : AnyWork) → Sound k → IsAt k s x → x.stage ≡ Idle
        → AreChanges (entries_in k) x.txn.number changes → Does IsTakenOut k (AskCommit s) IsQueued after → Counted k old
        → new.phase ≡ old.phase → new.end ≡ old.end → new.flying ≡ old.flying → new.commits ≡ old.commits + 1 → new.changes ≡ old.changes + length changes → Counted after new }
    ensures flush { (k : Kernel) (answer : AnyAnswer) (after : Kernel) (old new : AnyWork) → Sound k → turned_away k AskFlush ≡ None
        → Does IsTakenOut k AskFlush answer after → Counted k old → Answered old.phase (call_of answer) old new
        → new.changes ≡ queued_after old.phase (call_of answer) old.changes → new.commits ≡ queued_after old.phase (call_of answer) old.commits
        → new.flying ≡ length after.flight → Counted after new }
    ensures fault { (k : Kernel) (offset : ℕ) (old new : AnyWork) → Counted k old → Answered old.phase (Fault offset) old new
        → Counted (record k { stopped = Some offset }) new }
{}
