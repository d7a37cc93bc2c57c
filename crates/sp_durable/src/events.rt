// Laws of what an event leaves of the commits that wait.
ghost use Rattle.std.specs.Prelude.{◌≡◌, ◌≢◌, ℕ, List, Some, None};
ghost use Rattle.sp_plain.specs.declared.change.Change.{Change as AnyChange};
ghost use Rattle.sp_journal.specs.declared.types.Call.TheVariants.{Fault};
ghost use Rattle.sp_journal.specs.Standing.{Ledger, turned, queued_behind};
ghost use Rattle.sp_event.specs.declared.event.Event.{Event as AnyEvent};
ghost use Rattle.sp_event.specs.declared.event.Event.TheVariants.{Commit as AskCommit, Flush as AskFlush};
ghost use Rattle.sp_event.specs.declared.answer.Answer.{Answer as AnyAnswer};
ghost use Rattle.sp_event.specs.declared.answer.Answer.TheVariants.{Queued as IsQueued};
ghost use Rattle.sp_model.specs.declared.session.Session.{Session as AnySession};
ghost use Rattle.sp_model.specs.declared.session.Stage.TheVariants.{Idle, Queued};
ghost use Rattle.sp_model.specs.State.{Kernel, entries_in};
ghost use Rattle.sp_model.specs.Refusals.{turned_away};
ghost use Rattle.sp_model.specs.Removal.{IsTakenOut};
ghost use Rattle.sp_model.specs.Stepped.{Does, IsAt};
ghost use Rattle.sp_model.specs.Soundness.{Sound};
ghost use Rattle.sp_durable.specs.Held.{AreChanges};
ghost use Rattle.sp_durable.specs.Standing.{Matches, call_of, phase_of};

/// A law: an event leaves the agreement of a kernel with the ledger of its journal. A commit that joins the
/// queue is one more in the ledger, with its changes; a flush leaves what its call of the disk leaves; and
/// every other event, and a fault of the disk, leaves the ledger as it is.
pub fn events_leave_what_is_queued()
    ensures others { (k : Kernel) (event : AnyEvent) (answer : AnyAnswer) (after : Kernel) (ledger : Ledger) → Sound k → turned_away k event ≡ None
        → event ≢ AskFlush → answer ≢ IsQueued → Does IsTakenOut k event answer after → Matches k ledger → Matches after ledger }
    ensures waits { (k : Kernel) (s : ℕ) (x : AnySession) (answer : AnyAnswer) (after : Kernel) (ledger : Ledger) → IsAt k s x → x.stage ≡ Queued
        → Does IsTakenOut k (AskCommit s) answer after → Matches k ledger → Matches after ledger }
    ensures joins { (k : Kernel) (s : ℕ) (x : AnySession) (changes : List AnyChange) (after : Kernel) (ledger : Ledger) → Sound k → IsAt k s x → x.stage ≡ Idle
        → AreChanges (entries_in k) x.txn.number changes → Does IsTakenOut k (AskCommit s) IsQueued after → Matches k ledger → Matches after (queued_behind ledger changes) }
    ensures flush { (k : Kernel) (answer : AnyAnswer) (after : Kernel) (ledger : Ledger) → Sound k → turned_away k AskFlush ≡ None
        → Does IsTakenOut k AskFlush answer after → Matches k ledger → Matches after (turned (phase_of k.stopped k.calls) (call_of answer) ledger) }
    ensures fault { (k : Kernel) (offset : ℕ) (ledger : Ledger) → Matches k ledger
        → Matches (record k { stopped = Some offset }) (turned (phase_of k.stopped k.calls) (Fault offset) ledger) }
{}
