// Laws of the changes of the commits that wait.
ghost use Rattle.std.specs.Prelude.{◌≡◌, List, [], ◌∷◌, ◌++◌, Some};
ghost use Rattle.sp_rect.specs.declared.record.Record.{Record as AnyRecord};
ghost use Rattle.sp_plain.specs.declared.change.Change.{Change as AnyChange};
ghost use Rattle.sp_plain.specs.Taking.{taken};
ghost use Rattle.sp_node.specs.Among.{Among};
ghost use Rattle.sp_txn.specs.Visible.{live};
ghost use Rattle.sp_journal.specs.Recovery.{all_changes};
ghost use Rattle.sp_model.specs.declared.session.Session.{Session as AnySession};
ghost use Rattle.sp_model.specs.declared.session.Stage.TheVariants.{Idle};
ghost use Rattle.sp_model.specs.State.{Kernel, entries_in};
ghost use Rattle.sp_model.specs.Moves.{placed_all};
ghost use Rattle.sp_model.specs.Soundness.{Sound};
ghost use Rattle.sp_durable.specs.Held.{AreChanges, AreHeld};

/// A law: the changes of the commits that wait can be made of what is live, one after the other, and so can
/// those of one more behind them; and those in flight leave what is live once their batch is on the disk.
pub fn queued_changes_apply()
    ensures all { (k : Kernel) (flight queued : List (List AnyChange)) → Sound k → AreHeld k k.flight flight → AreHeld k k.queue queued
        → (records : List AnyRecord) × (taken (all_changes (flight ++ queued)) (live (entries_in k)) ≡ Some records) }
    ensures one_more { (k : Kernel) (x : AnySession) (changes : List AnyChange) (flight queued : List (List AnyChange)) → Sound k
        → Among x k.sessions → x.stage ≡ Idle → AreChanges (entries_in k) x.txn.number changes → AreHeld k k.flight flight → AreHeld k k.queue queued
        → (records : List AnyRecord) × (taken (all_changes (flight ++ (queued ++ changes ∷ []))) (live (entries_in k)) ≡ Some records) }
    ensures batch { (k : Kernel) (flight : List (List AnyChange)) → Sound k → AreHeld k k.flight flight
        → taken (all_changes flight) (live (entries_in k)) ≡ Some (live (entries_in (placed_all k))) }
{}
