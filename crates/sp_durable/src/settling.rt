// A law of the changes of one transaction.
ghost use Rattle.std.specs.Prelude.{◌≡◌, true, List, map, Some};
ghost use Rattle.sp_plain.specs.declared.change.Change.{Change as AnyChange};
ghost use Rattle.sp_plain.specs.Taking.{taken};
ghost use Rattle.sp_node.specs.Among.{Among};
ghost use Rattle.sp_node.specs.Marks.{settled};
ghost use Rattle.sp_txn.specs.Visible.{live};
ghost use Rattle.sp_model.specs.declared.session.Session.{Session as AnySession};
ghost use Rattle.sp_model.specs.State.{Kernel, entries_in, is_active};
ghost use Rattle.sp_model.specs.Soundness.{Sound};
ghost use Rattle.sp_durable.specs.Held.{AreChanges};

/// A law: the changes of an open transaction can be made of what is live, and leave what is live once it
/// has committed.
pub fn changes_leave_what_commits()
    ensures { (k : Kernel) (x : AnySession) (cs : List AnyChange) → Sound k → Among x k.sessions → is_active x ≡ true
        → AreChanges (entries_in k) x.txn.number cs → taken cs (live (entries_in k)) ≡ Some (live (map (settled x.txn.number) (entries_in k))) }
{}
