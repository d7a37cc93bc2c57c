// Laws of insertions and of the locks that they hand out.
ghost use Rattle.std.specs.Prelude.{ℕ, List, ◌++◌};
ghost use Rattle.sp_rect.specs.Plane.{Rectangle as AnyRectangle, IsRectangle};
ghost use Rattle.sp_rect.specs.declared.record.Record.{Record as AnyRecord};
ghost use Rattle.sp_rect.specs.declared.operation.Op.TheVariants.{Put};
ghost use Rattle.sp_locks.specs.declared.mode.Mode.TheVariants.{X};
ghost use Rattle.sp_locks.specs.declared.row.Name.TheVariants.{Object};
ghost use Rattle.sp_locks.specs.declared.row.Duration.TheVariants.{Commit};
ghost use Rattle.sp_locks.specs.declared.needs.Need.{Need as AnyAsked};
ghost use Rattle.sp_node.specs.Among.{Among};
ghost use Rattle.sp_node.specs.declared.node.Entry.{Entry as AnyEntry};
ghost use Rattle.sp_node.specs.Table.{Table};
ghost use Rattle.sp_granule.specs.Granules.{Standing as AnyStanding, standing, granules};
ghost use Rattle.sp_protection.specs.Holding.{Lock as AnyLock, GranuleNeed as AnyNeed, HoldsMode, AllCompatible, Unopposed, AreBelow, AreGifts};
ghost use Rattle.sp_protection.specs.Guarding.{Guarded, MarksOwned};
ghost use Rattle.sp_protection.specs.Reshape.{Licensed};
ghost use Rattle.sp_protection.specs.Needs.{PutWant, AreNeedsOf};
ghost use Rattle.sp_protection.specs.Effects.{fresh, applied};
ghost use Rattle.sp_protection.specs.Insertion.{Inserts, HoldsOwn, KeepsAll};
ghost use Rattle.sp_protection.specs.Asking.{HoldsEach, HoldsGifts, IsNew};

/// A law: an insertion under needs that license it and that no other transaction opposes, with its gifts on
/// new numbers, keeps what every transaction guards and owns, and the new entry is owned.
pub fn insertion_keeps_all()
    ensures { (es : List AnyEntry) (before after : Table) (locks gifts : List AnyLock) (t next : ℕ) (needs : List AnyNeed) (e : AnyStanding)
        → Licensed (granules before) (granules after) needs → Unopposed locks t needs → AllCompatible locks → AreBelow next locks
        → AreGifts next t gifts → Inserts (granules before) (granules after) e
        → HoldsOwn es (granules before) (granules after) locks (locks ++ gifts) t e
        → KeepsAll es (granules before) (granules after) locks (locks ++ gifts) t e }
{}

/// A law: a put whose commit needs are held, with its gifts on new nodes, still guards what it searched, and
/// holds what it wants of its own: on the leaves of its entries, the new one too, and on that one's object.
pub fn puts_keep_their_own()
    ensures searched { (before after : Table) (searches : List AnyRectangle) (locks gifts : List AnyLock) (t : ℕ) (commit : List AnyAsked) (es : List AnyEntry) (e : AnyStanding) (rect : AnyRectangle)
        → AreNeedsOf (PutWant (granules before) (granules after) searches) Commit commit → HoldsEach locks t commit
        → HoldsGifts es (granules before) (granules after) searches (locks ++ gifts) t e
        → Among rect searches → IsRectangle rect → Guarded (granules before) locks t rect → Guarded (granules after) (locks ++ gifts) t rect }
    ensures own { (before after : Table) (searches : List AnyRectangle) (locks gifts : List AnyLock) (t : ℕ) (commit : List AnyAsked) (es : List AnyEntry) (e : AnyStanding)
        → AreNeedsOf (PutWant (granules before) (granules after) searches) Commit commit → HoldsEach locks t commit
        → HoldsGifts es (granules before) (granules after) searches (locks ++ gifts) t e
        → IsNew (granules before) e → HoldsMode locks t (Object e.id) X
        → HoldsOwn es (granules before) (granules after) locks (locks ++ gifts) t e }
{}

/// A law: where an insertion keeps all, what is marked after the put is owned, the new entry too.
pub fn insertions_keep_marks_owned()
    ensures { (before after : Table) (locks others : List AnyLock) (t number : ℕ) (r : AnyRecord) (es : List AnyEntry)
        → KeepsAll es (granules before) (granules after) locks others t (standing (fresh t number r))
        → MarksOwned (granules before) locks es → MarksOwned (granules after) others (applied t number (Put r) es) }
{}
