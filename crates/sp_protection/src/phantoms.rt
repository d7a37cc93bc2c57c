// Laws of guarded rectangles: how a search guards one, and that nobody else's entry lies in it.
ghost use Rattle.std.specs.Prelude.{◌≡◌, ◌≢◌, ℕ, true, false, IsTrue, List};
ghost use Rattle.sp_rect.specs.Plane.{Point as AnyPoint, Rectangle as AnyRectangle, IsRectangle, holds};
ghost use Rattle.sp_rect.specs.declared.operation.Op.{Op as AnyOp};
ghost use Rattle.sp_rect.specs.Store.{Area, part_of};
ghost use Rattle.sp_locks.specs.declared.needs.Need.{Need as AnyAsked};
ghost use Rattle.sp_locks.specs.declared.row.Duration.TheVariants.{Commit};
ghost use Rattle.sp_node.specs.declared.node.Entry.{Entry as AnyEntry};
ghost use Rattle.sp_node.specs.Among.{Among};
ghost use Rattle.sp_node.specs.Table.{Table, IsValid, entries_of};
ghost use Rattle.sp_granule.specs.Granules.{Standing as AnyStanding, standing, granules};
ghost use Rattle.sp_protection.specs.Holding.{Lock as AnyLock, AllCompatible};
ghost use Rattle.sp_protection.specs.Guarding.{Guarded, Owned, HoldsMeeting};
ghost use Rattle.sp_protection.specs.Needs.{StayWant, AreNeedsOf};
ghost use Rattle.sp_protection.specs.Effects.{is_changed};
ghost use Rattle.sp_protection.specs.Asking.{HoldsEach, HoldsNamed};

/// A law: an entry that one transaction owns has no point in a rectangle that another guards, in a valid
/// tree and under locks that are compatible.
pub fn no_phantom()
    ensures { (tree : Table) (locks : List AnyLock) (t u : ℕ) (rect : AnyRectangle) (e : AnyStanding) (p : AnyPoint)
        → IsValid tree → AllCompatible locks → u ≢ t → Guarded (granules tree) locks t rect → Owned (granules tree) locks u e
        → IsTrue (holds e.rect p) → holds rect p ≡ false }
{}

/// A law: S on each granule that meets a rectangle guards it, since granules cover space.
pub fn search_guards()
    ensures { (tree : Table) (locks : List AnyLock) (t : ℕ) (rect : AnyRectangle) → IsRectangle rect
        → HoldsMeeting (granules tree) locks t rect → Guarded (granules tree) locks t rect }
{}

/// A law: a find, a fill or a clear whose commit needs are held holds S on each granule that meets its
/// rectangle, and so guards it.
pub fn needs_guard()
    ensures meeting { (tree : Table) (es : List AnyEntry) (locks : List AnyLock) (t : ℕ) (op : AnyOp) (rect : AnyRectangle) (needs : List AnyAsked)
        → part_of op ≡ Area rect → AreNeedsOf (StayWant (granules tree) es t op) Commit needs → HoldsEach locks t needs
        → HoldsMeeting (granules tree) locks t rect }
    ensures guarded { (tree : Table) (es : List AnyEntry) (locks : List AnyLock) (t : ℕ) (op : AnyOp) (rect : AnyRectangle) (needs : List AnyAsked)
        → part_of op ≡ Area rect → IsRectangle rect → AreNeedsOf (StayWant (granules tree) es t op) Commit needs → HoldsEach locks t needs
        → Guarded (granules tree) locks t rect }
{}

/// A law: an operation whose commit needs are held, with X on the object of the id that it names, owns each
/// entry whose marks it changes.
pub fn changed_entries_are_owned()
    ensures { (tree : Table) (locks : List AnyLock) (t : ℕ) (op : AnyOp) (needs : List AnyAsked) (e : AnyEntry) → IsValid tree
        → ((rect : AnyRectangle) → part_of op ≡ Area rect → IsRectangle rect)
        → AreNeedsOf (StayWant (granules tree) (entries_of tree) t op) Commit needs → HoldsEach locks t needs → HoldsNamed locks t op
        → Among e (entries_of tree) → is_changed t op e ≡ true → Owned (granules tree) locks t (standing e) }
{}
