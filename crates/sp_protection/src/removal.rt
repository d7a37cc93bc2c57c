// The law of removals.
ghost use Rattle.std.specs.Prelude.{◌≡◌, ◌≢◌, ℕ, List, None};
ghost use Rattle.sp_rect.specs.Plane.{Rectangle as AnyRectangle};
ghost use Rattle.sp_locks.specs.declared.row.Duration.TheVariants.{Short};
ghost use Rattle.sp_locks.specs.declared.needs.Need.{Need as AnyAsked};
ghost use Rattle.sp_node.specs.declared.node.Entry.{Entry as AnyEntry};
ghost use Rattle.sp_node.specs.declared.plan.Plan.{Plan as AnyPlan};
ghost use Rattle.sp_node.specs.Plan.{planned, IsMadeOf};
ghost use Rattle.sp_node.specs.Table.{Table};
ghost use Rattle.sp_granule.specs.Granules.{Standing as AnyStanding, granules};
ghost use Rattle.sp_protection.specs.Holding.{Lock as AnyLock, UnopposedByAll};
ghost use Rattle.sp_protection.specs.Guarding.{Guarded, Owned, MarksOwned};
ghost use Rattle.sp_protection.specs.Needs.{ShortWant, AreNeedsOf};
ghost use Rattle.sp_protection.specs.Asking.{granule_needs};
ghost use Rattle.sp_protection.specs.Removal.{KeepsOthers, AreLeftOf};

/// A law: the plan of a removal whose short needs nobody opposes keeps what every transaction guards, and
/// what it owns but for the entry that goes; so what is marked afterwards is still owned.
pub fn removals_keep_all()
    ensures guarded { (t : Table) (plan : AnyPlan) (locks : List AnyLock) (short : List AnyAsked) (txn : ℕ) (rect : AnyRectangle)
        → AreNeedsOf (ShortWant (granules t) (granules (planned t plan)) None) Short short → UnopposedByAll locks (granule_needs short)
        → Guarded (granules t) locks txn rect → Guarded (granules (planned t plan)) locks txn rect }
    ensures owned { (t : Table) (plan : AnyPlan) (locks : List AnyLock) (short : List AnyAsked) (number txn : ℕ) (x : AnyStanding)
        → AreNeedsOf (ShortWant (granules t) (granules (planned t plan)) None) Short short → UnopposedByAll locks (granule_needs short)
        → IsMadeOf t plan → KeepsOthers (granules t) (granules (planned t plan)) number → x.number ≢ number
        → Owned (granules t) locks txn x → Owned (granules (planned t plan)) locks txn x }
    ensures marks { (t : Table) (plan : AnyPlan) (locks : List AnyLock) (short : List AnyAsked) (number : ℕ) (es left : List AnyEntry)
        → AreNeedsOf (ShortWant (granules t) (granules (planned t plan)) None) Short short → UnopposedByAll locks (granule_needs short)
        → IsMadeOf t plan → KeepsOthers (granules t) (granules (planned t plan)) number → AreLeftOf es number left
        → MarksOwned (granules t) locks es → MarksOwned (granules (planned t plan)) locks left }
{}
