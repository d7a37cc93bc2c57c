// Laws of changes of the tree: which needs license one, and what it then leaves of the locks of others.
ghost use Rattle.std.specs.Prelude.{◌≡◌, ◌≢◌, ℕ, List, ◌++◌, Some, None};
ghost use Rattle.sp_rect.specs.Plane.{Rectangle as AnyRectangle};
ghost use Rattle.sp_locks.specs.declared.needs.Need.{Need as AnyAsked};
ghost use Rattle.sp_locks.specs.declared.row.Duration.TheVariants.{Commit, Short};
ghost use Rattle.sp_node.specs.Among.{Among};
ghost use Rattle.sp_node.specs.Table.{Table};
ghost use Rattle.sp_granule.specs.Granules.{Standing as AnyStanding, granules};
ghost use Rattle.sp_protection.specs.Holding.{Lock as AnyLock, GranuleNeed as AnyNeed, AllCompatible, Unopposed, UnopposedByAll, HoldsNeeds};
ghost use Rattle.sp_protection.specs.Guarding.{Guarded, Owned};
ghost use Rattle.sp_protection.specs.Reshape.{Licensed, SameStandings, StillHas, MeetsShort, MeetsEntry, EntersOrGives};
ghost use Rattle.sp_protection.specs.Needs.{PutWant, ShortWant, AreNeedsOf};
ghost use Rattle.sp_protection.specs.Asking.{HoldsEach, AreAskedOrHeld, granule_needs, held_needs, IsNew};

/// A law: a licensed change of the tree whose needs no other transaction opposes keeps what each other
/// transaction guards, and owns of the entries that are still there; and where nobody opposes them, as
/// at a removal, it keeps what everybody does.
pub fn licensed_change_keeps()
    ensures guarded { (before after : Table) (locks : List AnyLock) (t u : ℕ) (needs : List AnyNeed) (rect : AnyRectangle)
        → Licensed (granules before) (granules after) needs → Unopposed locks t needs → u ≢ t
        → Guarded (granules before) locks u rect → Guarded (granules after) locks u rect }
    ensures owned { (before after : Table) (locks : List AnyLock) (t u : ℕ) (needs : List AnyNeed) (e : AnyStanding)
        → Licensed (granules before) (granules after) needs → SameStandings (granules before) (granules after)
        → Unopposed locks t needs → u ≢ t → Owned (granules before) locks u e → StillHas (granules after) e.number
        → Owned (granules after) locks u e }
    ensures guarded_by_all { (before after : Table) (locks : List AnyLock) (u : ℕ) (needs : List AnyNeed) (rect : AnyRectangle)
        → Licensed (granules before) (granules after) needs → UnopposedByAll locks needs
        → Guarded (granules before) locks u rect → Guarded (granules after) locks u rect }
    ensures owned_by_all { (before after : Table) (locks : List AnyLock) (u : ℕ) (needs : List AnyNeed) (e : AnyStanding)
        → Licensed (granules before) (granules after) needs → SameStandings (granules before) (granules after)
        → UnopposedByAll locks needs → Owned (granules before) locks u e → StillHas (granules after) e.number
        → Owned (granules after) locks u e }
{}

/// A law: the short needs of a removal license it, and those of a put do with IX on the leaf of its entry.
pub fn short_needs_license()
    ensures removal { (before after : Table) (needs : List AnyNeed) → MeetsShort (granules before) (granules after) None needs
        → Licensed (granules before) (granules after) needs }
    ensures put { (before after : Table) (chosen : ℕ) (e : AnyStanding) (needs : List AnyNeed)
        → MeetsShort (granules before) (granules after) (Some chosen) needs → MeetsEntry (granules before) (granules after) e needs
        → EntersOrGives (granules before) (granules after) chosen e → Licensed (granules before) (granules after) needs }
{}

/// A law: needs that a transaction holds are opposed by no other. So are, among the locks to the end, the
/// needs that it asked and holds beside them in the meantime, with what it holds to the end.
pub fn held_needs_are_unopposed()
    ensures held { (locks : List AnyLock) (t : ℕ) (needs : List AnyNeed) → AllCompatible locks → HoldsNeeds locks t needs → Unopposed locks t needs }
    ensures asked { (locks all : List AnyLock) (t : ℕ) (asked : List AnyAsked) → AllCompatible all
        → ((lock : AnyLock) → Among lock locks → Among lock all) → HoldsEach all t asked
        → Unopposed locks t (granule_needs asked ++ held_needs locks t) }
{}

/// A law: the needs of a removal license it, and those of a put do, its commit needs with its short ones,
/// where each is asked or a lock that the transaction holds is enough for it. `e` is the new entry, and
/// `chosen` the leaf that it was brought to.
pub fn needs_license()
    ensures removal { (before after : Table) (short : List AnyAsked) → AreNeedsOf (ShortWant (granules before) (granules after) None) Short short
        → Licensed (granules before) (granules after) (granule_needs short) }
    ensures put { (before after : Table) (searches : List AnyRectangle) (chosen : ℕ) (e : AnyStanding) (locks : List AnyLock) (t : ℕ) (commit short asked : List AnyAsked)
        → AreNeedsOf (PutWant (granules before) (granules after) searches) Commit commit
        → AreNeedsOf (ShortWant (granules before) (granules after) (Some chosen)) Short short
        → AreAskedOrHeld locks t commit asked → AreAskedOrHeld locks t short asked
        → IsNew (granules before) e → EntersOrGives (granules before) (granules after) chosen e
        → Licensed (granules before) (granules after) (granule_needs asked ++ held_needs locks t) }
{}
