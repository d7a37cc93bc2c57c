// Laws of where entries stand.
ghost use Rattle.std.specs.Prelude.{◌≡◌, ℕ, ◌<◌};
ghost use Rattle.sp_node.specs.declared.plan.Plan.{Plan as AnyPlan};
ghost use Rattle.sp_node.specs.Among.{Among};
ghost use Rattle.sp_node.specs.Plan.{planned, IsMadeOf};
ghost use Rattle.sp_node.specs.Table.{Table, IsValid};
ghost use Rattle.sp_granule.specs.Granules.{Granule as AnyGranule, Standing as AnyStanding, granules};
ghost use Rattle.sp_protection.specs.Reshape.{SameStandings};

/// A law: in a valid tree an entry number stands in one leaf, for one entry, and granules have numbers
/// below the next one.
pub fn entries_stand_once()
    ensures once { (t : Table) (g h : AnyGranule) (x y : AnyStanding) → IsValid t → Among g (granules t) → Among x g.entries
        → Among h (granules t) → Among y h.entries → x.number ≡ y.number → (g ≡ h) × (x ≡ y) }
    ensures below { (t : Table) (g : AnyGranule) → IsValid t → Among g (granules t) → g.number < t.next }
{}

/// A law: a plan that is made of a tree leaves the entries as they are, wherever it puts them.
pub fn plans_keep_standings()
    ensures { (t : Table) (plan : AnyPlan) → IsMadeOf t plan → SameStandings (granules t) (granules (planned t plan)) }
{}
