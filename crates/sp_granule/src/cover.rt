// The law that granules cover space.
ghost use Rattle.std.specs.Prelude.{IsTrue};
ghost use Rattle.sp_rect.specs.Plane.{Point, holds, whole};
ghost use Rattle.sp_node.specs.Table.{Table};
ghost use Rattle.sp_granule.specs.Granules.{granules, HasPoint};
ghost use Rattle.sp_granule.specs.Descent.{granule_of};

/// A law: each point of space lies in a granule of each tree, and the descent from the root comes to one.
/// The tree need not be valid. It does nothing when it runs.
pub fn granules_cover_space()
    ensures { (t : Table) → (p : Point) → IsTrue (holds whole p) → HasPoint (granules t) (granule_of t p) p }
{}
