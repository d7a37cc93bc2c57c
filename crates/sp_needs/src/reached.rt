// The granules that gained points lie in.
ghost use Rattle.std.specs.Prelude.{◌↔◌, ◌⊎◌, ℕ, IsTrue, OnOk, IfOk};
ghost use Rattle.sp_node.specs.Among.{Among};
ghost use Rattle.sp_granule.specs.Granules.{granules};
ghost use Rattle.sp_needs.specs.Affected.{HasLeftOf, HasLeftOfAny, AreAdded};

use crate::area::before;
use sp_granule::granules_meeting;
use sp_node::Tree;
use sp_rect::{Records2, Rect};
use sp_region::overlaps;
use std::alloc::{AllocError, Global};

// Whether the granule of this number has a point of the rectangle that none of the sources has.
fn is_reached(
    alloc: Global,
    tree: &Tree,
    rect: &Rect,
    sources: &Records2,
    number: u64,
) -> Result<bool, AllocError>
    ensures { IfOk result (λ is. IsTrue is ↔ HasLeftOf (granules tree.now.table) sources.now rect.now number) }
{
    let Some(area) = before(alloc, tree, number)? else {
        return Ok(false);
    };
    overlaps(alloc, rect, sources, &area.space, &area.holes)
}

// Adds those of the numbers whose granules do.
fn push_those(
    alloc: Global,
    tree: &Tree,
    rect: &Rect,
    sources: &Records2,
    numbers: &[u64],
    found: &mut Vec<u64>,
) -> Result<(), AllocError>
    ensures { OnOk result (AreAdded (HasLeftOf (granules tree.now.table) sources.now rect.now) numbers.now found.old.items found.new.items) }
{
    for number in numbers {
        if is_reached(alloc, tree, rect, sources, *number)? {
            found.push(*number)?;
        }
    }
    Ok(())
}

// Adds all granules that have such a point.
fn push_reached(
    alloc: Global,
    tree: &Tree,
    rect: &Rect,
    sources: &Records2,
    found: &mut Vec<u64>,
) -> Result<(), AllocError>
    ensures { OnOk result ((n : ℕ) → Among n found.new.items ↔ (Among n found.old.items ⊎ HasLeftOf (granules tree.now.table) sources.now rect.now n)) }
{
    let meeting = granules_meeting(alloc, tree, rect)?;
    push_those(alloc, tree, rect, sources, meeting.as_slice(), found)
}

/// The numbers of the granules that have a point of one of the rectangles that none of the sources has. Goes
/// down the tree into what meets the rectangles.
pub(crate) fn reached(
    alloc: Global,
    tree: &Tree,
    rects: &[Rect],
    sources: &Records2,
) -> Result<Vec<u64>, AllocError>
    ensures { IfOk result (λ found. (n : ℕ) → Among n found.items ↔ HasLeftOfAny (granules tree.now.table) sources.now rects.now n) }
{
    let mut found = Vec::new(alloc);
    for rect in rects {
        push_reached(alloc, tree, rect, sources, &mut found)?;
    }
    Ok(found)
}
