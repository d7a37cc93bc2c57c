// What leaves gain, and the leaves that are locked anyway.
ghost use Rattle.std.specs.Prelude.{◌≡◌, ◌||◌, OnOk, IfOk};
ghost use Rattle.std.specs.List.{list_any};
ghost use Rattle.sp_rect.specs.Plane.{Point};
ghost use Rattle.sp_region.specs.Region.{covered};
ghost use Rattle.sp_node.specs.Plan.{IsMadeOf, planned};
ghost use Rattle.sp_granule.specs.Granules.{granules};
ghost use Rattle.sp_needs.specs.Affected.{leaf_has, gains};

use crate::area::{space_after, space_before};
use sp_node::{Plan, Tree};
use sp_rect::{Records2, Rect};
use sp_region::minus;
use std::alloc::{AllocError, Global};

// Adds the space of the tree's leaf of this number.
fn push_leaf(tree: &Tree, number: u64, rects: &mut Records2) -> Result<(), AllocError>
    ensures { OnOk result ((p : Point) → covered rects.new p ≡ (covered rects.old p || leaf_has (granules tree.now.table) p number)) }
{
    match space_before(tree, number) {
        Some(space) => rects.push(space),
        None => Ok(()),
    }
}

/// The spaces of those of the numbers that are leaves of the tree. Costs the leaves' entries.
pub(crate) fn leaves(alloc: Global, tree: &Tree, numbers: &[u64]) -> Result<Records2, AllocError>
    ensures { IfOk result (λ rects. (p : Point) → covered rects p ≡ list_any (leaf_has (granules tree.now.table) p) numbers.now) }
{
    let mut rects = Records2::new(alloc);
    for number in numbers {
        push_leaf(tree, *number, &mut rects)?;
    }
    Ok(rects)
}

// Adds the rectangles.
fn push_all(rects: &mut Records2, more: &[Rect]) -> Result<(), AllocError>
    ensures { OnOk result ((p : Point) → covered rects.new p ≡ (covered rects.old p || covered more.now p)) }
{
    for rect in more {
        rects.push(*rect)?;
    }
    Ok(())
}

// Adds the points that the leaf of this number has after the change and not before.
fn push_gain(
    alloc: Global,
    tree: &Tree,
    plan: &Plan,
    number: u64,
    rects: &mut Records2,
) -> Result<(), AllocError>
    requires { IsMadeOf tree.now.table plan.now }
    ensures { OnOk result ((p : Point) → covered rects.new p ≡ (covered rects.old p || gains (granules tree.now.table) (granules (planned tree.now.table plan.now)) p number)) }
{
    let Some(space) = space_after(tree, plan, number) else {
        return Ok(());
    };
    let mut old = Records2::new(alloc);
    push_leaf(tree, number, &mut old)?;
    let region = minus(alloc, &space, &old)?;
    push_all(rects, region.rects())
}

/// The points that the leaves of these numbers gain, as rectangles. Costs the parts for each number, the
/// leaves' entries, and four rectangles a leaf at most.
pub(crate) fn gained(
    alloc: Global,
    tree: &Tree,
    plan: &Plan,
    numbers: &[u64],
) -> Result<Records2, AllocError>
    requires { IsMadeOf tree.now.table plan.now }
    ensures { IfOk result (λ rects. (p : Point) → covered rects p ≡ list_any (gains (granules tree.now.table) (granules (planned tree.now.table plan.now)) p) numbers.now) }
{
    let mut rects = Records2::new(alloc);
    for number in numbers {
        push_gain(alloc, tree, plan, *number, &mut rects)?;
    }
    Ok(rects)
}
