// The granules that a rectangle meets.
ghost use Rattle.std.specs.Prelude.{◌≡◌, ◌↔◌, ℕ, ◌++◌, ◌∷◌, [], map, IsTrue, OnOk, IfOk};
ghost use Rattle.std.specs.List.Sorted.{IsStrictlyIncreasing};
ghost use Rattle.sp_node.specs.Among.{Among};
ghost use Rattle.sp_node.specs.Look.{look};
ghost use Rattle.sp_region.specs.Region.{LeavesAny};
ghost use Rattle.sp_granule.specs.Granules.{granules, IsMeeting};
ghost use Rattle.sp_granule.specs.Visit.{AreAdded, IsJudged, IsVisited};

use sp_node::{Child, Node, Overlay, Tree};
use sp_rect::{Numbers, Records2, Rect};
use sp_region::{common, leaves_any};
use std::alloc::{AllocError, Global};

/// A node that waits to be looked at, and the part of the rectangle that lies in its space.
#[derive(Clone, Copy)]
struct Waiting {
    node: u64,
    part: Rect,
}

// The children's rectangles.
fn rects_of(alloc: Global, children: &[Child]) -> Result<Records2, AllocError>
    ensures { IfOk result (λ rects. rects ≡ map (λ c. c.rect) children.now) }
{
    let mut rects = Vec::with_capacity(alloc, children.len())?;
    'rects: for child in children {
        rects.push(child.rect)?;
    }
    Ok(Records2::from_vec(rects))
}

// Whether one of the children has all of the part, so that they leave none of it.
fn is_covered(part: &Rect, children: &[Child]) -> bool
    ensures { IsTrue result → LeavesAny part.now (map (λ c. c.rect) children.now) → ⊥ }
{
    for child in children {
        if child.rect.encloses(part) {
            return true;
        }
    }
    false
}

// Adds the inner node's number where its children leave a point of the part.
fn judge(
    alloc: Global,
    waiting: &Waiting,
    children: &[Child],
    found: &mut Vec<u64>,
) -> Result<(), AllocError>
    ensures { OnOk result (IsJudged waiting.now.part (map (λ c. c.rect) children.now) waiting.now.node found.old.items found.new.items) }
{
    if is_covered(&waiting.part, children) {
        return Ok(());
    }
    let holes = rects_of(alloc, children)?;
    if leaves_any(alloc, &waiting.part, &holes)? {
        found.push(waiting.node)?;
    }
    Ok(())
}

// Adds the children that meet the rectangle, the last one first.
fn push_children(
    pending: &mut Vec<Waiting>,
    children: &[Child],
    rect: &Rect,
) -> Result<(), AllocError>
    ensures { OnOk result (AreAdded rect.now children.now pending.old.items pending.new.items) }
{
    'children: for i in (0..children.len()).rev() {
        let child = &children[i];
        if let Some(part) = common(&child.rect, rect) {
            pending.push(Waiting {
                node: child.node,
                part,
            })?;
        }
    }
    Ok(())
}

// Adds the leaf's number.
fn push_leaf(found: &mut Vec<u64>, leaf: u64) -> Result<(), AllocError>
    ensures { OnOk result (found.new.items ≡ found.old.items ++ leaf ∷ []) }
{
    found.push(leaf)?;
    Ok(())
}

// Looks at a node: a leaf's granule meets the rectangle where its space does.
fn visit(
    alloc: Global,
    overlay: &Overlay,
    rect: &Rect,
    waiting: &Waiting,
    found: &mut Vec<u64>,
    pending: &mut Vec<Waiting>,
) -> Result<(), AllocError>
    ensures { OnOk result (IsVisited (look overlay.now.nodes waiting.now.node) rect.now waiting.now found.old.items found.new.items pending.old.items pending.new.items) }
{
    match overlay.node(waiting.node) {
        Some(Node::Leaf(_)) => push_leaf(found, waiting.node),
        Some(Node::Inner(children)) => {
            judge(alloc, waiting, children.as_slice(), found)?;
            push_children(pending, children.as_slice(), rect)
        }
        None => Ok(()),
    }
}

/// The numbers of the granules that have a point of the rectangle, ascending: the leaves whose space meets
/// it, and the inner nodes whose children leave a point of what it has of their space. It costs the nodes
/// whose space meets the rectangle, and for each inner one of these what `leaves_any` costs.
pub fn granules_meeting_in(
    alloc: Global,
    overlay: &Overlay,
    rect: &Rect,
) -> Result<Numbers, AllocError>
    ensures exact { IfOk result (λ numbers. (n : ℕ) → Among n numbers ↔ IsMeeting (granules overlay.now) rect.now n) }
    ensures ascending { IfOk result (λ numbers. IsStrictlyIncreasing numbers) }
{
    let mut found = Vec::new(alloc);
    let mut pending = Vec::new(alloc);
    let _left = rect.x1();
    pending.push(Waiting {
        node: overlay.root(),
        part: *rect,
    })?;
    'looking: while let Some(waiting) = pending.pop() {
        visit(alloc, overlay, rect, &waiting, &mut found, &mut pending)?;
    }
    found.sort()?;
    Ok(Numbers::from_vec(found))
}

/// The same of a tree as it stands.
pub fn granules_meeting(alloc: Global, tree: &Tree, rect: &Rect) -> Result<Numbers, AllocError>
    ensures exact { IfOk result (λ numbers. (n : ℕ) → Among n numbers ↔ IsMeeting (granules tree.now.table) rect.now n) }
    ensures ascending { IfOk result (λ numbers. IsStrictlyIncreasing numbers) }
{
    granules_meeting_in(alloc, &Overlay::of(tree), rect)
}
