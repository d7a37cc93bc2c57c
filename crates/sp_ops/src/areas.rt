// The areas of granules, and whether a change of the tree leaves them as they are.
ghost use Rattle.std.specs.Prelude.{◌≡◌, ◌↔◌, ◌⊎◌, ℕ, map, true, false, is_none, IfOk, IsTrue, MatchBool};
ghost use Rattle.sp_node.specs.Among.{Among};
ghost use Rattle.sp_node.specs.Look.{look};
ghost use Rattle.sp_node.specs.Plan.{IsMadeOf, planned, number_of};
ghost use Rattle.sp_node.specs.Table.{IsValid};
ghost use Rattle.sp_granule.specs.Granules.{granules, numbered};
ghost use Rattle.sp_protection.specs.Guarding.{AreSame};
ghost use Rattle.sp_ops.specs.Changes.{area_at, holes_in, is_leaf_node, AreAlike, IsKept};

use sp_granule::space_in;
use sp_node::{Child, Node, Overlay, Part, Plan, Tree};
use sp_rect::{Records2, Rect};
use sp_region::exceeds;
use std::alloc::{AllocError, Global};

/// The points of a granule: those of its node's space that its holes leave. A leaf has no holes.
#[derive(Drop)]
struct Area {
    is_leaf: bool,
    space: Rect,
    holes: Records2,
}

// The children's rectangles.
fn rects_of(alloc: Global, children: &[Child]) -> Result<Records2, AllocError>
    ensures { IfOk result (λ rects. rects ≡ map (λ c. c.rect) children.now) }
{
    let mut rects = Vec::with_capacity(alloc, children.len())?;
    'rects: for child in children {
        rects.push(child.rect)?;
    }
    Ok(Records2::from_vec(rects))
}

// The rectangles that a node leaves to its children.
fn holes_of(alloc: Global, node: &Node) -> Result<Records2, AllocError>
    ensures { IfOk result (λ holes. holes ≡ holes_in node.now) }
{
    match node {
        Node::Leaf(_) => Ok(Records2::new(alloc)),
        Node::Inner(children) => rects_of(alloc, children.as_slice()),
    }
}

fn is_leaf(node: &Node) -> bool
    ensures { result ≡ is_leaf_node node.now }
{
    match node {
        Node::Leaf(_) => true,
        Node::Inner(_) => false,
    }
}

// The area of the granule of this number, where the tree has it.
fn area_of(alloc: Global, tree: &Overlay, number: u64) -> Result<Option<Area>, AllocError>
    ensures { IfOk result (λ area. area ≡ area_at (granules tree.now) number) }
{
    let Some(node) = tree.node(number) else {
        return Ok(None);
    };
    let Some(space) = space_in(tree, number) else {
        return Ok(None);
    };
    let holes = holes_of(alloc, node)?;
    Ok(Some(Area {
        is_leaf: is_leaf(node),
        space,
        holes,
    }))
}

// Whether both are of one kind and have the same points.
fn are_alike(alloc: Global, a: &Area, b: &Area) -> Result<bool, AllocError>
    ensures { IfOk result (λ alike. IsTrue alike ↔ AreAlike a.now b.now) }
{
    if a.is_leaf != b.is_leaf {
        return Ok(false);
    }
    if exceeds(alloc, &a.space, &a.holes, &b.space, &b.holes)? {
        return Ok(false);
    }
    let back = exceeds(alloc, &b.space, &b.holes, &a.space, &a.holes)?;
    Ok(!back)
}

// Whether the tree lacks the number.
fn is_absent(tree: &Overlay, number: u64) -> bool
    ensures { result ≡ is_none (look tree.now.nodes number) }
{
    match tree.node(number) {
        Some(_) => false,
        None => true,
    }
}

// Whether the granule of this number is the same in both trees, or is in neither.
fn is_kept(
    alloc: Global,
    before: &Overlay,
    after: &Overlay,
    number: u64,
) -> Result<bool, AllocError>
    ensures { IfOk result (λ kept. IsTrue kept ↔ IsKept (granules before.now) (granules after.now) number) }
{
    let _old_root = before.root();
    let _new_root = after.root();
    let Some(old) = area_of(alloc, before, number)? else {
        return Ok(is_absent(after, number));
    };
    let Some(new) = area_of(alloc, after, number)? else {
        return Ok(false);
    };
    are_alike(alloc, &old, &new)
}

// The numbers that the parts name.
fn numbers_of(alloc: Global, parts: &[Part]) -> Result<Vec<u64>, AllocError>
    ensures { IfOk result (λ numbers. numbers.items ≡ map number_of parts.now) }
{
    let mut numbers = Vec::new(alloc);
    for part in parts {
        numbers.push(part.number())?;
    }
    Ok(numbers)
}

// Numbers among which are all whose granules the change makes, changes or drops: those of the parts, and
// the old and the new root where the root is another.
fn differing(alloc: Global, tree: &Tree, plan: &Plan) -> Result<Vec<u64>, AllocError>
    requires { IsMadeOf tree.now.table plan.now }
    ensures valid { IsValid tree.now.table }
    ensures differ { IfOk result (λ numbers. (n : ℕ) → (numbered (granules (planned tree.now.table plan.now)) n ≡ numbered (granules tree.now.table) n) ⊎ Among n numbers.items) }
{
    let root = tree.root();
    let mut numbers = numbers_of(alloc, plan.parts.as_slice())?;
    if root != plan.root {
        numbers.push(root)?;
        numbers.push(plan.root)?;
    }
    Ok(numbers)
}

// Whether the granule of each of the numbers is kept.
fn are_kept(
    alloc: Global,
    before: &Overlay,
    after: &Overlay,
    numbers: &[u64],
) -> Result<bool, AllocError>
    ensures all { IfOk result (λ kept. kept ≡ true → (n : ℕ) → Among n numbers.now → IsKept (granules before.now) (granules after.now) n) }
    ensures one { IfOk result (λ kept. kept ≡ false → (n : ℕ) × (IsKept (granules before.now) (granules after.now) n → ⊥)) }
{
    for number in numbers {
        if !is_kept(alloc, before, after, *number)? {
            return Ok(false);
        }
    }
    Ok(true)
}

/// Whether the change leaves each granule as it is, and makes and drops none. Costs the members of the
/// nodes that the plan names, and for each of these what `exceeds` costs.
pub(crate) fn keeps_granules(alloc: Global, tree: &Tree, plan: &Plan) -> Result<bool, AllocError>
    requires { IsMadeOf tree.now.table plan.now }
    ensures { IfOk result (λ keeps. MatchBool keeps (AreSame (granules tree.now.table) (granules (planned tree.now.table plan.now))) (AreSame (granules tree.now.table) (granules (planned tree.now.table plan.now)) → ⊥)) }
{
    let numbers = differing(alloc, tree, plan)?;
    let before = Overlay::of(tree);
    let after = Overlay::planned(tree, plan);
    let keeps = are_kept(alloc, &before, &after, numbers.as_slice())?;
    Ok(keeps)
}
