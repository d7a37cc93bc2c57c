// The areas of granules, before and after a change of the tree.
ghost use Rattle.std.specs.Prelude.{◌≡◌, map, IfOk, Bool, nat_eq};
ghost use Rattle.std.specs.Option.{option_copied};
ghost use Rattle.sp_rect.specs.Inside.{bound_of};
ghost use Rattle.sp_node.specs.Look.{look};
ghost use Rattle.sp_node.specs.Plan.{IsMadeOf, planned, with_parts};
ghost use Rattle.sp_node.specs.Table.{IsValid};
ghost use Rattle.sp_granule.specs.Granules.{granules, member_rects};
ghost use Rattle.sp_needs.specs.Areas.{area_at, node_area, holes_in, space_in, leaf_space_in, leaf_space_at, first_part};

use sp_node::{Child, Entry, Node, Part, Plan, Tree};
use sp_rect::{Records2, Rect, WHOLE};
use std::alloc::{AllocError, Global};

/// The points of a granule: those of its node's space that its holes leave. A leaf has no holes.
#[derive(Drop)]
pub(crate) struct Area {
    pub space: Rect,
    pub holes: Records2,
}

// The bound of the entries' rectangles, where there are entries.
fn bound_of_entries(entries: &[Entry]) -> Option<Rect>
    ensures { result ≡ bound_of (map (λ e. e.rect) entries.now) }
{
    let (first, rest) = entries.split_first()?;
    let mut bound = first.rect;
    'bounding: for entry in rest {
        bound = bound.bound(&entry.rect);
    }
    Some(bound)
}

// The bound of the children's rectangles, where there are children.
fn bound_of_children(children: &[Child]) -> Option<Rect>
    ensures { result ≡ bound_of (map (λ c. c.rect) children.now) }
{
    let (first, rest) = children.split_first()?;
    let mut bound = first.rect;
    'bounding: for child in rest {
        bound = bound.bound(&child.rect);
    }
    Some(bound)
}

// The bound of the members' rectangles, where there are members.
fn bound_of_members(node: &Node) -> Option<Rect>
    ensures { result ≡ bound_of (member_rects node.now) }
{
    match node {
        Node::Leaf(entries) => bound_of_entries(entries.as_slice()),
        Node::Inner(children) => bound_of_children(children.as_slice()),
    }
}

// The space of a node: all of space for the root, else the bound of its members.
fn space_of_node(node: &Node, is_root: bool) -> Option<Rect>
    ensures { result ≡ space_in is_root node.now }
{
    if is_root {
        return Some(WHOLE);
    }
    bound_of_members(node)
}

// The children's rectangles.
fn rects_of(alloc: Global, children: &[Child]) -> Result<Records2, AllocError>
    ensures { IfOk result (λ rects. rects ≡ map (λ c. c.rect) children.now) }
{
    let mut rects = Vec::with_capacity(alloc, children.len())?;
    'rects: for child in children {
        rects.push(child.rect)?;
    }
    Ok(Records2::from_vec(rects))
}

// The rectangles that an inner node leaves to its children.
fn holes_of(alloc: Global, node: &Node) -> Result<Records2, AllocError>
    ensures { IfOk result (λ holes. holes ≡ holes_in node.now) }
{
    match node {
        Node::Leaf(_) => Ok(Records2::new(alloc)),
        Node::Inner(children) => rects_of(alloc, children.as_slice()),
    }
}

// The area of a node's granule.
fn area_of_node(alloc: Global, node: &Node, is_root: bool) -> Result<Option<Area>, AllocError>
    ensures { IfOk result (λ area. area ≡ node_area is_root node.now) }
{
    let Some(space) = space_of_node(node, is_root) else {
        return Ok(None);
    };
    let holes = holes_of(alloc, node)?;
    Ok(Some(Area { space, holes }))
}

/// The area of the tree's granule of this number, or None exactly where there is none. Costs the node's
/// members.
pub(crate) fn before(alloc: Global, tree: &Tree, number: u64) -> Result<Option<Area>, AllocError>
    ensures valid { IsValid tree.now.table }
    ensures area { IfOk result (λ area. area ≡ area_at (granules tree.now.table) number) }
{
    match tree.node(number) {
        Some(node) => area_of_node(alloc, node, number == tree.root()),
        None => Ok(None),
    }
}

// The space of a leaf, and None of an inner node.
fn space_of_leaf(node: &Node, is_root: bool) -> Option<Rect>
    ensures { result ≡ leaf_space_in is_root node.now }
{
    match node {
        Node::Leaf(_) => space_of_node(node, is_root),
        Node::Inner(_) => None,
    }
}

/// The space of the tree's leaf of this number, or None exactly where there is none. Takes no memory, and
/// costs the leaf's entries.
pub(crate) fn space_before(tree: &Tree, number: u64) -> Option<Rect>
    ensures valid { IsValid tree.now.table }
    ensures space { result ≡ leaf_space_at (granules tree.now.table) number }
{
    let is_root = number == tree.root();
    space_of_leaf(tree.node(number)?, is_root)
}

// The first part that names this number.
fn part_of(parts: &[Part], number: u64) -> Option<&Part>
    ensures { option_copied result ≡ first_part number parts.now }
{
    for part in parts {
        if part.number() == number {
            return Some(part);
        }
    }
    None
}

// The node of this number after the change.
fn node_after<'a>(tree: &'a Tree, plan: &'a Plan, number: u64) -> Option<&'a Node>
    ensures { option_copied result ≡ look (with_parts tree.now.table.nodes plan.now.parts) number }
{
    match part_of(plan.parts.as_slice(), number) {
        Some(Part::Now(_, node)) => Some(node),
        Some(Part::Gone(_)) => None,
        None => tree.node(number),
    }
}

/// The same of the tree after the change. Costs the parts and the node's members.
pub(crate) fn after(
    alloc: Global,
    tree: &Tree,
    plan: &Plan,
    number: u64,
) -> Result<Option<Area>, AllocError>
    requires { IsMadeOf tree.now.table plan.now }
    ensures { IfOk result (λ area. area ≡ area_at (granules (planned tree.now.table plan.now)) number) }
{
    match node_after(tree, plan, number) {
        Some(node) => area_of_node(alloc, node, number == plan.root),
        None => Ok(None),
    }
}

/// The space of the leaf of this number after the change, or None exactly where there is none. Takes no
/// memory, and costs the parts and the leaf's entries.
pub(crate) fn space_after(tree: &Tree, plan: &Plan, number: u64) -> Option<Rect>
    requires { IsMadeOf tree.now.table plan.now }
    ensures { result ≡ leaf_space_at (granules (planned tree.now.table plan.now)) number }
{
    space_of_leaf(node_after(tree, plan, number)?, number == plan.root)
}
