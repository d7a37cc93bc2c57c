// What an insertion leaves of a node, and the changes that it has made so far.
ghost use Rattle.std.specs.Prelude.{◌≡◌, ◌<◌, ◌≤◌, ◌+◌, ◌^◌, [], ◌∷◌, ◌++◌, IsTrue, ◌↔◌, IfOk, Some, length, take, drop};
ghost use Rattle.sp_rect.specs.Inside.{bound_of};
ghost use Rattle.sp_node.specs.Table.{IsShape};
ghost use Rattle.sp_node.specs.Plan.{put_part};
ghost use Rattle.sp_grow.specs.Members.{rects_in, pick_node, put_left};
ghost use Rattle.sp_grow.specs.Below.{IsSettled};
ghost use Rattle.sp_grow.specs.declared.left.Left.TheVariants.{One};

use crate::members::{bound_of_members, count_members, pick, pick_node, rects_of};
use sp_node::{Child, Children, Node, Part, Parts, Shape, put_part};
use sp_rect::Numbers;
use sp_split::quadratic;
use std::alloc::{AllocError, Global};

/// What is left of a node: one node, or two after a split.
#[derive(Clone, Copy, Drop)]
pub(crate) enum Left {
    One(Child),
    Two(Child, Child),
}

/// The changed nodes so far, and the next unused node number.
#[derive(Drop)]
pub(crate) struct Draft {
    pub(crate) parts: Parts,
    pub(crate) next: u64,
}

/// An insertion as far as one node: what is left of the node, and the changes.
#[derive(Drop)]
pub(crate) struct Step {
    pub(crate) left: Left,
    pub(crate) draft: Draft,
}

impl Left {
    /// Whether the child is left as it was.
    pub(crate) fn is(&self, child: &Child) -> bool
        ensures { IsTrue result ↔ (self.now ≡ One child.now) }
    {
        match self {
            Left::One(a) => a == child,
            Left::Two(_, _) => false,
        }
    }
}

// Puts more children at the end.
fn extend(items: &mut Vec<Child>, more: &[Child]) -> Result<(), AllocError>
    ensures { IfOk result (λ done. items.new.items ≡ items.old.items ++ more.now) }
{
    for child in more {
        items.push(*child)?;
    }
    Ok(())
}

/// The children with what is left of the one at this position in its place; the second node of a split goes
/// to the end.
pub(crate) fn with_left(
    alloc: Global,
    children: &[Child],
    at: usize,
    left: Left,
) -> Result<Children, AllocError>
    requires { at < length children.now }
    ensures { IfOk result (λ items. items ≡ put_left (take at children.now) left (drop (at + 1) children.now)) }
{
    let mut items = Vec::with_capacity(alloc, children.len().saturating_add(1))?;
    extend(&mut items, &children[..at])?;
    let back = &children[at + 1..];
    match left {
        Left::One(a) => {
            items.push(a)?;
            extend(&mut items, back)?;
        }
        Left::Two(a, b) => {
            items.push(a)?;
            extend(&mut items, back)?;
            items.push(b)?;
        }
    }
    Ok(Children::from_vec(items))
}

// A node that is not too large, under its number.
fn keep(shape: Shape, mut draft: Draft, number: u64, node: Node) -> Result<Step, AllocError>
    requires some { 0 < length (rects_in node) }
    requires fits { length (rects_in node) ≤ shape.max }
    ensures { IfOk result (λ step. IsSettled shape draft number node step.left step.draft) }
{
    let left = Left::One(Child {
        rect: bound_of_members(&node),
        node: number,
    });
    put_part(&mut draft.parts, Part::Now(number, node))?;
    Ok(Step { left, draft })
}

// One group of a node's members, under a number.
fn put_group(
    alloc: Global,
    parts: &mut Parts,
    number: u64,
    node: &Node,
    group: &Numbers,
) -> Result<Child, AllocError>
    requires { 0 < length (rects_in (pick_node node.now group.now)) }
    ensures parts { IfOk result (λ child. parts.new ≡ put_part parts.old (Part.Now number (pick_node node.now group.now))) }
    ensures node { IfOk result (λ child. child.node ≡ number) }
    ensures rect { IfOk result (λ child. bound_of (rects_in (pick_node node.now group.now)) ≡ Some child.rect) }
{
    let part = pick_node(alloc, node, group)?;
    let rect = bound_of_members(&part);
    put_part(parts, Part::Now(number, part))?;
    Ok(Child { rect, node: number })
}

// The two groups of a node that is too large, under its number and the next.
fn split(
    alloc: Global,
    shape: Shape,
    mut draft: Draft,
    number: u64,
    node: &Node,
) -> Result<Step, AllocError>
    requires shape { IsShape shape }
    requires many { shape.max < length (rects_in node.now) }
    requires numbers { draft.next + 1 < 2 ^ 64 }
    ensures { IfOk result (λ step. IsSettled shape draft number node.now step.left step.draft) }
{
    let rects = rects_of(alloc, node)?;
    let groups = quadratic(alloc, &rects, shape.min as usize)?;
    let other = draft.next;
    draft.next = other + 1;
    let first = put_group(alloc, &mut draft.parts, number, node, &groups.first)?;
    let second = put_group(alloc, &mut draft.parts, other, node, &groups.second)?;
    Ok(Step {
        left: Left::Two(first, second),
        draft,
    })
}

/// The node under its number, split in two if it has too many members.
pub(crate) fn settle(
    alloc: Global,
    shape: Shape,
    draft: Draft,
    number: u64,
    node: Node,
) -> Result<Step, AllocError>
    requires shape { IsShape shape }
    requires some { 0 < length (rects_in node) }
    requires numbers { draft.next + 1 < 2 ^ 64 }
    ensures { IfOk result (λ step. IsSettled shape draft number node step.left step.draft) }
{
    if count_members(&node) <= shape.max as usize {
        keep(shape, draft, number, node)
    } else {
        split(alloc, shape, draft, number, &node)
    }
}
