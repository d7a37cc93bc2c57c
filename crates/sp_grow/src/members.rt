// The members of a node as lists.
ghost use Rattle.std.specs.Prelude.{◌≡◌, ◌<◌, ◌∷◌, ◌++◌, [], IfOk, OnOk, Some, length, map};
ghost use Rattle.sp_rect.specs.Inside.{bound_of};
ghost use Rattle.sp_grow.specs.Members.{pick, rects_in, pick_node, node_with, Belongs};

use crate::member::Member;
use sp_list::{Duplicate, Sequence};
use sp_node::{Child, Entry, Node};
use sp_rect::{Numbers, Rect};
use std::alloc::{AllocError, Global};

// Adds the entries' rectangles.
fn push_entries(rects: &mut Vec<Rect>, entries: &[Entry]) -> Result<(), AllocError>
    ensures { OnOk result (rects.new.items ≡ rects.old.items ++ map (λ e. e.rect) entries.now) }
{
    for entry in entries {
        rects.push(entry.rect)?;
    }
    Ok(())
}

// Adds the children's rectangles.
fn push_children(rects: &mut Vec<Rect>, children: &[Child]) -> Result<(), AllocError>
    ensures { OnOk result (rects.new.items ≡ rects.old.items ++ map (λ c. c.rect) children.now) }
{
    for child in children {
        rects.push(child.rect)?;
    }
    Ok(())
}

/// How many members the node has.
pub(crate) fn count_members(node: &Node) -> usize
    ensures { result ≡ length (rects_in node.now) }
{
    match node {
        Node::Leaf(entries) => entries.len(),
        Node::Inner(children) => children.len(),
    }
}

/// The rectangles of the node's members.
pub(crate) fn rects_of(alloc: Global, node: &Node) -> Result<Vec<Rect>, AllocError>
    ensures { IfOk result (λ rects. rects.items ≡ rects_in node.now) }
{
    let mut rects = Vec::with_capacity(alloc, count_members(node))?;
    match node {
        Node::Leaf(entries) => push_entries(&mut rects, entries.as_slice())?,
        Node::Inner(children) => push_children(&mut rects, children.as_slice())?,
    }
    Ok(rects)
}

// The smallest rectangle that encloses all entries.
fn bound_of_entries(entries: &[Entry]) -> Rect
    requires { 0 < length entries.now }
    ensures { bound_of (map (λ e. e.rect) entries.now) ≡ Some result }
{
    let mut bound = entries[0].rect;
    for i in 1..entries.len() {
        bound = bound.bound(&entries[i].rect);
    }
    bound
}

/// The smallest rectangle that encloses all children.
pub(crate) fn bound_of_children(children: &[Child]) -> Rect
    requires { 0 < length children.now }
    ensures { bound_of (map (λ c. c.rect) children.now) ≡ Some result }
{
    let mut bound = children[0].rect;
    for i in 1..children.len() {
        bound = bound.bound(&children[i].rect);
    }
    bound
}

/// The smallest rectangle that encloses the node's members.
pub(crate) fn bound_of_members(node: &Node) -> Rect
    requires { 0 < length (rects_in node.now) }
    ensures { bound_of (rects_in node.now) ≡ Some result }
{
    match node {
        Node::Leaf(entries) => bound_of_entries(entries.as_slice()),
        Node::Inner(children) => bound_of_children(children.as_slice()),
    }
}

/// The smallest rectangle that encloses the node's members. Takes no memory. Costs the members.
pub fn bound_of_node(_alloc: Global, node: &Node) -> Result<Rect, AllocError>
    requires { 0 < length (rects_in node.now) }
    ensures { IfOk result (λ rect. bound_of (rects_in node.now) ≡ Some rect) }
{
    Ok(bound_of_members(node))
}

/// Copies of the members at these positions.
pub(crate) fn pick<T: Duplicate>(
    alloc: Global,
    members: &[T],
    positions: &[u64],
) -> Result<Sequence<T>, AllocError>
    ensures { IfOk result (λ picked. picked ≡ pick members.now positions.now) }
{
    let mut picked = Vec::with_capacity(alloc, positions.len())?;
    for position in positions {
        if let Some(member) = members.get(*position as usize) {
            picked.push(member.copy(alloc)?)?;
        }
    }
    Ok(Sequence::from_vec(picked))
}

/// A node with copies of the members at these positions.
pub(crate) fn pick_node(alloc: Global, node: &Node, positions: &Numbers) -> Result<Node, AllocError>
    ensures { IfOk result (λ picked. picked ≡ pick_node node.now positions.now) }
{
    let positions = positions.as_slice();
    match node {
        Node::Leaf(entries) => Ok(Node::Leaf(pick(alloc, entries.as_slice(), positions)?)),
        Node::Inner(children) => Ok(Node::Inner(pick(alloc, children.as_slice(), positions)?)),
    }
}

// Copies of the members, with room for one more.
fn with_room<T: Duplicate>(alloc: Global, members: &[T]) -> Result<Vec<T>, AllocError>
    ensures { IfOk result (λ copied. copied.items ≡ members.now) }
{
    let mut copied = Vec::with_capacity(alloc, members.len().saturating_add(1))?;
    for member in members {
        copied.push(member.copy(alloc)?)?;
    }
    Ok(copied)
}

/// A copy of the node with the member at its end.
pub(crate) fn with_member(alloc: Global, node: &Node, member: &Member) -> Result<Node, AllocError>
    requires { Belongs node.now member.now }
    ensures { IfOk result (λ changed. changed ≡ node_with node.now member.now) }
{
    match (node, member) {
        (Node::Leaf(entries), Member::Entry(entry)) => {
            let mut items = with_room(alloc, entries.as_slice())?;
            items.push(entry.copy(alloc)?)?;
            Ok(Node::Leaf(Sequence::from_vec(items)))
        }
        (Node::Inner(children), Member::Child(child)) => {
            let mut items = with_room(alloc, children.as_slice())?;
            items.push(*child)?;
            Ok(Node::Inner(Sequence::from_vec(items)))
        }
        _ => unreachable!(),
    }
}
