// The way up from the leaf that an entry leaves.
ghost use Rattle.std.specs.Prelude.{◌≡◌, true, ◌<◌, ◌≤◌, ◌+◌, ◌^◌, ◌∷◌, ◌++◌, [], ℕ, IfOk, MatchOption, length, take, drop, slice_get, slice_index_or, Some};
ghost use Rattle.sp_node.specs.declared.node.Child.{Child as ChildOf};
ghost use Rattle.sp_node.specs.Table.{IsShape};
ghost use Rattle.sp_grow.specs.Members.{rects_in};
ghost use Rattle.sp_grow.specs.Below.{IsSpot, no_child};
ghost use Rattle.sp_node.specs.Index.{has_number};
ghost use Rattle.sp_condense.specs.Way.{LeadsTo, HasNone};
ghost use Rattle.sp_condense.specs.Taking.{size_of, IsHere, IsKeptAbove, IsDroppedAbove, IsAbove, IsTaken};

use crate::orphans::{Orphan, members_of};
use sp_grow::bound_of_node;
use sp_list::{Duplicate, Sequence};
use sp_node::{Child, Children, Entries, Entry, Node, Part, Parts, Shape, Tree, put_part};
use std::alloc::{AllocError, Global};

/// A node below which an entry was taken out: what it has then, the nodes below it that are changed or
/// dropped, and the members of the dropped ones, those of higher levels first.
#[derive(Drop)]
pub(crate) struct Rest {
    pub(crate) node: Node,
    pub(crate) parts: Parts,
    pub(crate) orphans: Vec<Orphan>,
}

// Puts copies of more members at the end.
fn extend<T: Duplicate>(
    alloc: Global,
    items: &mut Sequence<T>,
    more: &[T],
) -> Result<(), AllocError>
    ensures { IfOk result (λ done. items.new ≡ items.old ++ more.now) }
{
    for member in more {
        items.push(member.copy(alloc)?)?;
    }
    Ok(())
}

// The members without the one at this position.
fn without<T: Duplicate>(alloc: Global, members: &[T], at: usize) -> Result<Sequence<T>, AllocError>
    requires { at < length members.now }
    ensures { IfOk result (λ items. items ≡ take at members.now ++ drop (at + 1) members.now) }
{
    let mut items = Sequence::new(alloc);
    extend(alloc, &mut items, &members[..at])?;
    extend(alloc, &mut items, &members[at + 1..])?;
    Ok(items)
}

// The children with another in place of the one at this position.
fn with_child(
    alloc: Global,
    children: &[Child],
    at: usize,
    child: Child,
) -> Result<Children, AllocError>
    requires { at < length children.now }
    ensures { IfOk result (λ items. items ≡ take at children.now ++ child ∷ drop (at + 1) children.now) }
{
    let mut items = Children::new(alloc);
    extend(alloc, &mut items, &children[..at])?;
    items.push(child)?;
    extend(alloc, &mut items, &children[at + 1..])?;
    Ok(items)
}

// How many members a node has.
fn size(node: &Node) -> usize
    ensures { result ≡ size_of node.now }
{
    match node {
        Node::Leaf(entries) => entries.len(),
        Node::Inner(children) => children.len(),
    }
}

// The node above one that keeps its place: the rectangle is tightened.
fn keep(
    alloc: Global,
    children: &[Child],
    at: usize,
    number: u64,
    below: Rest,
) -> Result<Rest, AllocError>
    requires within { at < length children.now }
    requires some { 0 < length (rects_in below.node) }
    ensures { IfOk result (λ rest. (c : ChildOf) → c.node ≡ number → IsKeptAbove children.now at c below rest) }
{
    let rect = bound_of_node(alloc, &below.node)?;
    let items = with_child(alloc, children, at, Child { rect, node: number })?;
    let mut parts = below.parts;
    put_part(&mut parts, Part::Now(number, below.node))?;
    Ok(Rest {
        node: Node::Inner(items),
        parts,
        orphans: below.orphans,
    })
}

// The node above one that is dropped: its members are orphans.
fn drop_child(
    alloc: Global,
    children: &[Child],
    at: usize,
    number: u64,
    depth: usize,
    below: Rest,
) -> Result<Rest, AllocError>
    requires { at < length children.now }
    ensures { IfOk result (λ rest. (c : ChildOf) → c.node ≡ number → IsDroppedAbove children.now at c depth below rest) }
{
    let items = without(alloc, children, at)?;
    let mut orphans = members_of(alloc, &below.node, depth)?;
    let mut more = below.orphans;
    orphans.append(&mut more)?;
    let mut parts = below.parts;
    put_part(&mut parts, Part::Gone(number))?;
    Ok(Rest {
        node: Node::Inner(items),
        parts,
        orphans,
    })
}

// The node above the child at this position, which stands so many steps below the root.
fn above(
    alloc: Global,
    shape: Shape,
    children: &[Child],
    at: usize,
    depth: usize,
    below: Rest,
) -> Result<Rest, AllocError>
    requires shape { IsShape shape }
    requires within { at < length children.now }
    ensures { IfOk result (λ rest. IsAbove shape.min children.now at (slice_index_or children.now at no_child) depth below rest) }
{
    let number = children[at].node;
    if size(&below.node) < shape.min as usize {
        drop_child(alloc, children, at, number, depth, below)
    } else {
        keep(alloc, children, at, number, below)
    }
}

// The position of the entry of this number.
fn place_of(entries: &[Entry], number: u64) -> Option<usize>
    ensures { MatchOption result (HasNone entries.now number) (λ at. IsHere entries.now number at) }
{
    'entries: for (i, entry) in entries.iter().enumerate() {
        if entry.number == number {
            return Some(i);
        }
    }
    None
}

// A leaf without the entry of this number.
fn take_entry(alloc: Global, entries: &[Entry], entry: u64) -> Result<Entries, AllocError>
    requires { has_number entries.now entry ≡ true }
    ensures { IfOk result (λ items. (at : ℕ) × IsHere entries.now entry at × (items ≡ take at entries.now ++ drop (at + 1) entries.now)) }
{
    match place_of(entries, entry) {
        Some(at) => without(alloc, entries, at),
        None => unreachable!(),
    }
}

/// Takes the entry of this number out of the leaf to which the path leads from the node.
pub(crate) fn take_below(
    alloc: Global,
    tree: &Tree,
    number: u64,
    depth: usize,
    path: &[usize],
    entry: u64,
) -> Result<Rest, AllocError>
    requires { LeadsTo tree.now.table number path.now entry }
    ensures { IfOk result (λ rest. (level : ℕ) → IsSpot tree.now.table level number → depth + level < 2 ^ 63 → IsTaken tree.now.table entry level number depth rest) }
{
    match tree.node(number) {
        Some(Node::Leaf(entries)) => {
            let items = take_entry(alloc, entries.as_slice(), entry)?;
            Ok(Rest {
                node: Node::Leaf(items),
                parts: Parts::new(alloc),
                orphans: Vec::new(alloc),
            })
        }
        Some(Node::Inner(children)) => {
            let children = children.as_slice();
            let at = path[0];
            let child = children[at].node;
            let deeper = depth.saturating_add(1);
            let below = take_below(alloc, tree, child, deeper, &path[1..], entry)?;
            above(alloc, tree.shape(), children, at, deeper, below)
        }
        None => unreachable!(),
    }
}
