// Searching a tree.
ghost use Rattle.std.specs.Prelude.{◌≡◌, ◌++◌, OnOk, IfOk, map, reverse};
ghost use Rattle.std.specs.List.{filter};
ghost use Rattle.std.specs.List.Sorted.{IsPermutation, IsStrictlyIncreasing};
ghost use Rattle.sp_rect.specs.Plane.{meets};
ghost use Rattle.sp_node.specs.Table.{told, entries_meeting, nodes_meeting};

use crate::node::{Child, Entry, Node};
use crate::pages::Pages;
use sp_rect::{Numbers, Rect};
use std::alloc::{AllocError, Global};

// Adds the numbers of the entries that meet the rectangle.
fn push_entries(found: &mut Vec<u64>, entries: &[Entry], rect: &Rect) -> Result<(), AllocError>
    ensures { OnOk result (found.new.items
        ≡ found.old.items ++ map (λ e. e.number) (filter (λ e. meets e.rect rect.now) entries.now)) }
{
    for entry in entries {
        if entry.rect.meets(rect) {
            found.push(entry.number)?;
        }
    }
    Ok(())
}

// Adds the numbers of the children that meet the rectangle, the last one first.
fn push_children(pending: &mut Vec<u64>, children: &[Child], rect: &Rect) -> Result<(), AllocError>
    ensures { OnOk result (pending.new.items
        ≡ pending.old.items ++ reverse (map (λ c. c.node) (filter (λ c. meets c.rect rect.now) children.now))) }
{
    'children: for i in (0..children.len()).rev() {
        let child = &children[i];
        if child.rect.meets(rect) {
            pending.push(child.node)?;
        }
    }
    Ok(())
}

/// The numbers of the entries that meet the rectangle, ascending.
pub fn meeting<P: Pages>(alloc: Global, pages: &mut P, rect: &Rect) -> Result<Numbers, AllocError>
    ensures tree { P.tree pages.new ≡ P.tree pages.old }
    ensures found { IfOk result (λ numbers. IsPermutation (entries_meeting (P.tree pages.old) rect.now) numbers) }
    ensures ascending { IfOk result (λ numbers. IsStrictlyIncreasing numbers) }
    ensures looks { OnOk result (P.looks pages.new
        ≡ told (P.looks pages.old) (nodes_meeting (P.tree pages.old) rect.now)) }
{
    let mut found = Vec::new(alloc);
    let mut pending = Vec::new(alloc);
    let _left = rect.x1();
    pending.push(pages.root())?;
    while let Some(number) = pending.pop() {
        pages.go(number)?;
        match pages.here() {
            Some(Node::Leaf(entries)) => push_entries(&mut found, entries.as_slice(), rect)?,
            Some(Node::Inner(children)) => {
                push_children(&mut pending, children.as_slice(), rect)?
            }
            None => {}
        }
    }
    found.sort()?;
    Ok(Numbers::from_vec(found))
}
