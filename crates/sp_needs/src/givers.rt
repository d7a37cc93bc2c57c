// Out of which leaves entries move to others.
ghost use Rattle.std.specs.Prelude.{◌≡◌, ◌++◌, true, IsTrue, OnOk, IfOk};
ghost use Rattle.std.specs.List.{flat_map};
ghost use Rattle.sp_node.specs.Index.{has_number};
ghost use Rattle.sp_node.specs.Look.{look, entries_in};
ghost use Rattle.sp_needs.specs.Affected.{left_by, left_by_any, left_by_part};

use sp_node::{Entry, Part, Tree};
use std::alloc::{AllocError, Global};

// Adds the leaf in which the entry stands, where that is another.
fn push_left(tree: &Tree, leaf: u64, entry: &Entry, found: &mut Vec<u64>) -> Result<(), AllocError>
    ensures { OnOk result (found.new.items ≡ found.old.items ++ left_by tree.now.table.nodes leaf entry.now) }
{
    match tree.leaf_of(entry.number) {
        Some(old) if old != leaf => {
            found.push(old)?;
            Ok(())
        }
        _ => Ok(()),
    }
}

// The entries of the tree's leaf of this number, and none where there is no such leaf.
fn entries_before(tree: &Tree, number: u64) -> &[Entry]
    ensures { result.now ≡ entries_in (look tree.now.table.nodes number) }
{
    match tree.node(number) {
        Some(node) => node.entries(),
        None => &[],
    }
}

// Whether the entry of this number stands at that place.
fn stands_at(entries: &[Entry], at: usize, number: u64) -> bool
    ensures { IsTrue result → has_number entries.now number ≡ true }
{
    match entries.get(at) {
        Some(entry) => entry.number == number,
        None => false,
    }
}

// The same, of one whose leaf had these entries before: what stands in its place there has not moved.
fn push_moved(
    tree: &Tree,
    leaf: u64,
    before: &[Entry],
    at: usize,
    entry: &Entry,
    found: &mut Vec<u64>,
) -> Result<(), AllocError>
    requires { before.now ≡ entries_in (look tree.now.table.nodes leaf) }
    ensures { OnOk result (found.new.items ≡ found.old.items ++ left_by tree.now.table.nodes leaf entry.now) }
{
    let _valid = tree.root();
    if stands_at(before, at, entry.number) {
        return Ok(());
    }
    push_left(tree, leaf, entry, found)
}

// Adds that of each of the entries.
fn push_left_by(
    tree: &Tree,
    leaf: u64,
    entries: &[Entry],
    found: &mut Vec<u64>,
) -> Result<(), AllocError>
    ensures { OnOk result (found.new.items ≡ found.old.items ++ left_by_any tree.now.table.nodes leaf entries.now) }
{
    let before = entries_before(tree, leaf);
    for (i, entry) in entries.iter().enumerate() {
        push_moved(tree, leaf, before, i, entry, found)?;
    }
    Ok(())
}

/// The leaves of the tree out of which an entry moves to one of the parts, once for each such entry. Costs
/// the parts' entries.
pub(crate) fn givers(alloc: Global, tree: &Tree, parts: &[Part]) -> Result<Vec<u64>, AllocError>
    ensures { IfOk result (λ found. found.items ≡ flat_map (left_by_part tree.now.table.nodes) parts.now) }
{
    let mut found = Vec::new(alloc);
    for part in parts {
        push_left_by(tree, part.number(), part.entries(), &mut found)?;
    }
    Ok(found)
}
