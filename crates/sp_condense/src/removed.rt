// Removal: the way down to the entry's leaf, the way up, and the orphans.
ghost use Rattle.std.specs.Prelude.{◌≡◌, ◌<◌, ◌+◌, ◌^◌, ◌++◌, ℕ, ◌∷◌, IfOk, OnOk, map};
ghost use Rattle.std.specs.Option.{IsSome};
ghost use Rattle.sp_node.specs.Index.{leaf_with};
ghost use Rattle.sp_node.specs.Plan.{IsMadeOf, planned};
ghost use Rattle.sp_node.specs.Table.{level_of, entries_of};
ghost use Rattle.std.specs.List.Sorted.{IsPermutation};
ghost use Rattle.sp_condense.specs.Removal.{IsRemoved, KeepsOthers};
ghost use Rattle.sp_condense.specs.Taking.{IsTaken};
ghost use Rattle.sp_condense.specs.Way.{LeadsTo};
ghost use Rattle.sp_condense.specs.Staging.{begun, IsKeptIf, IsSettled, IsOutcome};

use crate::collapse::collapse;
use crate::orphans::insert_all;
use crate::path::find;
use crate::rest::{Rest, take_below};
use crate::same::differs;
use sp_grow::Planned;
use sp_node::{Node, Part, Parts, Plan, Tree};
use std::alloc::{AllocError, Global};

// The way from the root to the entry's leaf.
fn path_to(alloc: Global, tree: &Tree, entry: u64) -> Result<Vec<usize>, AllocError>
    requires there { IsSome (leaf_with tree.now.table.nodes entry) }
    requires numbers { tree.now.table.next < 2 ^ 63 + 2 ^ 32 }
    ensures { IfOk result (λ path. LeadsTo tree.now.table tree.now.table.root path.items entry) }
{
    let _valid = tree.next();
    let leaf = tree.leaf_of(entry).unwrap();
    let found = tree.entry(entry).unwrap();
    match find(alloc, tree, tree.root(), leaf, &found.rect, 65)? {
        Some(path) => Ok(path),
        None => unreachable!(),
    }
}

// Takes the entry out, and the nodes that have too few members then.
fn take_out(alloc: Global, tree: &Tree, entry: u64) -> Result<Rest, AllocError>
    requires there { IsSome (leaf_with tree.now.table.nodes entry) }
    requires numbers { tree.now.table.next < 2 ^ 63 + 2 ^ 32 }
    ensures { IfOk result (λ rest. IsTaken tree.now.table entry (level_of tree.now.table) tree.now.table.root 0 rest) }
{
    let _valid = tree.next();
    let path = path_to(alloc, tree, entry)?;
    take_below(alloc, tree, tree.root(), 0, path.as_slice(), entry)
}

// The tree with these changes below the root, and the root.
fn begin<'a>(
    alloc: Global,
    tree: &'a Tree,
    parts: Parts,
    node: Node,
) -> Result<Planned<'a>, AllocError>
    ensures { IfOk result (λ changed. changed ≡ begun tree.now.table parts node) }
{
    let mut changed = Planned::new(alloc, tree);
    let root = tree.root();
    let next = tree.next();
    changed.take(Plan { parts, root, next })?;
    changed.put(Part::Now(root, node))?;
    Ok(changed)
}

// Puts the part in front where it differs from the tree.
fn keep_if(tree: &Tree, kept: &mut Parts, part: Part) -> Result<(), AllocError>
    ensures { OnOk result (IsKeptIf tree.now.table.nodes part kept.old kept.new) }
{
    if differs(tree, &part) {
        kept.insert(0, part)
    } else {
        Ok(())
    }
}

// Those of the parts that differ from the tree.
fn differing(alloc: Global, tree: &Tree, parts: Vec<Part>) -> Result<Parts, AllocError>
    ensures { IfOk result (λ kept. IsSettled tree.now.table.nodes parts.items kept) }
{
    let mut parts = parts;
    let mut kept = Parts::new(alloc);
    while let Some(part) = parts.pop() {
        keep_if(tree, &mut kept, part)?;
    }
    Ok(kept)
}

// The plan, of the nodes that differ.
fn settle(alloc: Global, tree: &Tree, changed: Planned<'_>) -> Result<Plan, AllocError>
    ensures { IfOk result (λ plan. IsOutcome tree.now.table.nodes changed.entry plan) }
{
    let root = changed.root();
    let next = changed.next();
    let parts = differing(alloc, tree, changed.into_parts())?;
    Ok(Plan { parts, root, next })
}

/// The removal of the entry of this number, as a plan: the nodes that it changes, makes or drops, the root,
/// and the next unused node number. `IsRemoved` is its definition, on nested trees.
///
/// The entry leaves its leaf. Going up, a node with fewer than `min` members that is not the root is dropped,
/// and its members are orphans; rectangles above are tightened. Orphans are inserted again at their own
/// level, from the highest level to the lowest, in the order in which they stood. Last, a root that is no
/// leaf and has one child is replaced by that child, as often as that holds.
///
/// The plan has exactly the nodes that differ, by ascending number. `KeepsOthers` says that its tree is valid,
/// has exactly the other entries, and at most 2^32 new node numbers. The one error is want of memory: each
/// rectangle on the way to the entry's leaf encloses the entry's, and so the way is always found. Costs the
/// inner nodes whose rectangles enclose the entry's, and for each orphan the members of the nodes on one path,
/// squared where a node is split.
pub fn remove(alloc: Global, tree: &Tree, entry: u64) -> Result<Plan, AllocError>
    requires there { IsSome (leaf_with tree.now.table.nodes entry) }
    requires numbers { tree.now.table.next < 2 ^ 63 + 2 ^ 32 }
    ensures made { IfOk result (λ plan. IsMadeOf tree.now.table plan) }
    ensures removed { IfOk result (λ plan. IsRemoved tree.now.table entry (planned tree.now.table plan)) }
    ensures keeps { IfOk result (λ plan. KeepsOthers tree.now.table entry (planned tree.now.table plan)) }
    ensures left { IfOk result (λ plan. IsPermutation (map (λ e. e.number) (entries_of tree.now.table)) (entry ∷ map (λ e. e.number) (entries_of (planned tree.now.table plan)))) }
{
    let _valid = tree.next();
    let rest = take_out(alloc, tree, entry)?;
    let mut changed = begin(alloc, tree, rest.parts, rest.node)?;
    insert_all(alloc, &mut changed, rest.orphans.as_slice())?;
    collapse(&mut changed)?;
    settle(alloc, tree, changed)
}
