// The locks that a put wants which adds an entry.
ghost use Rattle.std.specs.Prelude.{◌≡◌, ◌↔◌, ◌⊎◌, ◌++◌, ℕ, map, is_some, true, IfOk, OnOk};
ghost use Rattle.std.specs.List.{filter, list_any};
ghost use Rattle.sp_locks.specs.declared.row.Duration.TheVariants.{Commit};
ghost use Rattle.sp_node.specs.Among.{Among};
ghost use Rattle.sp_node.specs.Look.{look};
ghost use Rattle.sp_node.specs.Plan.{IsMadeOf, planned, number_of};
ghost use Rattle.sp_granule.specs.Granules.{granules, IsMeeting};
ghost use Rattle.sp_protection.specs.Guarding.{AreSame};
ghost use Rattle.sp_protection.specs.Needs.{AreNeedsOf, PutWant};
ghost use Rattle.sp_ops.specs.Changes.{is_new, is_entered, IsSearched};
ghost use Rattle.sp_ops.specs.Wanted.{AreWants};

use crate::areas::keeps_granules;
use crate::staying::push_granules;
use crate::wants::{Want, joined};
use sp_granule::granules_meeting_in;
use sp_locks::{Duration, Mode, Needs};
use sp_node::{Entry, Overlay, Part, Plan, Tree};
use sp_rect::{Records2, Rect};
use std::alloc::{AllocError, Global};

// Whether the tree has the number.
fn has_node(tree: &Tree, number: u64) -> bool
    ensures { result ≡ is_some (look tree.now.table.nodes number) }
{
    match tree.node(number) {
        Some(_) => true,
        None => false,
    }
}

// Whether the tree lacks the entry.
fn is_new(tree: &Tree, entry: &Entry) -> bool
    ensures { result ≡ is_new tree.now.table.nodes entry.now }
{
    match tree.leaf_of(entry.number) {
        Some(_) => false,
        None => true,
    }
}

// Whether the tree lacks one of the entries, of which a new one stands last where the leaf is not split.
fn has_new(tree: &Tree, entries: &[Entry]) -> bool
    ensures { result ≡ list_any (is_new tree.now.table.nodes) entries.now }
{
    'back: for i in (0..entries.len()).rev() {
        if is_new(tree, &entries[i]) {
            return true;
        }
    }
    false
}

// Whether the part changes a leaf of the tree, which gets an entry that the tree lacks.
fn is_entered(tree: &Tree, part: &Part) -> bool
    ensures { result ≡ is_entered tree.now.table.nodes part.now }
{
    has_node(tree, part.number()) & has_new(tree, part.entries())
}

// The leaves of the tree that get an entry which the tree lacks.
fn entered(alloc: Global, tree: &Tree, parts: &[Part]) -> Result<Vec<u64>, AllocError>
    ensures { IfOk result (λ found. found.items ≡ map number_of (filter (is_entered tree.now.table.nodes) parts.now)) }
{
    let mut found = Vec::new(alloc);
    for part in parts {
        if is_entered(tree, part) {
            found.push(part.number())?;
        }
    }
    Ok(found)
}

// Adds those of the numbers that the tree has.
fn push_old(tree: &Tree, numbers: &[u64], found: &mut Vec<u64>) -> Result<(), AllocError>
    ensures { OnOk result (found.new.items ≡ found.old.items ++ filter (λ n. is_some (look tree.now.table.nodes n)) numbers.now) }
{
    for number in numbers {
        if has_node(tree, *number) {
            found.push(*number)?;
        }
    }
    Ok(())
}

// Adds the granules of the changed tree that meet the rectangle and that the tree has too.
fn push_searched(
    alloc: Global,
    tree: &Tree,
    after: &Overlay,
    rect: &Rect,
    found: &mut Vec<u64>,
) -> Result<(), AllocError>
    ensures { OnOk result ((n : ℕ) → Among n found.new.items ↔ (Among n found.old.items ⊎ (IsMeeting (granules after.now) rect.now n × (is_some (look tree.now.table.nodes n) ≡ true)))) }
{
    let numbers = granules_meeting_in(alloc, after, rect)?;
    push_old(tree, numbers.as_slice(), found)?;
    Ok(())
}

// The granules of the changed tree that meet one of the rectangles and that the tree has too.
fn searched(
    alloc: Global,
    tree: &Tree,
    after: &Overlay,
    searches: &[Rect],
) -> Result<Vec<u64>, AllocError>
    ensures { IfOk result (λ found. (n : ℕ) → Among n found.items ↔ IsSearched tree.now.table.nodes (granules after.now) searches.now n) }
{
    let mut found = Vec::new(alloc);
    for rect in searches {
        push_searched(alloc, tree, after, rect, &mut found)?;
    }
    Ok(found)
}

// The same where some granule changes, and else none.
fn reshaped(
    alloc: Global,
    tree: &Tree,
    plan: &Plan,
    searches: &Records2,
) -> Result<Vec<u64>, AllocError>
    requires { IsMadeOf tree.now.table plan.now }
    ensures { IfOk result (λ found. (n : ℕ) → Among n found.items
        ↔ ((AreSame (granules tree.now.table) (granules (planned tree.now.table plan.now)) → ⊥) × IsSearched tree.now.table.nodes (granules (planned tree.now.table plan.now)) searches.now n)) }
{
    if searches.is_empty() {
        return Ok(Vec::new(alloc));
    }
    if keeps_granules(alloc, tree, plan)? {
        return Ok(Vec::new(alloc));
    }
    let after = Overlay::planned(tree, plan);
    let found = searched(alloc, tree, &after, searches.as_slice())?;
    Ok(found)
}

// What a put wants, by its plan.
fn put_wants(
    alloc: Global,
    tree: &Tree,
    plan: &Plan,
    searches: &Records2,
) -> Result<Vec<Want>, AllocError>
    requires { IsMadeOf tree.now.table plan.now }
    ensures { IfOk result (λ wants. AreWants (PutWant (granules tree.now.table) (granules (planned tree.now.table plan.now)) searches.now) wants.items) }
{
    let _valid = tree.root();
    let mut wants = Vec::new(alloc);
    let leaves = entered(alloc, tree, plan.parts.as_slice())?;
    push_granules(&mut wants, leaves.as_slice(), Mode::IX)?;
    let met = reshaped(alloc, tree, plan, searches)?;
    push_granules(&mut wants, met.as_slice(), Mode::S)?;
    Ok(wants)
}

/// The needs of a put by its plan, until the transaction ends.
pub(crate) fn put_needs(
    alloc: Global,
    tree: &Tree,
    plan: &Plan,
    searches: &Records2,
) -> Result<Needs, AllocError>
    requires { IsMadeOf tree.now.table plan.now }
    ensures { IfOk result (AreNeedsOf (PutWant (granules tree.now.table) (granules (planned tree.now.table plan.now)) searches.now) Commit) }
{
    let wants = put_wants(alloc, tree, plan, searches)?;
    joined(alloc, wants.as_slice(), Duration::Commit)
}
