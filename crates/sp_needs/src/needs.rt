// The short needs of a change.
ghost use Rattle.std.specs.Prelude.{◌≡◌, ◌↔◌, ◌++◌, ℕ, map, IfOk, OnOk};
ghost use Rattle.std.specs.Option.{option_to_list};
ghost use Rattle.std.specs.List.Sorted.{IsStrictlyIncreasing};
ghost use Rattle.sp_locks.specs.declared.row.Duration.TheVariants.{Short};
ghost use Rattle.sp_node.specs.Among.{Among};
ghost use Rattle.sp_node.specs.Plan.{IsMadeOf, planned};
ghost use Rattle.sp_granule.specs.Granules.{granules};
ghost use Rattle.sp_protection.specs.Needs.{ShortWant, AreNeedsOf};
ghost use Rattle.sp_needs.specs.Affected.{need_on, AreSourcesFor};

use crate::differing::differing;
use crate::gained::{gained, leaves};
use crate::givers::givers;
use crate::lost::lost;
use crate::reached::reached;
use sp_locks::{Duration, Mode, Name, Need, Needs};
use sp_node::{Plan, Tree};
use sp_rect::{Records2, Rect};
use std::alloc::{AllocError, Global};

// The numbers in order, each once.
fn in_order(numbers: Vec<u64>) -> Result<Vec<u64>, AllocError>
    ensures same { IfOk result (λ sorted. (n : ℕ) → Among n sorted.items ↔ Among n numbers.items) }
    ensures rising { IfOk result (λ sorted. IsStrictlyIncreasing sorted.items) }
{
    let mut numbers = numbers;
    numbers.sort()?;
    numbers.dedup();
    Ok(numbers)
}

// The need on a granule: SIX on a leaf that gives an entry away, and IX on any other.
fn need(givers: &[u64], number: u64) -> Need
    ensures { result ≡ need_on givers.now number }
{
    let mode = if givers.contains(&number) {
        Mode::SIX
    } else {
        Mode::IX
    };
    Need {
        name: Name::Granule(number),
        mode,
        duration: Duration::Short,
    }
}

// The needs on the granules of these numbers.
fn needs_on(alloc: Global, givers: &[u64], numbers: &[u64]) -> Result<Needs, AllocError>
    ensures { IfOk result (λ needs. needs ≡ map (need_on givers.now) numbers.now) }
{
    let mut needs = Vec::with_capacity(alloc, numbers.len())?;
    for number in numbers {
        needs.push(need(givers, *number))?;
    }
    Ok(Needs::from_vec(needs))
}

// All of the numbers.
fn joined(alloc: Global, a: &[u64], b: &[u64]) -> Result<Vec<u64>, AllocError>
    ensures { IfOk result (λ all. all.items ≡ a.now ++ b.now) }
{
    let mut all = Vec::new(alloc);
    all.extend_from_slice(a)?;
    all.extend_from_slice(b)?;
    Ok(all)
}

// The numbers and the one more, where there is one.
fn with_chosen(alloc: Global, numbers: &[u64], chosen: Option<u64>) -> Result<Vec<u64>, AllocError>
    ensures { IfOk result (λ all. all.items ≡ numbers.now ++ option_to_list chosen) }
{
    let mut all = Vec::new(alloc);
    all.extend_from_slice(numbers)?;
    if let Some(leaf) = chosen {
        all.push(leaf)?;
    }
    Ok(all)
}

// The spaces of the leaves that are locked anyway, where a leaf gains anything: they matter to nothing else.
fn sources(
    alloc: Global,
    tree: &Tree,
    parting: &[u64],
    chosen: Option<u64>,
    gains: &[Rect],
) -> Result<Records2, AllocError>
    ensures { IfOk result (λ rects. AreSourcesFor gains.now (granules tree.now.table) (parting.now ++ option_to_list chosen) rects) }
{
    if gains.is_empty() {
        return Ok(Records2::new(alloc));
    }
    leaves(alloc, tree, &with_chosen(alloc, parting, chosen)?)
}

/// The short locks that a change of the tree wants, by ascending number, one a granule: IX on each granule
/// that loses a point or is gone; IX on each that has a point which a leaf gains, where no leaf has the point
/// that loses points itself, is gone, gives an entry away, or was chosen for a new entry; and SIX on each leaf
/// out of which an entry moves to another, which covers IX. `chosen` is the leaf that `choose_leaf` gives for
/// a put, and None for a removal.
///
/// Costs the members of the parts and of their old nodes, and of the nodes whose space meets what leaves
/// gain, with what `exceeds` and `overlaps` cost of each. The one error is want of memory.
pub fn short_needs(
    alloc: Global,
    tree: &Tree,
    plan: &Plan,
    chosen: Option<u64>,
) -> Result<Needs, AllocError>
    requires { IsMadeOf tree.now.table plan.now }
    ensures { IfOk result (AreNeedsOf (ShortWant (granules tree.now.table) (granules (planned tree.now.table plan.now)) chosen) Short) }
{
    let numbers = differing(alloc, tree, plan)?;
    let lost = lost(alloc, tree, plan, &numbers)?;
    let givers = in_order(givers(alloc, tree, plan.parts.as_slice())?)?;
    let parting = joined(alloc, &lost, &givers)?;
    let gains = gained(alloc, tree, plan, &numbers)?;
    let sources = sources(alloc, tree, &parting, chosen, gains.as_slice())?;
    let reached = reached(alloc, tree, gains.as_slice(), &sources)?;
    let all = in_order(joined(alloc, &parting, &reached)?)?;
    needs_on(alloc, &givers, &all)
}
