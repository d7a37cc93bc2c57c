// The short locks of random insertions and removals, against a plain model that looks at all granules before and after,
// point by point.
ghost use Rattle.sp_node.specs.Plan.{IsMadeOf};

use crate::trees::{adopt, plan_of, rect_of, removal_of};
use sp_granule::space;
use sp_grow::choose_leaf;
use sp_locks::{Mode, Name, Needs};
use sp_needs::short_needs;
use sp_node::{Node, Plan, Shape, Tree};
use sp_rect::{Point, Rect};
use std::alloc::{AllocError, Global};
use std::test::Fail;

// Rectangles have coordinates from 0 to 12, and the points one further out stand for all others.
const SIDE: u64 = 13;

const INSERTIONS: u64 = 200;

// A granule with all that stands in it.
#[derive(Drop)]
struct Seen {
    number: u64,
    is_leaf: bool,
    space: Rect,
    holes: Vec<Rect>,
    entries: Vec<u64>,
}

impl Seen {
    fn has(&self, p: Point) -> bool {
        self.space.holds(p) && !self.holes.iter().any(|hole| hole.holds(p))
    }
}

fn granule_of(alloc: Global, number: u64, node: &Node, space: Rect) -> Result<Seen, AllocError> {
    let mut holes = Vec::new(alloc);
    let mut entries = Vec::new(alloc);
    match node {
        Node::Leaf(members) => {
            for entry in members.as_slice() {
                entries.push(entry.number)?;
            }
        }
        Node::Inner(members) => {
            for child in members.as_slice() {
                holes.push(child.rect)?;
            }
        }
    }
    Ok(Seen {
        number,
        is_leaf: matches!(node, Node::Leaf(_)),
        space,
        holes,
        entries,
    })
}

fn all_seen(alloc: Global, tree: &Tree) -> Result<Vec<Seen>, AllocError> {
    let mut all = Vec::new(alloc);
    for number in 0..tree.next() {
        if let (Some(node), Some(space)) = (tree.node(number), space(tree, number)) {
            all.push(granule_of(alloc, number, node, space)?)?;
        }
    }
    Ok(all)
}

// Whether an entry of the leaf stands in another leaf.
fn gives(leaf: &Seen, after: &[Seen]) -> bool {
    leaf.is_leaf
        && after.iter().any(|other| {
            other.is_leaf
                && other.number != leaf.number
                && leaf
                    .entries
                    .iter()
                    .any(|entry| other.entries.contains(entry))
        })
}

fn points(alloc: Global) -> Result<Vec<Point>, AllocError> {
    let mut points = Vec::new(alloc);
    for x in -1..14i32 {
        for y in -1..14i32 {
            points.push(Point { x, y })?;
        }
    }
    Ok(points)
}

// Whether the granule has a point that the one of its number after the change lacks, or there is none.
fn loses(granule: &Seen, after: &[Seen], points: &[Point]) -> bool {
    !after.iter().any(|other| {
        other.number == granule.number && points.iter().all(|p| !granule.has(*p) || other.has(*p))
    })
}

// Whether a leaf has the point after the change that the leaf of its number lacked before.
fn is_gained(p: Point, before: &[Seen], after: &[Seen]) -> bool {
    after.iter().any(|leaf| {
        leaf.is_leaf
            && leaf.has(p)
            && !before.iter().any(|old| old.is_leaf && old.number == leaf.number && old.has(p))
    })
}

// The gained points that lie in no leaf that is locked anyway.
fn free_gains(
    alloc: Global,
    before: &[Seen],
    after: &[Seen],
    points: &[Point],
    sources: &[u64],
) -> Result<Vec<Point>, AllocError> {
    let mut free = Vec::new(alloc);
    for p in points {
        let is_locked = before.iter().any(|leaf| leaf.is_leaf
            && sources.contains(&leaf.number)
            && leaf.has(*p));
        if !is_locked && is_gained(*p, before, after) {
            free.push(*p)?;
        }
    }
    Ok(free)
}

// The granules on which short locks are wanted, each with whether it is SIX.
fn plain_needs(
    alloc: Global,
    before: &[Seen],
    after: &[Seen],
    chosen: Option<u64>,
) -> Result<Vec<(u64, bool)>, AllocError> {
    let points = points(alloc)?;
    let mut sources = Vec::new(alloc);
    for granule in before {
        if chosen == Some(granule.number)
            || gives(granule, after)
            || loses(granule, after, &points)
        {
            sources.push(granule.number)?;
        }
    }
    let free = free_gains(alloc, before, after, &points, &sources)?;
    let mut needs = Vec::new(alloc);
    for granule in before {
        if gives(granule, after) {
            needs.push((granule.number, true))?;
        } else if loses(granule, after, &points) || free.iter().any(|p| granule.has(*p)) {
            needs.push((granule.number, false))?;
        }
    }
    Ok(needs)
}

// Whether they are the same needs in the same order.
fn are_same(needs: &Needs, plain: &[(u64, bool)]) -> bool {
    needs.len() == plain.len()
        && needs.as_slice().iter().zip(plain.iter()).all(|(need, (number, is_six))| {
            need.name == Name::Granule(*number)
                && need.mode == (if *is_six { Mode::SIX } else { Mode::IX })
        })
}

// The next of Lehmer's numbers, with the multiplier 16807 and the modulus 2^31 - 1.
fn next(state: u64) -> u64 {
    state % 2147483647 * 16807 % 2147483647
}

// A rectangle of at most 5 by 5 points, and the next state.
fn random_rect(state: u64) -> Result<(Rect, u64), Fail> {
    let a = next(state);
    let b = next(a);
    let c = next(b);
    let d = next(c);
    let x = (a % SIDE) as i64;
    let y = (b % SIDE) as i64;
    let right = x.saturating_add((c % 5) as i64).min(12);
    let top = y.saturating_add((d % 5) as i64).min(12);
    Ok((rect_of((x, y, right, top))?, d))
}

// Makes the change, and says whether its short needs are those of the model.
fn agrees(alloc: Global, tree: &mut Tree, plan: Plan, chosen: Option<u64>) -> Result<bool, Fail>
    requires { IsMadeOf tree.old.table plan }
{
    let before = all_seen(alloc, tree)?;
    let needs = short_needs(alloc, tree, &plan, chosen)?;
    adopt(tree, plan)?;
    let after = all_seen(alloc, tree)?;
    let plain = plain_needs(alloc, &before, &after, chosen)?;
    Ok(are_same(&needs, &plain))
}

fn inserts(alloc: Global, tree: &mut Tree, number: u64, rect: Rect) -> Result<bool, Fail> {
    let chosen = choose_leaf(tree, &rect);
    let plan = plan_of(alloc, tree, number, number, rect)?;
    agrees(alloc, tree, plan, Some(chosen))
}

fn removes(alloc: Global, tree: &mut Tree, number: u64) -> Result<bool, Fail> {
    let plan = removal_of(alloc, tree, number)?;
    agrees(alloc, tree, plan, None)
}

// Rectangles are inserted, and each third time an earlier one is removed, if it is still there.
#[test]
fn short_needs_of_random_changes(rt: HostRuntime) -> Result<(), Fail> {
    let alloc = rt.alloc();
    let mut tree = Tree::new(alloc, Shape { max: 4, min: 2 })?;
    let mut state: u64 = 1;
    for number in 0..INSERTIONS {
        let (rect, next) = random_rect(state)?;
        state = next;
        assert!(rt;
            inserts(alloc, &mut tree, number, rect)?,
            "insertion {number}"
        );
        let other = state % (number + 1);
        if number % 3 == 0 && tree.leaf_of(other).is_some() {
            assert!(rt; removes(alloc, &mut tree, other)?, "removal {other}");
        }
    }
    Ok(())
}
