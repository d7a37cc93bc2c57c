// Insertions into a tree of small squares, their plans, and the locks that they want.
ghost use Rattle.std.specs.Prelude.{◌<◌, ◌^◌, IfOk};
ghost use Rattle.sp_node.specs.Plan.{IsMadeOf};

use sp_grow::{choose_leaf, grow};
use sp_needs::short_needs;
use sp_node::{Draft, Ended, Entry, Made, Marks, Plan, Shape, Tree};
use sp_ops::commit_needs;
use sp_rect::{Op, Record, Records2, Rect, Value};
use std::alloc::{AllocError, Global};

const SIZE: i64 = 50;

// More nodes than any run makes.
const MOST_NODES: u64 = 1 << 62;

// Lehmer's generator with the multiplier 16807 and the modulus 2^31 - 1.
#[derive(Drop)]
struct Numbers {
    state: u64,
    ghost small: { state < 2 ^ 31 },
}

impl Numbers {
    fn next(&mut self) -> u64
        ensures { result < 2 ^ 31 }
    {
        self.state = 16807 * self.state % 2147483647;
        self.state
    }

    // A small square somewhere in a square of that side.
    fn square(&mut self, side: u64) -> Result<Rect, AllocError> {
        let x = (self.next() % side.max(1)) as i64;
        let y = (self.next() % side.max(1)) as i64;
        Rect::new(x, y, x.saturating_add(SIZE), y.saturating_add(SIZE)).map_err(|_| AllocError)
    }
}

/// What is computed of each insertion, beside its plan.
#[derive(Clone, Copy)]
pub enum Wanted {
    /// Nothing.
    Plan,
    /// The locks for the moment of the change.
    ShortNeeds,
    /// The locks to the end of a transaction that searched where it puts.
    CommitNeeds,
}

/// Inserts so many small squares, makes the plans of so many more, one at a time, and of each what is
/// wanted. Counts the parts of the plans, or the needs.
pub fn run(alloc: Global, entries: u32, plans: u32, wanted: Wanted) -> Result<u64, AllocError> {
    let mut tree = Tree::new(alloc, Shape { max: 16, min: 6 })?;
    let mut numbers = Numbers { state: 1 };
    let side = side_for(entries);
    for number in 0..u64::from(entries) {
        let rect = numbers.square(side)?;
        let plan = plan_of(alloc, &tree, number, rect)?;
        tree.make_room(&plan)?;
        tree.adopt(plan);
    }
    let mut counted: u64 = 0;
    for _ in 0..plans {
        let rect = numbers.square(side)?;
        let count = count_of(alloc, &tree, u64::from(entries), rect, wanted)?;
        counted = counted.saturating_add(count);
    }
    Ok(counted)
}

// A side for which each place has about one of so many squares near it.
fn side_for(count: u32) -> u64 {
    let mut root: u64 = 0;
    for step in 0..65536u64 {
        if step * step <= u64::from(count) {
            root = step;
        }
    }
    root.saturating_mul(100)
}

// The parts of the plan, or its needs.
fn count_of(
    alloc: Global,
    tree: &Tree,
    number: u64,
    rect: Rect,
    wanted: Wanted,
) -> Result<u64, AllocError> {
    let plan = plan_of(alloc, tree, number, rect)?;
    match wanted {
        Wanted::Plan => Ok(plan.parts.len() as u64),
        Wanted::ShortNeeds => {
            let chosen = choose_leaf(tree, &rect);
            let needs = short_needs(alloc, tree, &plan, Some(chosen))?;
            Ok(needs.len() as u64)
        }
        Wanted::CommitNeeds => commit_count(alloc, tree, &plan, number, rect),
    }
}

// The locks to the end of a put, by a transaction that searched its rectangle before.
fn commit_count(
    alloc: Global,
    tree: &Tree,
    plan: &Plan,
    number: u64,
    rect: Rect,
) -> Result<u64, AllocError>
    requires { IsMadeOf tree.now.table plan.now }
{
    let Ok(value) = Value::new(b"parcel") else {
        return Err(AllocError);
    };
    let op = Op::Put(Record {
        id: number,
        rect,
        value,
    });
    let mut searches = Records2::new(alloc);
    searches.push(rect)?;
    let needs = commit_needs(alloc, tree, Some(plan), &op, 1, &searches)?;
    Ok(needs.len() as u64)
}

// The insertion of a rectangle with a new number.
fn plan_of(alloc: Global, tree: &Tree, number: u64, rect: Rect) -> Result<Plan, AllocError>
    ensures { IfOk result (λ plan. IsMadeOf tree.now.table plan) }
{
    if tree.leaf_of(number).is_some() || tree.next() >= MOST_NODES {
        return Err(AllocError);
    }
    let Ok(value) = Value::new(b"parcel") else {
        return Err(AllocError);
    };
    let entry = Entry {
        number,
        id: number,
        rect,
        value,
        marks: Marks {
            made: Made::Committed,
            ended: Ended::Nobody,
            draft: Draft::None,
        },
    };
    match grow(alloc, tree, entry) {
        Ok(plan) => Ok(plan),
        Err((_, error)) => Err(error),
    }
}
