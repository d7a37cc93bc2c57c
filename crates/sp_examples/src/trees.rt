// Trees of a few records, by insertion.
ghost use Rattle.std.specs.Prelude.{IfOk};
ghost use Rattle.sp_node.specs.Plan.{IsMadeOf};

use sp_condense::remove;
use sp_grow::grow;
use sp_node::{Draft, Ended, Entry, Made, Marks, Plan, Shape, Tree};
use sp_rect::{Rect, Value};
use std::alloc::Global;
use std::test::Fail;

// More nodes than any example makes.
const MOST_NODES: u64 = 1 << 32;

pub fn rect_of(corners: (i64, i64, i64, i64)) -> Result<Rect, Fail> {
    let (x1, y1, x2, y2) = corners;
    match Rect::new(x1, y1, x2, y2) {
        Ok(rect) => Ok(rect),
        Err(_) => Err(Fail::from("no rectangle")),
    }
}

/// The tree of these rectangles, inserted in order with the numbers from 1, with 2 to 4 members a node.
pub fn tree_of(alloc: Global, rects: &[(i64, i64, i64, i64)]) -> Result<Tree, Fail> {
    let mut tree = Tree::new(alloc, Shape { max: 4, min: 2 })?;
    let mut number: u64 = 0;
    for corners in rects {
        number = number.saturating_add(1);
        insert(alloc, &mut tree, number, number, rect_of(*corners)?)?;
    }
    Ok(tree)
}

/// The tree of records with these ids, inserted in order with the numbers from 1, all in one place.
pub fn tree_of_ids(alloc: Global, ids: &[u64]) -> Result<Tree, Fail> {
    let mut tree = Tree::new(alloc, Shape { max: 4, min: 2 })?;
    let mut number: u64 = 0;
    for id in ids {
        number = number.saturating_add(1);
        insert(alloc, &mut tree, number, *id, rect_of((0, 0, 9, 9))?)?;
    }
    Ok(tree)
}

/// The plan to insert an entry of this number and id.
pub fn plan_of(alloc: Global, tree: &Tree, number: u64, id: u64, rect: Rect) -> Result<Plan, Fail>
    ensures { IfOk result (λ plan. IsMadeOf tree.now.table plan) }
{
    if tree.leaf_of(number).is_some() || tree.next() >= MOST_NODES {
        return Err(Fail::from("no number"));
    }
    let Ok(value) = Value::new(b"parcel") else {
        return Err(Fail::from("no value"));
    };
    let entry = Entry {
        number,
        id,
        rect,
        value,
        marks: Marks {
            made: Made::Committed,
            ended: Ended::Nobody,
            draft: Draft::None,
        },
    };
    match grow(alloc, tree, entry) {
        Ok(plan) => Ok(plan),
        Err(_) => Err(Fail::from("no memory")),
    }
}

/// The removal of the entry of this number.
pub fn removal_of(alloc: Global, tree: &Tree, number: u64) -> Result<Plan, Fail>
    ensures { IfOk result (λ plan. IsMadeOf tree.now.table plan) }
{
    if tree.leaf_of(number).is_none() || tree.next() >= MOST_NODES {
        return Err(Fail::from("no entry"));
    }
    Ok(remove(alloc, tree, number)?)
}

fn insert(alloc: Global, tree: &mut Tree, number: u64, id: u64, rect: Rect) -> Result<(), Fail> {
    let plan = plan_of(alloc, tree, number, id, rect)?;
    adopt(tree, plan)
}

/// Puts the plan's nodes in place of the tree's.
pub fn adopt(tree: &mut Tree, plan: Plan) -> Result<(), Fail>
    requires { IsMadeOf tree.old.table plan }
{
    tree.make_room(&plan)?;
    tree.adopt(plan);
    Ok(())
}
