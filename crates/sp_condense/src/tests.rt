// Trees that shrink record by record.
ghost use Rattle.std.specs.Prelude.{◌≡◌, ◌<◌, ◌≤◌, ◌^◌, ◌+◌, ◌∷◌, [], IfOk, None};
ghost use Rattle.sp_node.specs.Index.{leaf_with};
ghost use Rattle.sp_node.specs.Plan.{IsMadeOf};

use crate::remove;
use sp_grow::grow;
use sp_node::{Cursor, Draft, Ended, Entry, Made, Marks, Node, Part, Plan, Shape, Tree, meeting};
use sp_rect::{Rect, Value};
use std::alloc::{AllocError, Global};
use std::test::Fail;

fn rect(x1: i64, y1: i64, x2: i64, y2: i64) -> Result<Rect, &'static str> {
    Rect::new(x1, y1, x2, y2).map_err(|_| "no rectangle")
}

fn entry(alloc: Global, number: u64, rect: Rect) -> Result<Entry, &'static str>
    ensures { IfOk result (λ e. e.number ≡ number) }
{
    let value = Value::new(b"v").map_err(|_| "no value")?;
    Ok(Entry {
        number,
        id: number,
        rect,
        value,
        marks: Marks {
            made: Made::Committed,
            ended: Ended::Nobody,
            draft: Draft::None,
        },
    })
}

// The plan with an entry of this number.
fn plan_of(alloc: Global, tree: &Tree, number: u64, rect: Rect) -> Result<Plan, &'static str>
    ensures { IfOk result (λ plan. IsMadeOf tree.now.table plan) }
{
    let entry = entry(alloc, number, rect)?;
    if tree.next() >= 9223372036854775808 {
        return Err("no number is left");
    }
    match tree.leaf_of(entry.number) {
        Some(_) => Err("the number is used"),
        None => grow(alloc, tree, entry).map_err(|_| "no memory"),
    }
}

fn adopt(tree: &mut Tree, plan: Plan) -> Result<(), &'static str>
    requires { IsMadeOf tree.old.table plan }
{
    tree.make_room(&plan).map_err(|_| "no memory")?;
    tree.adopt(plan);
    Ok(())
}

// Inserts an entry of this number.
fn put(alloc: Global, tree: &mut Tree, number: u64, rect: Rect) -> Result<(), &'static str> {
    let plan = plan_of(alloc, tree, number, rect)?;
    adopt(tree, plan)
}

fn empty(alloc: Global) -> Result<Tree, &'static str> {
    Tree::new(alloc, Shape { max: 4, min: 2 }).map_err(|_| "no memory")
}

// Two pairs far apart.
fn four_apart(alloc: Global) -> Result<Tree, &'static str> {
    let mut tree = empty(alloc)?;
    put(alloc, &mut tree, 1, rect(0, 0, 2, 2)?)?;
    put(alloc, &mut tree, 2, rect(8, 8, 10, 10)?)?;
    put(alloc, &mut tree, 3, rect(100, 0, 102, 2)?)?;
    put(alloc, &mut tree, 4, rect(108, 8, 110, 10)?)?;
    Ok(tree)
}

// Two pairs far apart, and one between the first.
fn clusters(alloc: Global) -> Result<Tree, &'static str> {
    let mut tree = four_apart(alloc)?;
    put(alloc, &mut tree, 5, rect(4, 4, 6, 6)?)?;
    Ok(tree)
}

// The root and the members of the first four nodes, each after its node's number.
fn outline(alloc: Global, tree: &Tree) -> Result<Vec<u64>, AllocError> {
    let mut found = Vec::new(alloc);
    found.push(tree.root())?;
    for number in 1..5u64 {
        found.push(number)?;
        push_members(&mut found, tree, number)?;
    }
    Ok(found)
}

fn push_members(found: &mut Vec<u64>, tree: &Tree, number: u64) -> Result<(), AllocError> {
    match tree.node(number) {
        Some(Node::Leaf(entries)) => {
            for entry in entries.as_slice() {
                found.push(entry.number)?;
            }
        }
        Some(Node::Inner(children)) => {
            for child in children.as_slice() {
                found.push(child.node)?;
            }
        }
        None => {}
    }
    Ok(())
}

// Whether the tree has this outline.
fn is_outline(alloc: Global, tree: &Tree, wanted: &[u64]) -> Result<bool, &'static str> {
    let found = outline(alloc, tree).map_err(|_| "no memory")?;
    Ok(found.as_slice() == wanted)
}

// Whether these are the bounds that the root has of its two children.
fn are_bounds(tree: &Tree, first: Rect, second: Rect) -> bool {
    match tree.node(tree.root()) {
        Some(Node::Inner(children)) => match children.as_slice() {
            [a, b] => a.rect == first && b.rect == second,
            _ => false,
        },
        _ => false,
    }
}

// Whether this is the bound that the root has of the child at this place.
fn is_bound(tree: &Tree, at: usize, bound: Rect) -> bool {
    match tree.node(tree.root()) {
        Some(Node::Inner(children)) => match children.get(at) {
            Some(child) => child.rect == bound,
            None => false,
        },
        _ => false,
    }
}

// The plan without the entry of this number.
fn plan_without(alloc: Global, tree: &Tree, number: u64) -> Result<Plan, &'static str>
    ensures { IfOk result (λ plan. IsMadeOf tree.now.table plan) }
{
    if tree.next() >= 9223372036854775808 {
        return Err("no number is left");
    }
    match tree.leaf_of(number) {
        Some(_) => remove(alloc, tree, number).map_err(|_| "no memory"),
        None => Err("the number is not used"),
    }
}

// Takes the entry of this number out.
fn take(alloc: Global, tree: &mut Tree, number: u64) -> Result<(), &'static str> {
    let plan = plan_without(alloc, tree, number)?;
    adopt(tree, plan)
}

// A leaf that underflows is dropped, and its other entry splits the leaf beside it.
fn dropped_leaf_splits_another(alloc: Global) -> Result<bool, &'static str> {
    let mut tree = clusters(alloc)?;
    put(alloc, &mut tree, 6, rect(1, 1, 2, 2)?)?;
    take(alloc, &mut tree, 3)?;
    Ok(
        is_bound(&tree, 0, rect(0, 0, 6, 6)?)
            & is_bound(&tree, 1, rect(8, 8, 110, 10)?)
            & is_outline(alloc, &tree, &[3, 1, 1, 5, 6, 2, 3, 1, 4, 4, 2, 4])?,
    )
}

// A leaf that underflows is dropped, and the one beside it is the root.
fn dropped_leaf_leaves_a_root(alloc: Global) -> Result<bool, &'static str> {
    let mut tree = clusters(alloc)?;
    take(alloc, &mut tree, 3)?;
    is_outline(alloc, &tree, &[1, 1, 1, 2, 5, 4, 2, 3, 4])
}

// The numbers of the parts, and whether each drops its node.
fn parts_of(alloc: Global, plan: &Plan) -> Result<Vec<(u64, bool)>, AllocError> {
    let mut found = Vec::new(alloc);
    for part in plan.parts.as_slice() {
        found.push(match part {
            Part::Now(number, _) => (*number, false),
            Part::Gone(number) => (*number, true),
        })?;
    }
    Ok(found)
}

// A plan has the nodes that differ: where the leaf beside takes the orphan, it alone and the two that go.
fn plan_has_three(alloc: Global) -> Result<bool, &'static str> {
    let tree = clusters(alloc)?;
    let plan = plan_without(alloc, &tree, 3)?;
    let found = parts_of(alloc, &plan).map_err(|_| "no memory")?;
    Ok(found.as_slice() == [(1, false), (2, true), (3, true)].as_slice())
}

// Where no rectangle changes the leaf alone is in the plan.
fn plan_has_one(alloc: Global) -> Result<bool, &'static str> {
    let tree = clusters(alloc)?;
    let plan = plan_without(alloc, &tree, 5)?;
    let found = parts_of(alloc, &plan).map_err(|_| "no memory")?;
    Ok(found.as_slice() == [(1, false)].as_slice())
}

#[test]
fn a_plan_has_the_nodes_that_differ(rt: HostRuntime) -> Result<(), Fail> {
    assert_eq!(rt; plan_has_three(rt.alloc())?, true);
    assert_eq!(rt; plan_has_one(rt.alloc())?, true);
    Ok(())
}

#[test]
fn a_leaf_that_underflows_is_dropped(rt: HostRuntime) -> Result<(), Fail> {
    assert_eq!(rt; dropped_leaf_splits_another(rt.alloc())?, true);
    assert_eq!(rt; dropped_leaf_leaves_a_root(rt.alloc())?, true);
    Ok(())
}

// A small rectangle in a square of 1,000 by 1,000.
fn drawn(draw: u64) -> Result<Rect, &'static str> {
    let x = draw % 1000;
    let y = draw / 1000 % 1000;
    let wide = draw / 1000000 % 40;
    let high = draw / 40000000 % 40;
    rect(x as i64, y as i64, (x + wide) as i64, (y + high) as i64)
}

// The next draw of the generator of Park and Miller.
fn next_draw(draw: u64) -> u64 {
    draw % 2147483647 * 48271 % 2147483647
}

// Inserts so many drawn rectangles, and keeps them.
fn grown(alloc: Global, count: u64, rects: &mut Vec<Rect>) -> Result<Tree, &'static str> {
    let mut tree = empty(alloc)?;
    let mut draw = 7;
    for i in 0..count {
        draw = next_draw(draw);
        let rect = drawn(draw)?;
        put(alloc, &mut tree, i + 1, rect)?;
        rects.push(rect).map_err(|_| "no memory")?;
    }
    Ok(tree)
}

// The numbers of those that are there and meet this one, counted from 1.
fn filtered(
    alloc: Global,
    rects: &[Rect],
    there: &[bool],
    query: &Rect,
) -> Result<Vec<u64>, AllocError> {
    let mut found = Vec::new(alloc);
    for i in 0..rects.len() {
        if i < there.len() && there[i] && rects[i].meets(query) {
            found.push(i as u64 + 1)?;
        }
    }
    Ok(found)
}

// Whether a search finds what a filter finds.
fn agrees(
    alloc: Global,
    tree: &Tree,
    rects: &[Rect],
    there: &[bool],
    query: &Rect,
) -> Result<bool, AllocError> {
    let found = meeting(alloc, &mut Cursor::new(tree), query)?;
    let wanted = filtered(alloc, rects, there, query)?;
    Ok(found.as_slice() == wanted.as_slice())
}

// The place of the next one that is there, from this place on and then from the first.
fn next_there(there: &[bool], from: usize) -> Option<usize> {
    for i in from..there.len() {
        if there[i] {
            return Some(i);
        }
    }
    for i in 0..there.len() {
        if there[i] {
            return Some(i);
        }
    }
    None
}

// Whether so many drawn searches find what a filter finds.
fn all_agree(
    alloc: Global,
    tree: &Tree,
    rects: &[Rect],
    there: &[bool],
    count: u64,
) -> Result<bool, &'static str> {
    let mut draw = 11;
    for _ in 0..count {
        draw = next_draw(draw);
        let query = drawn(draw)?;
        if !agrees(alloc, tree, rects, there, &query).map_err(|_| "no memory")? {
            return Ok(false);
        }
    }
    Ok(true)
}

// Takes all out in a drawn order, and searches at each twentieth step.
fn emptied(
    alloc: Global,
    tree: &mut Tree,
    rects: &[Rect],
    there: &mut Vec<bool>,
) -> Result<bool, &'static str> {
    let mut draw = 13;
    for step in 0..rects.len() {
        draw = next_draw(draw);
        if let Some(at) = next_there(there.as_slice(), (draw % 300) as usize) {
            take(alloc, tree, (at as u64).saturating_add(1))?;
            if at < there.len() {
                there[at] = false;
            }
        }
        if step % 20 == 0 && !all_agree(alloc, tree, rects, there.as_slice(), 5)? {
            return Ok(false);
        }
    }
    Ok(true)
}

// Whether the tree is one empty leaf.
fn is_empty_leaf(tree: &Tree) -> bool {
    match tree.node(tree.root()) {
        Some(Node::Leaf(entries)) => entries.is_empty(),
        _ => false,
    }
}

// Grows a tree of so many and empties it again.
fn grown_and_emptied(alloc: Global, count: u64) -> Result<bool, &'static str> {
    let mut rects = Vec::new(alloc);
    let mut tree = grown(alloc, count, &mut rects)?;
    let mut there = Vec::new(alloc);
    for _ in 0..count {
        there.push(true).map_err(|_| "no memory")?;
    }
    let agreed = emptied(alloc, &mut tree, rects.as_slice(), &mut there)?;
    Ok(agreed & is_empty_leaf(&tree))
}

#[test]
fn a_tree_is_emptied_in_another_order(rt: HostRuntime) -> Result<(), Fail> {
    assert_eq!(rt; grown_and_emptied(rt.alloc(), 300)?, true);
    Ok(())
}
