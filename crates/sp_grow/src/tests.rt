// Trees that grow record by record.
ghost use Rattle.std.specs.Prelude.{◌≡◌, ◌<◌, ◌≤◌, ◌^◌, ◌+◌, ◌∷◌, [], IfOk, None};
ghost use Rattle.sp_node.specs.Index.{leaf_with};
ghost use Rattle.sp_node.specs.Plan.{IsMadeOf};

use crate::{choose_leaf, grow};
use sp_node::{Cursor, Draft, Ended, Entry, Made, Marks, Node, Plan, Shape, Tree, meeting};
use sp_rect::{Rect, Value};
use std::alloc::{AllocError, Global};
use std::test::Fail;

fn rect(x1: i64, y1: i64, x2: i64, y2: i64) -> Result<Rect, &'static str> {
    Rect::new(x1, y1, x2, y2).map_err(|_| "no rectangle")
}

fn entry(alloc: Global, number: u64, rect: Rect) -> Result<Entry, &'static str>
    ensures { IfOk result (λ e. e.number ≡ number) }
{
    let value = Value::new(b"v").map_err(|_| "no value")?;
    Ok(Entry {
        number,
        id: number,
        rect,
        value,
        marks: Marks {
            made: Made::Committed,
            ended: Ended::Nobody,
            draft: Draft::None,
        },
    })
}

// The plan for an entry of this number.
fn plan_of(alloc: Global, tree: &Tree, number: u64, rect: Rect) -> Result<Plan, &'static str>
    ensures { IfOk result (λ plan. IsMadeOf tree.now.table plan) }
{
    let entry = entry(alloc, number, rect)?;
    if tree.next() >= 9223372036854775808 {
        return Err("no number is left");
    }
    match tree.leaf_of(entry.number) {
        Some(_) => Err("the number is used"),
        None => grow(alloc, tree, entry).map_err(|_| "no memory"),
    }
}

fn adopt(tree: &mut Tree, plan: Plan) -> Result<(), &'static str>
    requires { IsMadeOf tree.old.table plan }
{
    tree.make_room(&plan).map_err(|_| "no memory")?;
    tree.adopt(plan);
    Ok(())
}

// Inserts an entry of this number.
fn put(alloc: Global, tree: &mut Tree, number: u64, rect: Rect) -> Result<(), &'static str> {
    let plan = plan_of(alloc, tree, number, rect)?;
    adopt(tree, plan)
}

fn empty(alloc: Global) -> Result<Tree, &'static str> {
    Tree::new(alloc, Shape { max: 4, min: 2 }).map_err(|_| "no memory")
}

// Two pairs far apart.
fn four_apart(alloc: Global) -> Result<Tree, &'static str> {
    let mut tree = empty(alloc)?;
    put(alloc, &mut tree, 1, rect(0, 0, 2, 2)?)?;
    put(alloc, &mut tree, 2, rect(8, 8, 10, 10)?)?;
    put(alloc, &mut tree, 3, rect(100, 0, 102, 2)?)?;
    put(alloc, &mut tree, 4, rect(108, 8, 110, 10)?)?;
    Ok(tree)
}

// Two pairs far apart, and one between the first.
fn clusters(alloc: Global) -> Result<Tree, &'static str> {
    let mut tree = four_apart(alloc)?;
    put(alloc, &mut tree, 5, rect(4, 4, 6, 6)?)?;
    Ok(tree)
}

// Flat ones below, and two in a tall column.
fn column(alloc: Global) -> Result<Tree, &'static str> {
    let mut tree = empty(alloc)?;
    put(alloc, &mut tree, 1, rect(0, 0, 2, 9)?)?;
    put(alloc, &mut tree, 2, rect(98, 0, 100, 9)?)?;
    put(alloc, &mut tree, 3, rect(50, 10, 51, 20)?)?;
    put(alloc, &mut tree, 4, rect(50, 990, 51, 1000)?)?;
    put(alloc, &mut tree, 5, rect(40, 0, 60, 9)?)?;
    Ok(tree)
}

// Five equal ones.
fn equal(alloc: Global) -> Result<Tree, &'static str> {
    let mut tree = empty(alloc)?;
    for i in 0..5u64 {
        put(alloc, &mut tree, i + 1, rect(1, 1, 2, 2)?)?;
    }
    Ok(tree)
}

// The root and the members of the first three nodes, each after its node's number.
fn outline(alloc: Global, tree: &Tree) -> Result<Vec<u64>, AllocError> {
    let mut found = Vec::new(alloc);
    found.push(tree.root())?;
    for number in 1..4u64 {
        found.push(number)?;
        push_members(&mut found, tree, number)?;
    }
    Ok(found)
}

fn push_members(found: &mut Vec<u64>, tree: &Tree, number: u64) -> Result<(), AllocError> {
    match tree.node(number) {
        Some(Node::Leaf(entries)) => {
            for entry in entries.as_slice() {
                found.push(entry.number)?;
            }
        }
        Some(Node::Inner(children)) => {
            for child in children.as_slice() {
                found.push(child.node)?;
            }
        }
        None => {}
    }
    Ok(())
}

// Whether the tree has this outline.
fn is_outline(alloc: Global, tree: &Tree, wanted: &[u64]) -> Result<bool, &'static str> {
    let found = outline(alloc, tree).map_err(|_| "no memory")?;
    Ok(found.as_slice() == wanted)
}

// Whether these are the bounds that the root has of its two children.
fn are_bounds(tree: &Tree, first: Rect, second: Rect) -> bool {
    match tree.node(tree.root()) {
        Some(Node::Inner(children)) => match children.as_slice() {
            [a, b] => a.rect == first && b.rect == second,
            _ => false,
        },
        _ => false,
    }
}

// The tree of two clusters: the leaf on the left keeps the number 1.
fn clusters_split(alloc: Global) -> Result<bool, &'static str> {
    let tree = clusters(alloc)?;
    let left = rect(0, 0, 10, 10)?;
    let right = rect(100, 0, 110, 10)?;
    Ok(
        are_bounds(&tree, left, right)
            & is_outline(alloc, &tree, &[3, 1, 1, 2, 5, 2, 3, 4, 3, 1, 2])?,
    )
}

// The tree of flat ones and a column.
fn column_splits(alloc: Global) -> Result<bool, &'static str> {
    let tree = column(alloc)?;
    let flat = rect(0, 0, 100, 9)?;
    let tall = rect(50, 10, 51, 1000)?;
    Ok(
        are_bounds(&tree, flat, tall)
            & is_outline(alloc, &tree, &[3, 1, 1, 2, 5, 2, 3, 4, 3, 1, 2])?,
    )
}

// Equal ones go to the leaves in turn.
fn equal_ones_split(alloc: Global) -> Result<bool, &'static str> {
    let tree = equal(alloc)?;
    is_outline(alloc, &tree, &[3, 1, 1, 3, 5, 2, 2, 4, 3, 1, 2])
}

#[test]
fn five_records_split_the_root(rt: HostRuntime) -> Result<(), Fail> {
    assert_eq!(rt; clusters_split(rt.alloc())?, true);
    assert_eq!(rt; column_splits(rt.alloc())?, true);
    assert_eq!(rt; equal_ones_split(rt.alloc())?, true);
    Ok(())
}

// Whether the plan for an entry of this rectangle has parts of exactly these numbers.
fn are_parts(
    alloc: Global,
    tree: &Tree,
    number: u64,
    rect: Rect,
    wanted: &[u64],
) -> Result<bool, &'static str> {
    let plan = plan_of(alloc, tree, number, rect)?;
    let mut found = Vec::new(alloc);
    for part in plan.parts.as_slice() {
        found.push(part.number()).map_err(|_| "no memory")?;
    }
    Ok(found.as_slice() == wanted)
}

// An entry inside the left leaf changes that leaf alone.
fn inside_changes_one(alloc: Global, tree: &Tree) -> Result<bool, &'static str> {
    let inside = rect(5, 5, 6, 6)?;
    Ok((choose_leaf(tree, &inside) == 1) & are_parts(alloc, tree, 6, inside, &[1])?)
}

// An entry beside both changes the leaf that grows less, and the root above it.
fn beside_changes_two(alloc: Global, tree: &Tree) -> Result<bool, &'static str> {
    let beside = rect(55, 55, 56, 56)?;
    Ok((choose_leaf(tree, &beside) == 2) & are_parts(alloc, tree, 6, beside, &[2, 3])?)
}

// A fifth entry splits the one leaf below a new root.
fn fifth_makes_three(alloc: Global) -> Result<bool, &'static str> {
    let tree = four_apart(alloc)?;
    are_parts(alloc, &tree, 5, rect(4, 4, 6, 6)?, &[1, 2, 3])
}

#[test]
fn a_plan_has_the_nodes_that_differ(rt: HostRuntime) -> Result<(), Fail> {
    let tree = clusters(rt.alloc())?;
    assert_eq!(rt; inside_changes_one(rt.alloc(), &tree)?, true);
    assert_eq!(rt; beside_changes_two(rt.alloc(), &tree)?, true);
    assert_eq!(rt; fifth_makes_three(rt.alloc())?, true);
    Ok(())
}

// A small rectangle in a square of 1,000 by 1,000.
fn drawn(draw: u64) -> Result<Rect, &'static str> {
    let x = draw % 1000;
    let y = draw / 1000 % 1000;
    let wide = draw / 1000000 % 40;
    let high = draw / 40000000 % 40;
    rect(x as i64, y as i64, (x + wide) as i64, (y + high) as i64)
}

// The next draw of the generator of Park and Miller.
fn next_draw(draw: u64) -> u64 {
    draw % 2147483647 * 48271 % 2147483647
}

// The numbers of the rectangles that meet this one, counted from 1.
fn filtered(alloc: Global, rects: &[Rect], query: &Rect) -> Result<Vec<u64>, AllocError> {
    let mut found = Vec::new(alloc);
    for i in 0..rects.len() {
        if rects[i].meets(query) {
            found.push(i as u64 + 1)?;
        }
    }
    Ok(found)
}

// Whether a search finds what a filter finds.
fn agrees(alloc: Global, tree: &Tree, rects: &[Rect], query: &Rect) -> Result<bool, AllocError> {
    let found = meeting(alloc, &mut Cursor::new(tree), query)?;
    let wanted = filtered(alloc, rects, query)?;
    Ok(found.as_slice() == wanted.as_slice())
}

// Inserts so many drawn rectangles, and keeps them.
fn grown(alloc: Global, count: u64, rects: &mut Vec<Rect>) -> Result<Tree, &'static str> {
    let mut tree = empty(alloc)?;
    let mut draw = 7;
    for i in 0..count {
        draw = next_draw(draw);
        let rect = drawn(draw)?;
        put(alloc, &mut tree, i + 1, rect)?;
        rects.push(rect).map_err(|_| "no memory")?;
    }
    Ok(tree)
}

// Whether so many drawn searches find what a filter finds.
fn all_agree(alloc: Global, tree: &Tree, rects: &[Rect], count: u64) -> Result<bool, &'static str> {
    let mut draw = 11;
    for _ in 0..count {
        draw = next_draw(draw);
        let query = drawn(draw)?;
        if !agrees(alloc, tree, rects, &query).map_err(|_| "no memory")? {
            return Ok(false);
        }
    }
    Ok(true)
}

// Grows a tree of so many, and searches it.
fn grown_finds(alloc: Global, count: u64) -> Result<bool, &'static str> {
    let mut rects = Vec::new(alloc);
    let tree = grown(alloc, count, &mut rects)?;
    all_agree(alloc, &tree, &rects, 50)
}

#[test]
fn a_grown_tree_finds_what_a_filter_finds(rt: HostRuntime) -> Result<(), Fail> {
    assert_eq!(rt; grown_finds(rt.alloc(), 300)?, true);
    Ok(())
}
