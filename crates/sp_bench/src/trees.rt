// Insertions into a tree, searches in it, and removals.
use crate::Counts;
use crate::numbers::Numbers;
use sp_condense::remove;
use sp_grow::grow;
use sp_node::{Cursor, Draft, Ended, Entry, Made, Marks, Shape, Tree, meeting};
use sp_rect::{Rect, Value};
use std::alloc::{AllocError, Global};

const SIZE: i64 = 50;

// A prime, by which removals step through the entries.
const STRIDE: u64 = 7919;

// More nodes than any run makes.
const MOST_NODES: u64 = 1 << 62;

/// Inserts so many small squares, and then searches as many rectangles that each meet about one of them.
/// Counts the entries that were found, and the node numbers that were used.
pub fn run(alloc: Global, insertions: u32, searches: u32) -> Result<Counts, AllocError> {
    let mut numbers = Numbers::new();
    let side = side_for(insertions);
    let tree = grown(alloc, &mut numbers, side, insertions)?;
    let mut found: u64 = 0;
    for _ in 0..searches {
        if let Some(rect) = numbers.square(side, SIZE) {
            let hits = meeting(alloc, &mut Cursor::new(&tree), &rect)?;
            found = found.saturating_add(hits.len() as u64);
        }
    }
    Ok(Counts {
        first: found,
        second: tree.next(),
    })
}

/// Inserts so many small squares, and then removes as many of them, in an order that steps through them. Counts
/// the entries that were removed, and the node numbers that were used.
pub fn run_removals(alloc: Global, insertions: u32, removals: u32) -> Result<Counts, AllocError> {
    let mut numbers = Numbers::new();
    let mut tree = grown(alloc, &mut numbers, side_for(insertions), insertions)?;
    let count = u64::from(insertions).max(1);
    let mut removed: u64 = 0;
    for step in 0..u64::from(removals) {
        if take(alloc, &mut tree, step * STRIDE % count)? {
            removed = removed.saturating_add(1);
        }
    }
    Ok(Counts {
        first: removed,
        second: tree.next(),
    })
}

// The tree of so many small squares.
fn grown(
    alloc: Global,
    numbers: &mut Numbers,
    side: u64,
    insertions: u32,
) -> Result<Tree, AllocError> {
    let mut tree = Tree::new(alloc, Shape { max: 16, min: 6 })?;
    for number in 0..u64::from(insertions) {
        if let Some(rect) = numbers.square(side, SIZE) {
            insert(alloc, &mut tree, number, rect)?;
        }
    }
    Ok(tree)
}

// Removes the entry of this number, where the tree has it.
fn take(alloc: Global, tree: &mut Tree, number: u64) -> Result<bool, AllocError> {
    if tree.leaf_of(number).is_none() || tree.next() >= MOST_NODES {
        return Ok(false);
    }
    let plan = remove(alloc, tree, number)?;
    tree.make_room(&plan)?;
    tree.adopt(plan);
    Ok(true)
}

// A side for which a search meets about one of so many squares.
fn side_for(count: u32) -> u64 {
    let mut root: u64 = 0;
    for step in 0..65536u64 {
        if step * step <= u64::from(count) {
            root = step;
        }
    }
    root.saturating_mul(100)
}

fn insert(alloc: Global, tree: &mut Tree, number: u64, rect: Rect) -> Result<(), AllocError> {
    if tree.leaf_of(number).is_some() || tree.next() >= MOST_NODES {
        return Ok(());
    }
    let Ok(value) = Value::new(b"parcel") else {
        return Err(AllocError);
    };
    let entry = Entry {
        number,
        id: number,
        rect,
        value,
        marks: Marks {
            made: Made::Committed,
            ended: Ended::Nobody,
            draft: Draft::None,
        },
    };
    match grow(alloc, tree, entry) {
        Ok(plan) => {
            tree.make_room(&plan)?;
            tree.adopt(plan);
            Ok(())
        }
        Err((_, error)) => Err(error),
    }
}
