// The granules of two trees: of one whose leaves stand apart, and of one with a leaf as wide as its sibling
// is high.
use crate::trees::{plan_of, rect_of, tree_of};
use sp_granule::{granule_at, granules_meeting, granules_meeting_in, space, space_in};
use sp_node::{Overlay, Tree};
use sp_rect::{Point, WHOLE};
use std::alloc::Global;
use std::test::Fail;

const APART: [(i64, i64, i64, i64); 5] = [
    (0, 0, 2, 2),
    (8, 8, 10, 10),
    (100, 0, 102, 2),
    (108, 8, 110, 10),
    (4, 4, 6, 6),
];

const CROSSED: [(i64, i64, i64, i64); 5] = [
    (0, 0, 2, 9),
    (98, 0, 100, 9),
    (50, 10, 51, 20),
    (50, 990, 51, 1000),
    (40, 0, 60, 9),
];

fn meets_only(
    alloc: Global,
    tree: &Tree,
    corners: (i64, i64, i64, i64),
    granules: &[u64],
) -> Result<bool, Fail> {
    let found = granules_meeting(alloc, tree, &rect_of(corners)?)?;
    Ok(found.as_slice() == granules)
}

fn has_space(tree: &Tree, node: u64, corners: (i64, i64, i64, i64)) -> Result<bool, Fail> {
    Ok(space(tree, node) == Some(rect_of(corners)?))
}

#[test]
fn leaves_that_stand_apart(rt: HostRuntime) -> Result<(), Fail> {
    let alloc = rt.alloc();
    let tree = tree_of(alloc, &APART)?;
    assert!(rt; has_space(&tree, 1, (0, 0, 10, 10))?);
    assert!(rt; has_space(&tree, 2, (100, 0, 110, 10))?);
    assert!(rt; space(&tree, 3) == Some(WHOLE));
    assert!(rt; space(&tree, 4).is_none());
    assert!(rt; meets_only(alloc, &tree, (50, 50, 60, 60), &[3])?);
    assert!(rt; meets_only(alloc, &tree, (1, 1, 3, 3), &[1])?);
    assert!(rt; meets_only(alloc, &tree, (10, 10, 20, 20), &[1, 3])?);
    assert_eq!(rt; granule_at(&tree, Point { x: 5, y: 5 }), 1);
    assert_eq!(rt; granule_at(&tree, Point { x: 50, y: 50 }), 3);
    Ok(())
}

#[test]
fn leaves_that_cross(rt: HostRuntime) -> Result<(), Fail> {
    let alloc = rt.alloc();
    let tree = tree_of(alloc, &CROSSED)?;
    assert!(rt; has_space(&tree, 1, (0, 0, 100, 9))?);
    assert!(rt; has_space(&tree, 2, (50, 10, 51, 1000))?);
    assert!(rt; meets_only(alloc, &tree, (50, 12, 51, 13), &[2])?);
    assert!(rt; meets_only(alloc, &tree, (50, 9, 51, 10), &[1, 2])?);
    Ok(())
}

// An entry between the leaves makes the first one reach over what was left to the root.
#[test]
fn a_tree_that_is_planned(rt: HostRuntime) -> Result<(), Fail> {
    let alloc = rt.alloc();
    let tree = tree_of(alloc, &APART)?;
    assert!(rt; meets_only(alloc, &tree, (20, 20, 30, 30), &[3])?);
    let plan = plan_of(alloc, &tree, 6, 6, rect_of((50, 50, 60, 60))?)?;
    let planned = Overlay::planned(&tree, &plan);
    let found = granules_meeting_in(alloc, &planned, &rect_of((20, 20, 30, 30))?)?;
    assert_eq!(rt; found.as_slice(), [1].as_slice());
    assert_eq!(rt; space_in(&planned, 1), Some(rect_of((0, 0, 60, 60))?));
    assert!(rt; has_space(&tree, 1, (0, 0, 10, 10))?);
    Ok(())
}
