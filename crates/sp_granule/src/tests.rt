use crate::{granule_at, granules_meeting, space};
use sp_node::{Shape, Tree};
use sp_rect::{Point, Rect, WHOLE};
use std::test::Fail;

// The root of an empty tree is a leaf, whose granule is all of space.
#[test]
fn the_granule_of_an_empty_tree(rt: HostRuntime) -> Result<(), Fail> {
    let tree = Tree::new(rt.alloc(), Shape { max: 4, min: 2 })?;
    let rect = Rect::new(0, 0, 9, 9).map_err(|_| "no rectangle")?;
    let found = granules_meeting(rt.alloc(), &tree, &rect)?;
    assert_eq!(rt; found.as_slice(), [1].as_slice());
    assert_eq!(rt; granule_at(&tree, Point { x: 5, y: -5 }), 1);
    assert_eq!(rt; space(&tree, 1), Some(WHOLE));
    assert_eq!(rt; space(&tree, 2), None);
    Ok(())
}
