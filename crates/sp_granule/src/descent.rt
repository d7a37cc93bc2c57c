// The granule of a point.
ghost use Rattle.std.specs.Prelude.{◌≡◌, IsTrue};
ghost use Rattle.sp_rect.specs.Plane.{holds, point, whole};
ghost use Rattle.sp_granule.specs.Granules.{granules, HasPoint};
ghost use Rattle.sp_granule.specs.Descent.{first_child_at, granule_of};

use sp_node::{Child, Node, Tree};
use sp_rect::Point;

// The first child that has the point.
fn child_at(children: &[Child], p: Point) -> Option<u64>
    ensures { result ≡ first_child_at (point p.x p.y) children.now }
{
    for child in children {
        if child.rect.holds(p) {
            return Some(child.node);
        }
    }
    None
}

// Down from the root, at each inner node to the first child that has the point, until there is none.
fn descend(tree: &Tree, p: Point) -> u64
    ensures { result ≡ granule_of tree.now.table (point p.x p.y) }
{
    let mut number = tree.root();
    'down: while let Some(Node::Inner(children)) = tree.node(number) {
        match child_at(children.as_slice(), p) {
            Some(child) => number = child,
            None => return number,
        }
    }
    number
}

/// A granule that has the point: down from the root, at each inner node to the first child that has the
/// point; where there is none it is that node, else the leaf that is reached. It always has an answer,
/// takes no memory, and costs the members of one node of each level.
pub fn granule_at(tree: &Tree, p: Point) -> u64
    requires { IsTrue (holds whole (point p.x p.y)) }
    ensures descent { result ≡ granule_of tree.now.table (point p.x p.y) }
    ensures has_point { HasPoint (granules tree.now.table) result (point p.x p.y) }
{
    descend(tree, p)
}
