// The child and the leaf that a rectangle goes to: ChooseLeaf of Guttman, with every tie settled.
ghost use Rattle.std.specs.Prelude.{◌≡◌, ◌<◌, length, map, take, drop, ◌+◌, slice_index_or};
ghost use Rattle.std.specs.Bool.{MatchBool};
ghost use Rattle.sp_rect.specs.Plane.{area, growth, whole};
ghost use Rattle.sp_grow.specs.Chosen.{IsAtMost, IsChosen, IsLess, ReachesOf};

use sp_node::{Child, Node, Tree};
use sp_rect::Rect;

// What a child is chosen by: the growth that the rectangle costs it, and of equal ones its area.
#[derive(Clone, Copy)]
struct Cost {
    growth: i128,
    area: i128,
}

// What the rectangle costs the child. The growth is made from the area, so that it is computed once.
fn cost_of(child: &Child, rect: &Rect) -> Cost
    ensures growth { result.growth ≡ growth child.now.rect rect.now }
    ensures area { result.area ≡ area child.now.rect }
{
    let area = child.rect.area();
    Cost {
        growth: child.rect.bound(rect).area() - area,
        area,
    }
}

// Whether the one costs less than the other.
fn is_less(a: Cost, b: Cost) -> bool
    ensures { MatchBool result (IsLess a.growth a.area b.growth b.area) (IsAtMost b.growth b.area a.growth a.area) }
{
    if a.growth < b.growth {
        return true;
    }
    if b.growth < a.growth {
        return false;
    }
    if a.area < b.area {
        return true;
    }
    false
}

/// The position of the child that the rectangle goes to.
pub(crate) fn choose_child(children: &[Child], rect: &Rect) -> usize
    requires { 0 < length children.now }
    ensures within { result < length children.now }
    ensures chosen { let rects = map (λ c. c.rect) children.now in IsChosen (take result rects) (slice_index_or rects result whole) (drop (result + 1) rects) rect.now }
{
    let mut best = 0;
    let mut least = cost_of(&children[0], rect);
    for i in 1..children.len() {
        let cost = cost_of(&children[i], rect);
        if is_less(cost, least) {
            best = i;
            least = cost;
        }
    }
    best
}

/// The leaf that an entry with this rectangle goes to: from the root down, at each node to the child that
/// needs the least growth of area, of equal ones to the smallest, and of equal ones to the first.
///
/// Takes no memory. Costs the members of the nodes on one path.
pub fn choose_leaf(tree: &Tree, rect: &Rect) -> u64
    ensures { ReachesOf tree.now.table rect.now result }
{
    let mut number = tree.root();
    'down: while let Some(Node::Inner(children)) = tree.node(number) {
        let children = children.as_slice();
        number = children[choose_child(children, rect)].node;
    }
    number
}
