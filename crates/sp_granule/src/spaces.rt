// The space of a node.
ghost use Rattle.std.specs.Prelude.{◌≡◌, Some, map, is_some};
ghost use Rattle.sp_rect.specs.Plane.{whole};
ghost use Rattle.sp_rect.specs.Inside.{bound_of};
ghost use Rattle.sp_node.specs.Look.{look};
ghost use Rattle.sp_granule.specs.Granules.{granules, space_of, member_rects};

use sp_node::{Child, Entry, Node, Overlay, Tree};
use sp_rect::{Rect, WHOLE};

// The bound of the entries' rectangles, where there are entries.
fn bound_of_entries(entries: &[Entry]) -> Option<Rect>
    ensures { result ≡ bound_of (map (λ e. e.rect) entries.now) }
{
    let (first, rest) = entries.split_first()?;
    let mut bound = first.rect;
    'bounding: for entry in rest {
        bound = bound.bound(&entry.rect);
    }
    Some(bound)
}

// The bound of the children's rectangles, where there are children.
fn bound_of_children(children: &[Child]) -> Option<Rect>
    ensures { result ≡ bound_of (map (λ c. c.rect) children.now) }
{
    let (first, rest) = children.split_first()?;
    let mut bound = first.rect;
    'bounding: for child in rest {
        bound = bound.bound(&child.rect);
    }
    Some(bound)
}

// The bound of the members' rectangles, where there are members.
fn bound_of_members(node: &Node) -> Option<Rect>
    ensures { result ≡ bound_of (member_rects node.now) }
{
    match node {
        Node::Leaf(entries) => bound_of_entries(entries.as_slice()),
        Node::Inner(children) => bound_of_children(children.as_slice()),
    }
}

/// The space of a node: all of space for the root, and for any other node its rectangle in its parent.
/// `None` comes exactly where the tree lacks the number. Takes no memory. It costs the members of the
/// node, whose bound that rectangle is.
pub fn space_in(overlay: &Overlay, node: u64) -> Option<Rect>
    ensures value { result ≡ space_of (granules overlay.now) node }
    ensures some { is_some result ≡ is_some (look overlay.now.nodes node) }
    ensures root { node ≡ overlay.now.root → result ≡ Some whole }
{
    if node == overlay.root() {
        return Some(WHOLE);
    }
    bound_of_members(overlay.node(node)?)
}

/// The same of a tree as it stands.
pub fn space(tree: &Tree, node: u64) -> Option<Rect>
    ensures value { result ≡ space_of (granules tree.now.table) node }
    ensures some { is_some result ≡ is_some (look tree.now.table.nodes node) }
    ensures root { node ≡ tree.now.table.root → result ≡ Some whole }
{
    space_in(&Overlay::of(tree), node)
}
