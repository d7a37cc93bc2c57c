// The way from the root to a leaf.
ghost use Rattle.std.specs.Prelude.{◌≡◌, IfOk, MatchOption};
ghost use Rattle.sp_node.specs.Look.{look};
ghost use Rattle.sp_node.specs.Table.{children_in};
ghost use Rattle.sp_condense.specs.Way.{Leads, IsNotBelow};

use sp_node::{Child, Node, Tree};
use sp_rect::Rect;
use std::alloc::{AllocError, Global};

// The children of the node of this number: none where it is a leaf.
fn children_of(tree: &Tree, number: u64) -> &[Child]
    ensures { result.now ≡ children_in (look tree.now.table.nodes number) }
{
    match tree.node(number) {
        Some(Node::Inner(children)) => children.as_slice(),
        _ => &[],
    }
}

/// The positions of the children on the way from the node to the leaf, or None where the leaf does not stand
/// at most so many steps below. The rectangle is one that the leaf's encloses, and so does each on the way: no
/// other node is looked at.
pub(crate) fn find(
    alloc: Global,
    tree: &Tree,
    number: u64,
    leaf: u64,
    rect: &Rect,
    steps: u32,
) -> Result<Option<Vec<usize>>, AllocError>
    ensures { IfOk result (λ found. MatchOption found (IsNotBelow (look tree.now.table.nodes) rect.now steps number leaf) (λ path. Leads (look tree.now.table.nodes) number path.items leaf)) }
{
    if number == leaf {
        return Ok(Some(Vec::new(alloc)));
    }
    if steps == 0 {
        return Ok(None);
    }
    let children = children_of(tree, number);
    'children: for i in 0..children.len() {
        if children[i].rect.encloses(rect) {
            if let Some(mut path) = find(alloc, tree, children[i].node, leaf, rect, steps - 1)? {
                path.insert(0, i)?;
                return Ok(Some(path));
            }
        }
    }
    Ok(None)
}
