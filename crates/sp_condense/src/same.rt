// Parts that say what stands already.
ghost use Rattle.std.specs.Prelude.{◌≡◌, map};
ghost use Rattle.std.specs.Bool.{MatchBool};
ghost use Rattle.sp_node.specs.Plan.{Differs};
ghost use Rattle.sp_condense.specs.Staging.{SameMembers, Agrees};

use sp_node::{Child, Entry, Node, Part, Tree};

// Whether the lists name the same entries.
fn same_entries(a: &[Entry], b: &[Entry]) -> bool
    ensures { MatchBool result (map (λ e. e.number) a.now ≡ map (λ e. e.number) b.now) (¬ (a.now ≡ b.now)) }
{
    if a.len() != b.len() {
        return false;
    }
    for i in 0..a.len() {
        if a[i].number != b[i].number {
            return false;
        }
    }
    true
}

// Whether the child is the other.
fn is_same(a: &Child, b: &Child) -> bool
    ensures { MatchBool result (a.now ≡ b.now) (¬ (a.now ≡ b.now)) }
{
    a == b
}

// Whether the children are the same.
fn same_children(a: &[Child], b: &[Child]) -> bool
    ensures { MatchBool result (a.now ≡ b.now) (¬ (a.now ≡ b.now)) }
{
    if a.len() != b.len() {
        return false;
    }
    for i in 0..a.len() {
        if !is_same(&a[i], &b[i]) {
            return false;
        }
    }
    true
}

// Whether the nodes have the same members.
fn same_node(a: &Node, b: &Node) -> bool
    ensures { MatchBool result (SameMembers a.now b.now) (¬ (a.now ≡ b.now)) }
{
    match (a, b) {
        (Node::Leaf(a), Node::Leaf(b)) => same_entries(a.as_slice(), b.as_slice()),
        (Node::Inner(a), Node::Inner(b)) => same_children(a.as_slice(), b.as_slice()),
        _ => false,
    }
}

/// Whether the part names a node that the tree has otherwise.
pub(crate) fn differs(tree: &Tree, part: &Part) -> bool
    ensures { MatchBool result (Differs tree.now.table.nodes part.now) (Agrees tree.now.table.nodes part.now) }
{
    match part {
        Part::Now(number, node) => match tree.node(*number) {
            Some(before) => !same_node(before, node),
            None => true,
        },
        Part::Gone(number) => tree.node(*number).is_some(),
    }
}
