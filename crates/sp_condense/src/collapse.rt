// The root with one child.
ghost use Rattle.std.specs.Prelude.{◌≡◌, ◌<◌, ℕ, [], OnOk, MatchOption};
ghost use Rattle.sp_node.specs.declared.node.Entry.{Entry};
ghost use Rattle.sp_grow.specs.Overlay.{with_root, with_one};
ghost use Rattle.sp_condense.specs.Staging.{at_of, HasOnly, HasNotOne, IsStage, IsEnd};

use sp_grow::Planned;
use sp_node::{Node, Part};
use std::alloc::AllocError;

// The one child, where the root has one.
fn only_child(tree: &Planned<'_>) -> Option<u64>
    ensures { MatchOption result (HasNotOne tree.now) (HasOnly tree.now) }
{
    match tree.node(tree.root()) {
        Some(Node::Inner(children)) => match children.as_slice() {
            [child] => Some(child.node),
            _ => None,
        },
        _ => None,
    }
}

// Puts the child in the root's place.
fn descend(tree: &mut Planned<'_>, child: u64) -> Result<(), AllocError>
    ensures { OnOk result (tree.new ≡ with_root (with_one tree.old (Part.Gone tree.old.plan.root)) child) }
{
    tree.put(Part::Gone(tree.root()))?;
    tree.set_root(child);
    Ok(())
}

/// Puts the child in the root's place, as often as the root is no leaf and has one child.
pub(crate) fn collapse(tree: &mut Planned<'_>) -> Result<(), AllocError>
    requires { (e : Entry) × (level : ℕ) × IsStage tree.old.before e (at_of tree.old) tree.old.plan.root tree.old.plan.next level [] }
    ensures { OnOk result ((e : Entry) (level : ℕ) → IsStage tree.old.before e (at_of tree.old) tree.old.plan.root tree.old.plan.next level [] → IsEnd e tree.old level tree.new) }
{
    'down: while let Some(child) = only_child(tree) {
        descend(tree, child)?;
    }
    Ok(())
}
