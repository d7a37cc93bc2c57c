// The tree that a plan gives, read without making it.
ghost use Rattle.std.specs.Prelude.{◌≡◌, MatchOption};
ghost use Rattle.std.specs.Option.{option_copied};
ghost use Rattle.sp_node.specs.Index.{part_named};
ghost use Rattle.sp_node.specs.Look.{look};
ghost use Rattle.sp_node.specs.Plan.{AreOrdered, planned, IsMadeOf};
ghost use Rattle.sp_node.specs.Standing.{IsNodeOf, HasNoNode};
ghost use Rattle.sp_node.specs.Table.{IsValid};

use crate::node::Node;
use crate::plan::{Part, Plan};
use crate::tree::Tree;
use std::marker::Model;

/// A valid tree that is read node by node: a tree as it stands, or the one that a plan gives in its place,
/// with the plan's parts laid over the tree's nodes. It borrows both, and copies and makes nothing.
#[derive(Drop)]
pub struct Overlay<'a> {
    tree: &'a Tree,
    parts: &'a [Part],
    root: u64,
    next: u64,
}

impl<'a> Model for Overlay<'a> {
    ghost use Rattle.sp_node.specs.Plan.{with_parts, AreOrdered};
    ghost use Rattle.sp_node.specs.Table.{Table, IsValid};

    ghost Value = { Table };

    ghost view = { λ a. record {
      shape = a.tree.now.table.shape;
      root = a.root;
      next = a.next;
      nodes = with_parts a.tree.now.table.nodes a.parts.now;
    } };

    ghost invariant = { λ a. record {
      valid : IsValid (record { shape = a.tree.now.table.shape; root = a.root; next = a.next; nodes = with_parts a.tree.now.table.nodes a.parts.now });
      ordered : AreOrdered a.parts.now;
    } };
}

// What the parts say of the node of this number, or None where none of them names it.
fn part_named(parts: &[Part], number: u64) -> Option<&Part>
    requires { AreOrdered parts.now }
    ensures { option_copied result ≡ part_named parts.now number }
{
    match parts.binary_search_by_key(&number, |part| part.number()) {
        Ok(at) => Some(&parts[at]),
        Err(_) => None,
    }
}

impl<'a> Overlay<'a> {
    /// The tree as it stands. Takes no memory.
    pub fn of(tree: &'a Tree) -> Overlay<'a>
        ensures { result ≡ tree.now.table }
    {
        Overlay {
            tree,
            parts: &[],
            root: tree.root(),
            next: tree.next(),
        }
    }

    /// The tree that the plan gives in place of this one. Takes no memory.
    pub fn planned(tree: &'a Tree, plan: &'a Plan) -> Overlay<'a>
        requires { IsMadeOf tree.now.table plan.now }
        ensures { result ≡ planned tree.now.table plan.now }
    {
        Overlay {
            tree,
            parts: plan.parts.as_slice(),
            root: plan.root,
            next: plan.next,
        }
    }

    /// The number of the root.
    pub fn root(&self) -> u64
        ensures value { result ≡ self.now.root }
        ensures valid { IsValid self.now }
    {
        self.root
    }

    /// The node of this number, or None exactly where the tree lacks the number. Costs two binary searches.
    pub fn node(&self, number: u64) -> Option<&Node>
        ensures value { option_copied result ≡ look self.now.nodes number }
        ensures stands { MatchOption (option_copied result) (HasNoNode self.now number) (IsNodeOf self.now number) }
        ensures valid { IsValid self.now }
    {
        let _ = &self.root;
        self.find(number)
    }

    // What the parts say of the node, and else the tree.
    fn find(&self, number: u64) -> Option<&Node>
        ensures { option_copied result ≡ look self.now.nodes number }
    {
        match part_named(self.parts, number) {
            Some(part) => part.node(),
            None => self.tree.node(number),
        }
    }
}
