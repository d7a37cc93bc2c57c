// A tree as it stands after changes that it has not taken.
ghost use Rattle.std.specs.Prelude.{◌≡◌, ◌<◌, ◌≤◌, ℕ, length, if◌then◌else◌, is_ok, OnOk};
ghost use Rattle.std.specs.Bool.{MatchBool};
ghost use Rattle.std.specs.Option.{option_copied};
ghost use Rattle.sp_node.specs.Look.{look};
ghost use Rattle.sp_node.specs.Plan.{AreOrdered};
ghost use Rattle.sp_grow.specs.Overlay.{unchanged, table_of, part_of, number_in, IsAt, renewed, all_renewed, with_one, with_root, with_plan};

use sp_node::{Node, Part, Plan, Shape, Tree};
use std::alloc::{AllocError, Global};
use std::marker::Model;

/// A tree as it stands after changes that it has not taken.
#[derive(Drop)]
pub struct Planned<'a> {
    tree: &'a Tree,
    parts: Vec<Part>,
    root: u64,
    next: u64,
}

impl<'a> Model for Planned<'a> {
    ghost use Rattle.sp_node.specs.Plan.{AreOrdered};
    ghost use Rattle.sp_grow.specs.Overlay.{Overlay};

    ghost Value = { Overlay };

    ghost view = { λ a. record {
      before = a.tree.now.table;
      plan = record { parts = a.parts.items; root = a.root; next = a.next };
    } };

    ghost invariant = { λ a. AreOrdered a.parts.items };
}

// The part of this number.
fn part_of(parts: &[Part], number: u64) -> Option<&Part>
    ensures { option_copied result ≡ part_of parts.now number }
{
    for part in parts {
        if part.number() == number {
            return Some(part);
        }
    }
    None
}

// How many parts with smaller numbers stand in front.
fn place_of(parts: &[Part], number: u64) -> usize
    ensures within { result ≤ length parts.now }
    ensures below { (j : ℕ) → j < result → number_in parts.now j < number }
    ensures above { result < length parts.now → number ≤ number_in parts.now result }
{
    for (i, part) in parts.iter().enumerate() {
        if part.number() >= number {
            return i;
        }
    }
    parts.len()
}

// Whether the part at this place has the number.
fn is_at(parts: &[Part], at: usize, number: u64) -> bool
    ensures { MatchBool result (IsAt parts.now at number) (¬ (IsAt parts.now at number)) }
{
    if at < parts.len() {
        parts[at].number() == number
    } else {
        false
    }
}

// Puts the part among the others, in place of one of the same number.
fn renew(parts: &mut Vec<Part>, part: Part) -> Result<(), AllocError>
    ensures { parts.new.items ≡ (if is_ok result then renewed parts.old.items part else parts.old.items) }
{
    let number = part.number();
    let at = place_of(parts.as_slice(), number);
    if is_at(parts.as_slice(), at, number) {
        parts[at] = part;
    } else {
        parts.insert(at, part)?;
    }
    Ok(())
}

// Puts all the parts among the others so.
fn renew_all(parts: &mut Vec<Part>, mut more: Vec<Part>) -> Result<(), AllocError>
    ensures ok { OnOk result (parts.new.items ≡ all_renewed parts.old.items more.items) }
    ensures ordered { AreOrdered parts.old.items → AreOrdered parts.new.items }
{
    while let Some(part) = more.pop() {
        renew(parts, part)?;
    }
    Ok(())
}

impl<'a> Planned<'a> {
    /// The tree as it is. Takes no memory.
    pub fn new(alloc: Global, tree: &'a Tree) -> Planned<'a>
        ensures { result ≡ unchanged tree.now.table }
    {
        Planned {
            tree,
            parts: Vec::new(alloc),
            root: tree.root(),
            next: tree.next(),
        }
    }

    /// The tree without the changes.
    pub fn tree(&self) -> &Tree
        ensures { result.now.table ≡ self.now.before }
    {
        self.tree
    }

    /// The least and the most members of a node.
    pub fn shape(&self) -> Shape
        ensures { result ≡ self.now.before.shape }
    {
        self.tree.shape()
    }

    /// The number of the root.
    pub fn root(&self) -> u64
        ensures { result ≡ self.now.plan.root }
    {
        self.root
    }

    /// The next node number.
    pub fn next(&self) -> u64
        ensures { result ≡ self.now.plan.next }
    {
        self.next
    }

    /// The node of this number, or None exactly where there is none. Costs the changes and a binary search.
    pub fn node(&self, number: u64) -> Option<&Node>
        ensures { option_copied result ≡ look (table_of self.now).nodes number }
    {
        match part_of(self.parts.as_slice(), number) {
            Some(Part::Now(_, node)) => Some(node),
            Some(Part::Gone(_)) => None,
            None => self.tree.node(number),
        }
    }

    /// Makes, changes or drops one node. Where there is no memory all is as it was. Costs the changes.
    pub fn put(&mut self, part: Part) -> Result<(), AllocError>
        ensures { self.new ≡ (if is_ok result then with_one self.old part else self.old) }
    {
        renew(&mut self.parts, part)
    }

    /// The root is the node of this number.
    pub fn set_root(&mut self, root: u64)
        ensures { self.new ≡ with_root self.old root }
    {
        self.root = root;
    }

    /// Takes a plan that is for the tree as it stands here. Costs the plan's parts times all changes.
    pub fn take(&mut self, plan: Plan) -> Result<(), AllocError>
        ensures { OnOk result (self.new ≡ with_plan self.old plan) }
    {
        renew_all(&mut self.parts, plan.parts.into_vec())?;
        self.root = plan.root;
        self.next = plan.next;
        Ok(())
    }

    /// The changes, by ascending number.
    pub fn into_parts(self) -> Vec<Part>
        ensures parts { result.items ≡ self.entry.plan.parts }
        ensures ordered { AreOrdered result.items }
    {
        self.parts
    }
}
