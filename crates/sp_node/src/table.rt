// Nodes by their numbers.
ghost use Rattle.std.specs.Prelude.{◌≡◌, ◌+◌, ◌<◌, ◌≤◌, ◌-◌, [], Some, OnOk, IfSome, length, vec_len, vec_capacity};
ghost use Rattle.std.specs.Option.{option_copied};
ghost use Rattle.sp_node.specs.Look.{look, entries_in, IsAscending, put_node, take_out};
ghost use Rattle.sp_node.specs.Plan.{with_parts};
ghost use Rattle.sp_node.specs.First.{changed, node_first_changed, first_node_changed};

use crate::node::{Change, Children, Entry, Node, change_node};
use crate::plan::{Part, Parts};
use std::alloc::{AllocError, Global};
use std::marker::Model;
use std::mem;

/// Nodes by rising number, with room for more.
#[derive(Drop)]
pub(crate) struct NodeTable {
    alloc: Global,
    pairs: Vec<(u64, Node)>,
}

impl Model for NodeTable {
    ghost use Rattle.std.specs.Prelude.{◌-◌, vec_len, vec_capacity};
    ghost use Rattle.sp_node.specs.Look.{IsAscending};
    ghost use Rattle.sp_node.specs.Stock.{Stock};

    ghost Value = { Stock };

    ghost view = { λ a. record { nodes = a.pairs.items; room = vec_capacity a.pairs - vec_len a.pairs } };

    ghost invariant = { λ a. IsAscending a.pairs.items };
}

// Puts the node under its number.
fn put_pair(pairs: &mut Vec<(u64, Node)>, number: u64, node: Node)
    requires ascending { IsAscending pairs.old.items }
    requires room { vec_len pairs.old < vec_capacity pairs.old }
    ensures items { pairs.new.items ≡ put_node pairs.old.items number node }
    ensures room { vec_capacity pairs.old - vec_len pairs.old ≤ vec_capacity pairs.new - vec_len pairs.new + 1 }
{
    match pairs.binary_search_by_key(&number, |pair| pair.0) {
        Ok(at) => pairs[at] = (number, node),
        Err(at) => {
            let _ = pairs.insert(at, (number, node));
        }
    }
}

// Takes the node of this number out.
fn remove_pair(pairs: &mut Vec<(u64, Node)>, number: u64)
    requires { IsAscending pairs.old.items }
    ensures items { pairs.new.items ≡ take_out pairs.old.items number }
    ensures room { vec_capacity pairs.old - vec_len pairs.old ≤ vec_capacity pairs.new - vec_len pairs.new }
{
    if let Ok(at) = pairs.binary_search_by_key(&number, |pair| pair.0) {
        let _ = pairs.remove(at);
    }
}

// Changes the entry of this number in the leaf under the other.
fn change_pair(alloc: Global, pairs: &mut Vec<(u64, Node)>, leaf: u64, entry: u64, change: Change)
    requires { IsAscending pairs.old.items }
    ensures items { pairs.new.items ≡ first_node_changed leaf (node_first_changed entry (changed change)) pairs.old.items }
    ensures room { vec_capacity pairs.new - vec_len pairs.new ≡ vec_capacity pairs.old - vec_len pairs.old }
{
    if let Ok(at) = pairs.binary_search_by_key(&leaf, |pair| pair.0) {
        let pair = &mut pairs[at];
        let node = mem::replace(&mut pair.1, Node::Inner(Children::new(alloc)));
        pair.1 = change_node(node, entry, change);
    }
}

// The node of this number, where it stands as many places on: so it does while no node before it is gone.
fn at_its_number(pairs: &[(u64, Node)], number: u64) -> Option<&Node>
    requires { IsAscending pairs.now }
    ensures { IfSome (option_copied result) (λ node. look pairs.now number ≡ Some node) }
{
    let at = number.saturating_sub(1) as usize;
    let pair = pairs.get(at)?;
    if pair.0 == number {
        Some(&pair.1)
    } else {
        None
    }
}

// The node of this number.
fn searched(pairs: &[(u64, Node)], number: u64) -> Option<&Node>
    requires { IsAscending pairs.now }
    ensures { option_copied result ≡ look pairs.now number }
{
    match pairs.binary_search_by_key(&number, |pair| pair.0) {
        Ok(at) => Some(&pairs[at].1),
        Err(_) => None,
    }
}

impl NodeTable {
    pub(crate) fn new(alloc: Global) -> NodeTable
        ensures { result.nodes ≡ [] }
    {
        NodeTable {
            alloc,
            pairs: Vec::new(alloc),
        }
    }

    pub(crate) fn get(&self, number: u64) -> Option<&Node>
        ensures { option_copied result ≡ look self.now.nodes number }
    {
        match at_its_number(&self.pairs, number) {
            Some(node) => Some(node),
            None => searched(&self.pairs, number),
        }
    }

    /// The entries of the leaf of this number; none where it is no leaf's.
    pub(crate) fn entries(&self, number: u64) -> &[Entry]
        ensures { result.now ≡ entries_in (look self.now.nodes number) }
    {
        match self.get(number) {
            Some(node) => node.entries(),
            None => &[],
        }
    }

    // The numbers rise, as proofs about the table have to know.
    pub(crate) fn rises(&self)
        ensures { IsAscending self.now.nodes }
    {
        let _ = &self.pairs;
    }

    pub(crate) fn reserve(&mut self, additional: usize) -> Result<(), AllocError>
        ensures nodes { self.new.nodes ≡ self.old.nodes }
        ensures ok { OnOk result (additional ≤ self.new.room) }
        ensures room { self.old.room ≤ self.new.room }
    {
        self.pairs.reserve(additional)
    }

    pub(crate) fn put(&mut self, number: u64, node: Node)
        requires { 0 < self.old.room }
        ensures nodes { self.new.nodes ≡ put_node self.old.nodes number node }
        ensures room { self.old.room ≤ self.new.room + 1 }
    {
        put_pair(&mut self.pairs, number, node)
    }

    pub(crate) fn remove(&mut self, number: u64)
        ensures nodes { self.new.nodes ≡ take_out self.old.nodes number }
        ensures room { self.old.room ≤ self.new.room }
    {
        remove_pair(&mut self.pairs, number)
    }

    /// Changes the entry of this number in the leaf under the other.
    pub(crate) fn change(&mut self, leaf: u64, entry: u64, change: Change)
        ensures nodes { self.new.nodes ≡ first_node_changed leaf (node_first_changed entry (changed change)) self.old.nodes }
        ensures room { self.new.room ≡ self.old.room }
    {
        change_pair(self.alloc, &mut self.pairs, leaf, entry, change);
    }

    /// Makes what the parts say of the nodes.
    pub(crate) fn take(&mut self, parts: Parts)
        requires { length parts ≤ self.old.room }
        ensures { self.new.nodes ≡ with_parts self.old.nodes parts }
    {
        let mut parts = parts.into_vec();
        while let Some(part) = parts.pop() {
            match part {
                Part::Now(number, node) => self.put(number, node),
                Part::Gone(number) => self.remove(number),
            }
        }
    }
}
