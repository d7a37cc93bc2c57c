// Reading a tree node by node.
ghost use Rattle.std.specs.Prelude.{◌≡◌, ℕ, List, [], ◌∷◌, ◌++◌, Option, Some, None, OnOk, OnErr};
ghost use Rattle.std.specs.Option.{option_copied, option_map, option_and_then};
ghost use Rattle.sp_node.specs.Look.{look};
ghost use Rattle.sp_node.specs.Reading.{silent, telling};
ghost use Rattle.sp_node.specs.Table.{Table, IsValid, told};

use crate::node::Node;
use crate::tree::Tree;
use sp_rect::Numbers;
use std::alloc::{AllocError, Global};
use std::marker::Model;

/// A valid tree that is read node by node.
pub trait Pages {
    /// The tree, which no call changes.
    ghost tree: { Self → Table };

    /// Where it stands.
    ghost at: { Self → Option ℕ };

    /// The numbers looked at so far, where they are told.
    ghost looks: { Self → Option (List ℕ) };

    fn root(&self) -> u64
        ensures value { result ≡ (tree self.now).root }
        ensures valid { IsValid (tree self.now) };

    /// Looks at a node.
    fn go(&mut self, node: u64) -> Result<(), AllocError>
        ensures tree { tree self.new ≡ tree self.old }
        ensures at { OnOk result (at self.new ≡ Some node) }
        ensures looks { OnOk result (looks self.new ≡ told (looks self.old) (node ∷ [])) }
        ensures err { OnErr result (looks self.new ≡ looks self.old) };

    /// The node looked at last, or None before the first look and where the tree lacks its number.
    fn here(&self) -> Option<&Node>
        ensures { option_copied result ≡ option_and_then (look (tree self.now).nodes) (at self.now) };
}

/// Reads a tree.
#[derive(Drop)]
pub struct Cursor<'a> {
    tree: &'a Tree,
    at: Option<u64>,
}

impl<'a> Model for Cursor<'a> {
    ghost use Rattle.std.specs.Prelude.{None};
    ghost use Rattle.sp_node.specs.Reading.{Reading};

    ghost Value = { Reading };

    ghost view = { λ a. record { tree = a.tree.now.table; at = a.at; looks = None } };
}

impl<'a> Cursor<'a> {
    /// A reader of the tree that tells no looks. Takes no memory.
    pub fn new(tree: &'a Tree) -> Cursor<'a>
        ensures { result ≡ silent tree.now.table }
    {
        Cursor { tree, at: None }
    }
}

impl Pages for Cursor<'_> {
    ghost tree = { λ c. c.tree };

    ghost at = { λ c. c.at };

    ghost looks = { λ c. c.looks };

    fn root(&self) -> u64 {
        self.tree.root()
    }

    fn go(&mut self, node: u64) -> Result<(), AllocError> {
        self.at = Some(node);
        Ok(())
    }

    fn here(&self) -> Option<&Node> {
        self.tree.node(self.at?)
    }
}

/// Reads a tree, and tells the numbers of the nodes that it looked at.
#[derive(Drop)]
pub struct Traced<'a> {
    tree: &'a Tree,
    at: Option<u64>,
    looks: Numbers,
}

impl<'a> Model for Traced<'a> {
    ghost use Rattle.std.specs.Prelude.{Some};
    ghost use Rattle.sp_node.specs.Reading.{Reading};

    ghost Value = { Reading };

    ghost view = { λ a. record { tree = a.tree.now.table; at = a.at; looks = Some a.looks } };
}

impl<'a> Traced<'a> {
    /// A reader of the tree that has looked at no node. Takes no memory.
    pub fn new(alloc: Global, tree: &'a Tree) -> Traced<'a>
        ensures { result ≡ telling tree.now.table }
    {
        Traced {
            tree,
            at: None,
            looks: Numbers::new(alloc),
        }
    }

    /// The numbers of the nodes that it looked at, in order.
    pub fn looks(&self) -> &Numbers
        ensures { Some result.now ≡ self.now.looks }
    {
        &self.looks
    }
}

impl Pages for Traced<'_> {
    ghost tree = { λ c. c.tree };

    ghost at = { λ c. c.at };

    ghost looks = { λ c. c.looks };

    fn root(&self) -> u64 {
        self.tree.root()
    }

    fn go(&mut self, node: u64) -> Result<(), AllocError> {
        self.looks.push(node)?;
        self.at = Some(node);
        Ok(())
    }

    fn here(&self) -> Option<&Node> {
        self.tree.node(self.at?)
    }
}
