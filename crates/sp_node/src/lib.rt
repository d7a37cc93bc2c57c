//! R-trees as tables of numbered nodes, after Guttman ("R-Trees", SIGMOD 1984): entries and the marks of
//! transactions on them, trees that are always valid, searches over them, and plans, which say what a
//! change makes of a tree.
#![tactic(auto)]

mod index;
mod marks;
mod node;
mod overlay;
mod pages;
mod pair_index;
mod plan;
mod search;
mod table;
#[cfg(test)]
mod tests;
mod tree;

pub use marks::{Draft, Ended, Made, Marks};
pub use node::{Child, Children, Entries, Entry, Node, Nodes, Shape};
pub use overlay::Overlay;
pub use pages::{Cursor, Pages, Traced};
pub use plan::{Part, Parts, Plan, put_part};
pub use search::meeting;
pub use tree::Tree;
