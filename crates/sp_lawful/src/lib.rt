//! Changes of a tree are those that the laws of protection speak of: an insertion, as Guttman's algorithm
//! makes it, keeps what stood in the tree, and moves entries to new leaves alone.
#![tactic(auto)]

mod insertion;

pub use insertion::{insertions_are_lawful, puts_keep_all};
