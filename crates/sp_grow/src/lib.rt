//! Insertion into an R-tree, after Guttman, "R-Trees", SIGMOD 1984: the leaf that it goes to, and the plan
//! of the nodes that it makes or changes; and the same insertion of a member of any level, into a tree with
//! changes that it has not taken.
#![tactic(auto)]

mod choice;
mod grown;
mod left;
mod member;
mod members;
mod planned;

pub use choice::choose_leaf;
pub use grown::{grow, insert};
pub use member::Member;
pub use members::bound_of_node;
pub use planned::Planned;

#[cfg(test)]
mod tests;
