//! Removal from an R-tree, after Guttman, "R-Trees", SIGMOD 1984: the plan of the nodes that it makes,
//! changes or drops.
#![tactic(auto)]

mod collapse;
mod orphans;
mod path;
mod removed;
mod rest;
mod same;

pub use removed::remove;

#[cfg(test)]
mod tests;
