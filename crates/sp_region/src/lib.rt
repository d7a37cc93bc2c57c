//! What rectangles leave of a rectangle, point by point: the exact difference as disjoint rectangles, the
//! test whether any point is left, and whether two rectangles with holes overlap or one exceeds the other.
#![tactic(auto)]

mod cut;
mod overlap;
mod pieces;
mod region;

pub use cut::common;
pub use overlap::{exceeds, leaves_any, overlaps};
pub use region::{Region, minus};

#[cfg(test)]
mod tests;
