//! Granules of a tree: the parts of space that its nodes stand for and that locks name, after Chakrabarti
//! and Mehrotra ("Dynamic Granular Locking Approach to Phantom Protection in R-Trees", ICDE 1998). A leaf
//! has its space, an inner node what its children leave of its space, and together they cover all of space.
#![tactic(auto)]

mod cover;
mod descent;
mod meeting;
mod spaces;

pub use cover::granules_cover_space;
pub use descent::granule_at;
pub use meeting::{granules_meeting, granules_meeting_in};
pub use spaces::{space, space_in};

#[cfg(test)]
mod tests;
