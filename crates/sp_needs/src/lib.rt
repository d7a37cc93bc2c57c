//! The short locks that a change of the tree wants, after Chakrabarti and Mehrotra ("Dynamic Granular
//! Locking Approach to Phantom Protection in R-Trees", ICDE 1998): IX on what loses points or is gone, IX on
//! what has a point that a leaf gains from none of the leaves that are locked anyway, and SIX on a leaf out of
//! which an entry moves. They come from the nodes that the change touches and from the granules that the
//! gained points lie in, never from the whole trees.
#![tactic(auto)]

mod area;
mod differing;
mod gained;
mod givers;
mod lost;
mod needs;
mod reached;

pub use needs::short_needs;
