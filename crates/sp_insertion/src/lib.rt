//! The insertion of an entry, as the kernel's definitions tell it.
#![tactic(auto)]

mod insertion;

pub use insertion::{insert, plan_insertion, plans_are_insertions};
