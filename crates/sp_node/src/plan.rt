// Plans: what a change makes of a tree.
ghost use Rattle.std.specs.Prelude.{◌≡◌, ◌∷◌, ◌++◌, ◌≤◌, length, take, drop, if◌then◌else◌, is_ok};
ghost use Rattle.std.specs.Option.{option_copied};
ghost use Rattle.sp_node.specs.Look.{entries_in};
ghost use Rattle.sp_node.specs.Plan.{number_of, content, put_part};
ghost use Rattle.sp_node.specs.declared.plan.Part.{Part};

use crate::node::{Entry, Node};
use sp_list::Sequence;
use std::alloc::AllocError;

/// What a change makes of one node.
#[derive(Drop)]
pub enum Part {
    /// A new node, or a changed one with its new content.
    Now(u64, Node),
    /// A node that is not there any more.
    Gone(u64),
}

impl Part {
    /// The number of the node that the part names.
    pub fn number(&self) -> u64
        ensures { result ≡ number_of self.now }
    {
        match self {
            Part::Now(number, _) => *number,
            Part::Gone(number) => *number,
        }
    }

    /// The node that the part leaves under its number, or None where it leaves none.
    pub fn node(&self) -> Option<&Node>
        ensures { option_copied result ≡ content self.now }
    {
        match self {
            Part::Now(_, node) => Some(node),
            Part::Gone(_) => None,
        }
    }

    /// The entries of a leaf that the part makes.
    pub fn entries(&self) -> &[Entry]
        ensures { result.now ≡ entries_in (content self.now) }
    {
        match self {
            Part::Now(_, node) => node.entries(),
            Part::Gone(_) => &[],
        }
    }
}

// How many parts with smaller numbers stand in front.
fn place_of(parts: &[Part], number: u64) -> usize
    ensures within { result ≤ length parts.now }
    ensures parts { (part : Part) → number_of part ≡ number → put_part parts.now part ≡ take result parts.now ++ part ∷ drop result parts.now }
{
    for (i, part) in parts.iter().enumerate() {
        if part.number() >= number {
            return i;
        }
    }
    parts.len()
}

/// The nodes that a change makes, changes or drops, by ascending number.
pub type Parts = Sequence<Part>;

/// Puts the part in front of those with larger numbers. Where there is no memory the parts are as they
/// were. Costs the parts.
pub fn put_part(parts: &mut Parts, part: Part) -> Result<(), AllocError>
    ensures { parts.new ≡ (if is_ok result then put_part parts.old part else parts.old) }
{
    let at = place_of(parts.as_slice(), part.number());
    parts.insert(at, part)
}

/// A tree after a change: exactly the nodes that differ, by ascending number, its root, and its next node
/// number.
#[derive(Drop)]
pub struct Plan {
    pub parts: Parts,
    pub root: u64,
    pub next: u64,
}
