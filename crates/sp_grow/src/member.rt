// What is inserted: a member of a node of some level.
ghost use Rattle.std.specs.Prelude.{◌≡◌};
ghost use Rattle.sp_grow.specs.Members.{rect_of_member, goes_below};

use sp_node::{Child, Entry};
use sp_rect::Rect;

/// A member of a node, to be inserted at its level.
#[derive(Drop)]
pub enum Member {
    /// An entry, which goes to a leaf.
    Entry(Entry),
    /// A node with the bound of its rectangles, which goes to a node of the level above it.
    Child(Child),
}

impl Member {
    /// Its rectangle.
    pub fn rect(&self) -> Rect
        ensures { result ≡ rect_of_member self.now }
    {
        match self {
            Member::Entry(entry) => entry.rect,
            Member::Child(child) => child.rect,
        }
    }

    /// Whether it goes below an inner node, where the node that a child goes to is so many steps below.
    pub(crate) fn goes_below(&self, steps: usize) -> bool
        ensures { result ≡ goes_below self.now steps }
    {
        match self {
            Member::Entry(_) => true,
            Member::Child(_) => steps > 0,
        }
    }
}
