// The groups of a split, done and in the making.
ghost use Rattle.std.specs.Prelude.{◌≡◌, ◌<◌, [], ◌∷◌, ◌++◌, OnOk, IfOk, length};
ghost use Rattle.sp_rect.specs.Plane.{bound};
ghost use Rattle.sp_split.specs.Split.{rect_at};

use sp_rect::{Numbers, Rect};
use std::alloc::{AllocError, Global};

/// The two groups of a split: positions of rectangles counted from 0, ascending in each group.
#[derive(Drop)]
pub struct Groups {
    pub first: Numbers,
    pub second: Numbers,
}

/// A group in the making: its members in the order in which they came, and their bound.
#[derive(Drop)]
pub(crate) struct Group {
    pub(crate) members: Vec<u64>,
    pub(crate) bound: Rect,
}

impl Group {
    pub(crate) fn new(alloc: Global, rects: &[Rect], seed: usize) -> Result<Group, AllocError>
        requires { seed < length rects.now }
        ensures members { IfOk result (λ g. g.members.items ≡ seed ∷ []) }
        ensures bound { IfOk result (λ g. g.bound ≡ rect_at rects.now seed) }
    {
        let mut members = Vec::new(alloc);
        members.push(seed as u64)?;
        Ok(Group {
            members,
            bound: rects[seed],
        })
    }

    pub(crate) fn add(&mut self, rects: &[Rect], position: usize) -> Result<(), AllocError>
        requires { position < length rects.now }
        ensures members { OnOk result (self.new.members.items ≡ self.old.members.items ++ position ∷ []) }
        ensures bound { OnOk result (self.new.bound ≡ bound self.old.bound (rect_at rects.now position)) }
    {
        self.members.push(position as u64)?;
        self.bound = self.bound.bound(&rects[position]);
        Ok(())
    }
}
