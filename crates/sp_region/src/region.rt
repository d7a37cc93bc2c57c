// Regions: lists of disjoint rectangles.
ghost use Rattle.std.specs.Prelude.{◌≡◌, IfOk};
ghost use Rattle.sp_rect.specs.Plane.{Point, holds};
ghost use Rattle.std.specs.List.{count_by};
ghost use Rattle.sp_region.specs.Region.{covered, is_left, AreDisjoint};
ghost use Rattle.sp_region.specs.Cut.{times_left};

use crate::pieces::{Piece, next_left, uncut};
use sp_rect::{Records2, Rect};
use std::alloc::{AllocError, Global};
use std::marker::Model;

/// A set of points, as a list of rectangles of which no two share a point.
#[derive(Drop)]
pub struct Region {
    rects: Records2,
}

impl Model for Region {
    ghost use Rattle.std.specs.Prelude.{List};
    ghost use Rattle.sp_rect.specs.Plane.{Rectangle};
    ghost use Rattle.sp_region.specs.Region.{AreDisjoint};

    ghost Value = { List Rectangle };

    ghost view = { λ r. r.rects };

    ghost invariant = { λ r. AreDisjoint r.rects };
}

impl Region {
    /// The rectangles, of which no two share a point.
    pub fn rects(&self) -> &[Rect]
        ensures value { result.now ≡ self.now }
        ensures disjoint { AreDisjoint self.now }
    {
        self.rects.as_slice()
    }
}

// All that the others leave of the pieces.
fn all_left(alloc: Global, mut pending: Vec<Piece>, others: &[Rect]) -> Result<Records2, AllocError>
    ensures { IfOk result (λ left. (p : Point) → count_by (λ r. holds r p) left ≡ times_left others.now pending.items p) }
{
    let mut left = Records2::new(alloc);
    'taking: loop {
        match next_left(&mut pending, others)? {
            None => return Ok(left),
            Some(rect) => left.push(rect)?,
        }
    }
}

/// The points of the rectangle that lie in none of the others, as disjoint rectangles.
///
/// A piece is cut by each of the others that it meets, into at most four strips: left and right of it over
/// the whole height, then below and above it. Of n others at most (n + 1) * (2n + 1) pieces are left, since
/// each has a lower left corner of its own, on a line right of one of the others and on a line along one of
/// them; n / 2 bars across n / 2 others do leave about n * n / 4. It costs the pieces times the others.
pub fn minus(alloc: Global, rect: &Rect, others: &Records2) -> Result<Region, AllocError>
    ensures points { IfOk result (λ region. (p : Point) → covered region p ≡ is_left rect.now others.now p) }
    ensures disjoint { IfOk result (λ region. AreDisjoint region) }
{
    let pending = uncut(alloc, rect)?;
    let rects = all_left(alloc, pending, others.as_slice())?;
    Ok(Region { rects })
}
