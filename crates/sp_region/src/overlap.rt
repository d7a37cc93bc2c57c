// Tests on what holes leave of rectangles. None builds the list of what is left.
ghost use Rattle.std.specs.Prelude.{◌≡◌, ◌↔◌, ◌++◌, IsTrue, IfOk, OnOk};
ghost use Rattle.sp_region.specs.Region.{LeavesAny, Overlap, Exceeds};
ghost use Rattle.sp_region.specs.Cut.{IsShared};

use crate::cut::common;
use crate::pieces::{Piece, any_left, push_strip, push_strips, uncut};
use sp_rect::{Records2, Rect};
use std::alloc::{AllocError, Global};

/// Whether some point of the rectangle lies in none of the others: whether `minus` would give any
/// rectangle. It stops at the first piece that is left, and keeps at most three pieces for each of the
/// others besides the one at hand.
pub fn leaves_any(alloc: Global, rect: &Rect, others: &Records2) -> Result<bool, AllocError>
    ensures { IfOk result (λ any. IsTrue any ↔ LeavesAny rect.now others.now) }
{
    any_left(uncut(alloc, rect)?, others.as_slice())
}

// Both lists as one.
fn joined(alloc: Global, first: &Records2, second: &Records2) -> Result<Vec<Rect>, AllocError>
    ensures { IfOk result (λ all. all.items ≡ first.now ++ second.now) }
{
    let mut all = Vec::with_capacity(alloc, first.len() + second.len())?;
    all.extend_from_slice(first.as_slice())?;
    all.extend_from_slice(second.as_slice())?;
    Ok(all)
}

/// Whether the area that the holes leave of `rect` and the area that the other holes leave of `other`
/// have a point in common. It costs what `leaves_any` costs with the holes of both.
pub fn overlaps(
    alloc: Global,
    rect: &Rect,
    holes: &Records2,
    other: &Rect,
    other_holes: &Records2,
) -> Result<bool, AllocError>
    ensures { IfOk result (λ any. IsTrue any ↔ Overlap rect.now holes.now other.now other_holes.now) }
{
    match common(rect, other) {
        Some(shared) => {
            let all = joined(alloc, holes, other_holes)?;
            any_left(uncut(alloc, &shared)?, all.as_slice())
        }
        None => Ok(false),
    }
}

// Adds what the rectangle shares with each of the others, as pieces that wait for all the holes.
fn push_shared(pending: &mut Vec<Piece>, rect: &Rect, others: &[Rect]) -> Result<(), AllocError>
    ensures { OnOk result (IsShared rect.now others.now pending.old.items pending.new.items) }
{
    'sharing: for other in others {
        push_strip(pending, common(rect, other), 0)?;
    }
    Ok(())
}

/// Whether the area that the holes leave of `rect` has a point outside of the area that the other holes
/// leave of `other`: so the first would lose a point if the second took its place. It costs what
/// `leaves_any` costs for the strips of `rect` that lie outside of `other`, and for what `rect` shares
/// with each of the other holes.
pub fn exceeds(
    alloc: Global,
    rect: &Rect,
    holes: &Records2,
    other: &Rect,
    other_holes: &Records2,
) -> Result<bool, AllocError>
    ensures { IfOk result (λ any. IsTrue any ↔ Exceeds rect.now holes.now other.now other_holes.now) }
{
    let mut pending = Vec::new(alloc);
    push_strips(&mut pending, rect, other, 0)?;
    push_shared(&mut pending, rect, other_holes.as_slice())?;
    any_left(pending, holes.as_slice())
}
