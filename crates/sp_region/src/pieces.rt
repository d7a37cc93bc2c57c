// Pieces of a rectangle that wait to be cut by the others. A piece that no other meets any more is left.
ghost use Rattle.std.specs.Prelude.{◌≡◌, ◌↔◌, ◌+◌, ◌<◌, ◌≤◌, ◌++◌, ◌∷◌, [], length, drop, IsTrue, OnOk, IfOk, IfNone, IfSome};
ghost use Rattle.sp_rect.specs.Plane.{Point, IsRectangle, holds};
ghost use Rattle.sp_region.specs.Region.{is_left, held_by};
ghost use Rattle.sp_region.specs.Cut.{piece, pieces_of, IsCut, IsAnyLeft, one, times_left, burden};

use crate::cut::{left_strip, lower_strip, right_strip, upper_strip};
use sp_rect::Rect;
use std::alloc::{AllocError, Global};

/// A rectangle, and the place of the first of the others that may still have to be cut out of it.
#[derive(Clone, Copy)]
pub(crate) struct Piece {
    pub rect: Rect,
    pub next: usize,
}

// The place of the first of the others, from that place on, that meets the rectangle.
fn first_meeting(rect: &Rect, others: &[Rect], from: usize) -> Option<usize>
    ensures none { IfNone result ((p : Point) → is_left rect.now (drop from others.now) p ≡ holds rect.now p) }
    ensures some { IfSome result (λ at. (p : Point) → is_left rect.now (drop from others.now) p ≡ is_left rect.now (drop at others.now) p) }
    ensures within { IfSome result (λ at. at < length others.now) }
    ensures behind { IfSome result (λ at. from ≤ at) }
{
    'seeking: for at in from..others.len() {
        if rect.meets(&others[at]) {
            return Some(at);
        }
    }
    None
}

/// Adds the strip, if there is one.
pub(crate) fn push_strip(
    pending: &mut Vec<Piece>,
    strip: Option<Rect>,
    next: usize,
) -> Result<(), AllocError>
    ensures { OnOk result (pending.new.items ≡ pending.old.items ++ pieces_of strip next) }
{
    if let Some(rect) = strip {
        pending.push(Piece { rect, next })?;
    }
    Ok(())
}

/// Adds the strips that the other leaves of the rectangle.
pub(crate) fn push_strips(
    pending: &mut Vec<Piece>,
    rect: &Rect,
    other: &Rect,
    next: usize,
) -> Result<(), AllocError>
    ensures { OnOk result (IsCut rect.now other.now next pending.old.items pending.new.items) }
{
    push_strip(pending, left_strip(rect, other), next)?;
    push_strip(pending, right_strip(rect, other), next)?;
    push_strip(pending, lower_strip(rect, other), next)?;
    push_strip(pending, upper_strip(rect, other), next)
}

// The same rectangle, which lies in space as each rectangle does.
fn as_left(rect: Rect) -> Rect
    ensures same { result ≡ rect }
    ensures valid { IsRectangle result }
{
    let _left = rect.x1();
    rect
}

/// Cuts the pieces until one is left, and takes that one out: `None` exactly where nothing is left.
pub(crate) fn next_left(
    pending: &mut Vec<Piece>,
    others: &[Rect],
) -> Result<Option<Rect>, AllocError>
    ensures points { IfOk result (λ left. (p : Point) → times_left others.now pending.old.items p ≡ one (held_by left p) + times_left others.now pending.new.items p) }
    ensures none { IfOk result (λ left. IfNone left (pending.new.items ≡ [])) }
    ensures valid { IfOk result (λ left. IfSome left (λ r. IsRectangle r)) }
    ensures less { IfOk result (λ left. IfSome left (λ _. burden others.now pending.new.items < burden others.now pending.old.items)) }
{
    'cutting: while let Some(piece) = pending.pop() {
        match first_meeting(&piece.rect, others, piece.next) {
            None => return Ok(Some(as_left(piece.rect))),
            Some(at) => push_strips(pending, &piece.rect, &others[at], at + 1)?,
        }
    }
    Ok(None)
}

/// The whole rectangle as the one piece, which waits for all the others.
pub(crate) fn uncut(alloc: Global, rect: &Rect) -> Result<Vec<Piece>, AllocError>
    ensures { IfOk result (λ pending. pending.items ≡ piece rect.now 0 ∷ []) }
{
    let mut pending = Vec::new(alloc);
    pending.push(Piece {
        rect: *rect,
        next: 0,
    })?;
    Ok(pending)
}

/// Whether any point of the pieces is left. It stops at the first piece that is.
pub(crate) fn any_left(mut pending: Vec<Piece>, others: &[Rect]) -> Result<bool, AllocError>
    ensures { IfOk result (λ any. IsTrue any ↔ IsAnyLeft others.now pending.items) }
{
    Ok(next_left(&mut pending, others)?.is_some())
}
