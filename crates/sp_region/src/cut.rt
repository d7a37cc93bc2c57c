// Parts of a rectangle: what it shares with another, and the four strips that the other leaves of it.
ghost use Rattle.std.specs.Prelude.{◌≡◌, ◌&&◌, ◌≤ℤ◌, ◌<ℤ◌, is_some, IfSome, pos, negsuc};
ghost use Rattle.sp_rect.specs.Plane.{Point, IsRectangle, holds, corners, meets};
ghost use Rattle.sp_region.specs.Region.{held_by};
ghost use Rattle.sp_region.specs.Cut.{left_of, right_of, beneath, above};

use sp_rect::{HIGHEST, LOWEST, Rect};

// The part of the rectangle with x from `x1` to `x2` and y from `y1` to `y2`, if it has a point.
fn part(rect: &Rect, x1: i64, y1: i64, x2: i64, y2: i64) -> Option<Rect>
    ensures points { (p : Point) → held_by result p ≡ (holds rect.now p && holds (corners x1 y1 x2 y2) p) }
    ensures valid { IsRectangle rect.now }
    ensures some { IfSome result (λ r. IsRectangle r) }
{
    Rect::new(
        x1.max(i64::from(rect.x1())),
        y1.max(i64::from(rect.y1())),
        x2.min(i64::from(rect.x2())),
        y2.min(i64::from(rect.y2())),
    )
    .ok()
}

/// The rectangle of the points that both have: `None` exactly where they have none.
pub fn common(a: &Rect, b: &Rect) -> Option<Rect>
    ensures points { (p : Point) → held_by result p ≡ (holds a.now p && holds b.now p) }
    ensures some { is_some result ≡ meets a.now b.now }
    ensures valid { IfSome result (λ r. IsRectangle r) }
{
    part(
        a,
        i64::from(b.x1()),
        i64::from(b.y1()),
        i64::from(b.x2()),
        i64::from(b.y2()),
    )
}

// The part of the rectangle that lies left of the other.
pub(crate) fn left_strip(rect: &Rect, other: &Rect) -> Option<Rect>
    ensures points { (p : Point) → held_by result p ≡ (holds rect.now p && left_of other.now p) }
    ensures valid { IsRectangle other.now }
{
    part(rect, LOWEST, LOWEST, i64::from(other.x1()) - 1, HIGHEST)
}

// The part of the rectangle that lies right of the other.
pub(crate) fn right_strip(rect: &Rect, other: &Rect) -> Option<Rect>
    ensures { (p : Point) → held_by result p ≡ (holds rect.now p && right_of other.now p) }
{
    part(rect, i64::from(other.x2()) + 1, LOWEST, HIGHEST, HIGHEST)
}

// The part of the rectangle with x between the other's left and right end, and y from `y1` to `y2`.
fn column(rect: &Rect, other: &Rect, y1: i64, y2: i64) -> Option<Rect>
    ensures points { (p : Point) → held_by result p ≡ (holds rect.now p && holds (corners other.now.x1 y1 other.now.x2 y2) p) }
    ensures valid { IsRectangle rect.now }
{
    part(rect, i64::from(other.x1()), y1, i64::from(other.x2()), y2)
}

// The part of the rectangle that lies under the other, between its left and its right end.
pub(crate) fn lower_strip(rect: &Rect, other: &Rect) -> Option<Rect>
    ensures { (p : Point) → held_by result p ≡ (holds rect.now p && beneath other.now p) }
{
    column(rect, other, LOWEST, i64::from(other.y1()) - 1)
}

// The part of the rectangle that lies over the other, between its left and its right end.
pub(crate) fn upper_strip(rect: &Rect, other: &Rect) -> Option<Rect>
    ensures { (p : Point) → held_by result p ≡ (holds rect.now p && above other.now p) }
{
    column(rect, other, i64::from(other.y2()) + 1, HIGHEST)
}
