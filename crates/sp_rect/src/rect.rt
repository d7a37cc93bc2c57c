// Closed rectangles of lattice points.
ghost use Rattle.std.specs.Prelude.{◌≡◌, ◌↔◌, ◌^◌, ◌≤ℤ◌, IsTrue, pos, negsuc};
ghost use Rattle.std.specs.Result.{result_ok};
ghost use Rattle.sp_rect.specs.Plane.{IsRectangle, Meet, Encloses, meets, encloses, holds, point, bound, area, growth, whole, is_coordinate, is_interval, made_rectangle};

use crate::Point;
use sp_list::Duplicate;
use std::alloc::{AllocError, Global};
use std::marker::Model;

/// The least coordinate of space.
pub const LOWEST: i64 = -1073741824;

/// The greatest coordinate of space.
pub const HIGHEST: i64 = 1073741823;

/// All of space.
pub const WHOLE: Rect = Rect {
    x1: -1073741824,
    y1: -1073741824,
    x2: 1073741823,
    y2: 1073741823,
};

/// The four numbers are no corners of a rectangle in space.
#[derive(Clone, Copy, Debug, PartialEq, Eq, Drop)]
pub struct BadRect;

/// A closed rectangle of lattice points that lies in space. It may be a single point.
#[derive(Clone, Copy, Debug, PartialEq, Eq)]
pub struct Rect {
    x1: i32,
    y1: i32,
    x2: i32,
    y2: i32,
}

impl Model for Rect {
    ghost use Rattle.sp_rect.specs.Plane.{Rectangle, rectangle_code, IsRectangle};

    ghost Value = { Rectangle };

    ghost coded = { rectangle_code };

    ghost view = { λ a. record { x1 = a.x1; y1 = a.y1; x2 = a.x2; y2 = a.y2 } };

    ghost invariant = { λ a. IsRectangle (record { x1 = a.x1; y1 = a.y1; x2 = a.x2; y2 = a.y2 }) };

    ghost inverse = { λ r. record { x1 = r.x1; y1 = r.y1; x2 = r.x2; y2 = r.y2 } };
}

impl Rect {
    /// The rectangle with these corners. `BadRect` comes exactly where a bound is out of space or the
    /// corners are crossed.
    pub fn new(x1: i64, y1: i64, x2: i64, y2: i64) -> Result<Rect, BadRect>
        ensures { result_ok result ≡ made_rectangle x1 y1 x2 y2 }
    {
        if is_interval(x1, x2) && is_interval(y1, y2) {
            Ok(Rect {
                x1: narrow(x1),
                y1: narrow(y1),
                x2: narrow(x2),
                y2: narrow(y2),
            })
        } else {
            Err(BadRect)
        }
    }

    /// The least x.
    pub fn x1(&self) -> i32
        ensures value { result ≡ self.now.x1 }
        ensures valid { IsRectangle self.now }
    {
        self.x1
    }

    /// The least y.
    pub fn y1(&self) -> i32
        ensures { result ≡ self.now.y1 }
    {
        self.y1
    }

    /// The greatest x.
    pub fn x2(&self) -> i32
        ensures { result ≡ self.now.x2 }
    {
        self.x2
    }

    /// The greatest y.
    pub fn y2(&self) -> i32
        ensures { result ≡ self.now.y2 }
    {
        self.y2
    }

    /// Whether the two share a lattice point.
    pub fn meets(&self, other: &Rect) -> bool
        ensures value { result ≡ meets self.now other.now }
        ensures points { IsTrue result ↔ Meet self.now other.now }
    {
        (self.x1 <= other.x2)
            & (other.x1 <= self.x2)
            & (self.y1 <= other.y2)
            & (other.y1 <= self.y2)
    }

    /// Whether each point of the other is one of this rectangle's.
    pub fn encloses(&self, other: &Rect) -> bool
        ensures value { result ≡ encloses self.now other.now }
        ensures points { IsTrue result ↔ Encloses self.now other.now }
    {
        (self.x1 <= other.x1)
            & (other.x2 <= self.x2)
            & (self.y1 <= other.y1)
            & (other.y2 <= self.y2)
    }

    /// Whether the point is one of this rectangle's.
    pub fn holds(&self, p: Point) -> bool
        ensures { result ≡ holds self.now (point p.x p.y) }
    {
        self.holds_at(p.x, p.y)
    }

    fn holds_at(&self, x: i32, y: i32) -> bool
        ensures { result ≡ holds self.now (point x y) }
    {
        (self.x1 <= x) & (x <= self.x2) & (self.y1 <= y) & (y <= self.y2)
    }

    /// The smallest rectangle that encloses both.
    pub fn bound(&self, other: &Rect) -> Rect
        ensures { result ≡ bound self.now other.now }
    {
        Rect {
            x1: self.x1.min(other.x1),
            y1: self.y1.min(other.y1),
            x2: self.x2.max(other.x2),
            y2: self.y2.max(other.y2),
        }
    }

    /// The product of the sides' lengths, at most 2^62. A side's length is the difference of its ends.
    pub fn area(&self) -> i128
        ensures value { result ≡ area self.now }
        ensures low { pos 0 ≤ℤ result }
        ensures high { result ≤ℤ pos (2 ^ 62) }
    {
        (i128::from(self.x2) - i128::from(self.x1)) * (i128::from(self.y2) - i128::from(self.y1))
    }

    /// The area of the bound of both, less this rectangle's area.
    pub fn growth(&self, other: &Rect) -> i128
        ensures value { result ≡ growth self.now other.now }
        ensures low { negsuc (2 ^ 62) ≤ℤ result }
        ensures high { result ≤ℤ pos (2 ^ 62) }
    {
        self.bound(other).area() - self.area()
    }
}

impl Duplicate for Rect {
    fn copy(&self, _alloc: Global) -> Result<Rect, AllocError> {
        Ok(*self)
    }
}

// A coordinate in space, in 32 bits.
#[tactic(auto, unfolding(crate::specs::Plane::is_coordinate))]
fn narrow(x: i64) -> i32
    requires { IsTrue (is_coordinate x) }
    ensures { result ≡ x }
{
    x as i32
}

// Whether the numbers are the ends of an interval in space.
#[tactic(auto, unfolding(crate::specs::Plane::is_interval))]
fn is_interval(a: i64, b: i64) -> bool
    ensures { result ≡ is_interval a b }
{
    LOWEST <= a && a <= b && b <= HIGHEST
}
