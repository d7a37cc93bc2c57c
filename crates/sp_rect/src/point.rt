// Points of the lattice.

/// A point with whole-number coordinates. It lies in space where both are from `LOWEST` to `HIGHEST`.
#[derive(Clone, Copy, Debug, PartialEq, Eq)]
pub struct Point {
    pub x: i32,
    pub y: i32,
}
