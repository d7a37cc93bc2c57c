// The rectangle that comes next, and the group that takes it.
ghost use Rattle.std.specs.Prelude.{◌≡◌, ℕ, ◌<◌, ◌≤◌, ◌-ℤ◌, ◌≤ℤ◌, ◌<ℤ◌, ◌+◌, false, true, length, slice_index_or, MatchOption};
ghost use Rattle.std.specs.Bool.{MatchBool};
ghost use Rattle.sp_rect.specs.Plane.{growth};
ghost use Rattle.sp_split.specs.Split.{apart, preference, FirstTakes, SecondTakes};

use sp_rect::Rect;

// The difference of the two growths, without sign.
fn difference(first: &Rect, second: &Rect, rect: &Rect) -> i128
    ensures { result ≡ apart (growth first.now rect.now) (growth second.now rect.now) }
{
    let a = first.growth(rect);
    let b = second.growth(rect);
    (a - b).max(b - a)
}

/// The first position that is not placed.
pub(crate) fn lowest(placed: &[bool]) -> Option<usize>
    ensures { MatchOption result ((k : ℕ) → k < length placed.now → slice_index_or placed.now k true ≡ true) (λ p. (p < length placed.now) × (slice_index_or placed.now p true ≡ false) × ((k : ℕ) → k < p → slice_index_or placed.now k true ≡ true)) }
{
    for (i, is_placed) in placed.iter().enumerate() {
        if !*is_placed {
            return Some(i);
        }
    }
    None
}

/// Of the positions that are not placed, the first one with the greatest difference.
pub(crate) fn pick_next(
    rects: &[Rect],
    first: &Rect,
    second: &Rect,
    placed: &[bool],
    lowest: usize,
) -> usize
    requires same { length placed.now ≡ length rects.now }
    requires within { lowest < length rects.now }
    requires free { slice_index_or placed.now lowest true ≡ false }
    requires before { (k : ℕ) → k < lowest → slice_index_or placed.now k true ≡ true }
    ensures within { result < length rects.now }
    ensures free { slice_index_or placed.now result true ≡ false }
    ensures most { (q : ℕ) → q < length rects.now → slice_index_or placed.now q true ≡ false → preference rects.now first.now second.now q ≤ℤ preference rects.now first.now second.now result }
    ensures least { (q : ℕ) → q < result → slice_index_or placed.now q true ≡ false → preference rects.now first.now second.now q <ℤ preference rects.now first.now second.now result }
{
    let mut best = lowest;
    let mut most = difference(first, second, &rects[lowest]);
    for i in lowest..rects.len() {
        if !placed[i] {
            let difference = difference(first, second, &rects[i]);
            if difference > most {
                best = i;
                most = difference;
            }
        }
    }
    best
}

/// Whether the first group takes the rectangle.
pub(crate) fn first_takes(
    first: &Rect,
    second: &Rect,
    first_count: usize,
    second_count: usize,
    rect: &Rect,
) -> bool
    ensures { MatchBool result (FirstTakes first.now second.now first_count second_count rect.now) (SecondTakes first.now second.now first_count second_count rect.now) }
{
    let a = first.growth(rect);
    let b = second.growth(rect);
    if a < b {
        return true;
    }
    if b < a {
        return false;
    }
    let a = first.area();
    let b = second.area();
    if a < b {
        return true;
    }
    if b < a {
        return false;
    }
    first_count <= second_count
}
