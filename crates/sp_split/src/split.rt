// The split itself: from the two seeds on, one position after the other.
ghost use Rattle.std.specs.Prelude.{◌≡◌, ℕ, ◌<◌, ◌≤◌, ◌+◌, ◌*◌, ◌||◌, false, true, length, slice_index_or, IfOk, MatchOption};
ghost use Rattle.sp_split.specs.Split.{Splits, Goes, IsFree, is_among, group_bound};

use crate::group::{Group, Groups};
use crate::pick::{first_takes, lowest, pick_next};
use crate::seed::seeds;
use sp_rect::{Numbers, Rect};
use std::alloc::{AllocError, Global};

// A position to be placed, and whether it goes to the first group.
#[derive(Clone, Copy)]
struct Choice {
    position: usize,
    to_first: bool,
}

// The next position and its group, or None where every position is placed. Where a group needs all that
// remain to have `min` members it gets them, the lowest first.
fn choose(
    rects: &[Rect],
    min: usize,
    remaining: usize,
    first: &Group,
    second: &Group,
    placed: &[bool],
) -> Option<Choice>
    requires same { length placed.now ≡ length rects.now }
    requires flags { (k : ℕ) → k < length rects.now → slice_index_or placed.now k true ≡ (is_among first.now.members.items k || is_among second.now.members.items k) }
    requires first_bound { first.now.bound ≡ group_bound rects.now first.now.members.items }
    requires second_bound { second.now.bound ≡ group_bound rects.now second.now.members.items }
    requires count { length first.now.members.items + length second.now.members.items + remaining ≡ length rects.now }
    ensures { MatchOption result ((k : ℕ) → k < length rects.now → slice_index_or placed.now k true ≡ true) (λ c. IsFree rects.now first.now.members.items second.now.members.items c.position × (slice_index_or placed.now c.position true ≡ false) × Goes rects.now min first.now.members.items second.now.members.items c.position c.to_first) }
{
    let lowest = lowest(placed)?;
    if first.members.len() + remaining == min {
        return Some(Choice {
            position: lowest,
            to_first: true,
        });
    }
    if second.members.len() + remaining == min {
        return Some(Choice {
            position: lowest,
            to_first: false,
        });
    }
    let next = pick_next(rects, &first.bound, &second.bound, placed, lowest);
    let to_first = first_takes(
        &first.bound,
        &second.bound,
        first.members.len(),
        second.members.len(),
        &rects[next],
    );
    Some(Choice {
        position: next,
        to_first,
    })
}

/// Splits the rectangles, given by position, into two groups of at least `min` members each.
///
/// The seeds are the two rectangles whose bound wastes the most area, of equal pairs the first. Then the
/// rectangle for which the two groups' growths differ most comes next, of equal ones the first. It goes to
/// the group that grows less, else to the smaller group by area, else to the one with fewer members, else to
/// the first. Once a group needs all that remain to have `min` members, it gets them.
///
/// `Splits` says this as a relation, and `one_split` of `proofs/Unique.antt` that it leaves one answer.
/// For n rectangles this takes time in n squared.
pub fn quadratic(alloc: Global, rects: &[Rect], min: usize) -> Result<Groups, AllocError>
    requires least { 1 ≤ min }
    requires enough { 2 * min ≤ length rects.now }
    ensures { IfOk result (λ groups. Splits rects.now min groups.first groups.second) }
{
    let (i, j) = seeds(rects);
    let mut placed = vec![in alloc; false; rects.len()]?;
    placed[i] = true;
    placed[j] = true;
    let mut first = Group::new(alloc, rects, i)?;
    let mut second = Group::new(alloc, rects, j)?;
    let mut remaining = rects.len() - 2;
    'place: while let Some(choice) = choose(rects, min, remaining, &first, &second, &placed) {
        placed[choice.position] = true;
        if choice.to_first {
            first.add(rects, choice.position)?;
        } else {
            second.add(rects, choice.position)?;
        }
        remaining -= 1;
    }
    let mut first = first.members;
    let mut second = second.members;
    first.sort()?;
    second.sort()?;
    Ok(Groups {
        first: Numbers::from_vec(first),
        second: Numbers::from_vec(second),
    })
}
