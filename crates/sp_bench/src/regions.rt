// Differences of a rectangle and many others.
use crate::Counts;
use crate::numbers::Numbers;
use sp_rect::{Records2, Rect};
use sp_region::minus;
use std::alloc::{AllocError, Global};

const SIDE: u64 = 10_000;

const SIZE: i64 = 1_000;

/// Takes so many random squares away from a great one, so many times. Counts the rectangles that are left
/// in all, and the most that were left at once.
pub fn run(alloc: Global, others: u32, times: u32) -> Result<Counts, AllocError> {
    let mut numbers = Numbers::new();
    let mut all: u64 = 0;
    let mut most: u64 = 0;
    let Ok(rect) = Rect::new(0, 0, 10_000, 10_000) else {
        return Err(AllocError);
    };
    for _ in 0..times {
        let left = minus(alloc, &rect, &squares(alloc, &mut numbers, others)?)?;
        let count = left.rects().len() as u64;
        all = all.saturating_add(count);
        most = most.max(count);
    }
    Ok(Counts {
        first: all,
        second: most,
    })
}

fn squares(alloc: Global, numbers: &mut Numbers, count: u32) -> Result<Records2, AllocError> {
    let mut list = Records2::new(alloc);
    for _ in 0..count {
        if let Some(rect) = numbers.square(SIDE, SIZE) {
            list.push(rect)?;
        }
    }
    Ok(list)
}
