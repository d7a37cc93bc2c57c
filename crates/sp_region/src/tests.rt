use crate::{Region, exceeds, leaves_any, minus, overlaps};
use sp_rect::{Point, Records2, Rect};
use std::alloc::Global;
use std::test::Fail;

type Corners = (i64, i64, i64, i64);

fn rect(corners: Corners) -> Result<Rect, &'static str> {
    Rect::new(corners.0, corners.1, corners.2, corners.3).map_err(|_| "no rectangle")
}

fn rects(alloc: Global, list: &[Corners]) -> Result<Records2, &'static str> {
    let mut rects = Records2::new(alloc);
    for &corners in list {
        rects.push(rect(corners)?).map_err(|_| "no memory")?;
    }
    Ok(rects)
}

// How many of the rectangles have the point.
fn times(rects: &[Rect], p: Point) -> usize {
    let mut times = 0;
    for rect in rects {
        if rect.holds(p) && times < usize::MAX {
            times += 1;
        }
    }
    times
}

// Whether the rectangle has the point and none of the others has it.
fn is_left(rect: &Rect, others: &Records2, p: Point) -> bool {
    rect.holds(p) && times(others.as_slice(), p) == 0
}

// The number of points of a window of 16 by 16 that the rectangles have, each as often as they have it, or
// nothing where they differ at some point from what the others leave.
fn points_left(rect: &Rect, others: &Records2, region: &Region) -> Option<usize> {
    let mut count = 0;
    for x in 0..16 {
        for y in 0..16 {
            let p = Point { x, y };
            let times = times(region.rects(), p);
            if (times == 1) != is_left(rect, others, p) || times > 1 {
                return None;
            }
            if times == 1 && count < 256 {
                count += 1;
            }
        }
    }
    Some(count)
}

// Each row: a rectangle, what is taken out of it, and the number of points left.
#[test]
fn differences(rt: HostRuntime) -> Result<(), Fail> {
    let whole = (0, 0, 9, 9);
    let rows: [(Corners, &[Corners], usize); 9] = [
        (whole, &[(3, 3, 5, 5)], 91),
        (whole, &[], 100),
        (whole, &[(0, 0, 9, 4), (0, 5, 9, 9)], 0),
        (whole, &[(0, 0, 9, 4), (0, 6, 9, 9)], 10),
        (whole, &[(10, 0, 12, 9), (-9, -9, -1, 20)], 100),
        (whole, &[(2, -5, 3, 20), (6, -5, 7, 20), (-5, 4, 20, 5)], 48),
        (whole, &[(1, 1, 8, 8), (1, 1, 8, 8), (0, 0, 0, 0)], 35),
        ((4, 4, 4, 4), &[(4, 4, 4, 4)], 0),
        ((4, 4, 4, 4), &[(3, 3, 3, 3), (5, 5, 5, 5)], 1),
    ];
    for (corners, list, wanted) in rows {
        let rect = rect(corners)?;
        let others = rects(rt.alloc(), list)?;
        let region = minus(rt.alloc(), &rect, &others)?;
        let any = leaves_any(rt.alloc(), &rect, &others)?;
        assert_eq!(rt; points_left(&rect, &others, &region), Some(wanted));
        assert_eq!(rt; any, wanted > 0);
    }
    Ok(())
}

// Many lists of small rectangles, drawn by a linear congruence, against the count of points.
#[test]
fn drawn_differences(rt: HostRuntime) -> Result<(), Fail> {
    let mut seed: u64 = 7;
    for size in 0..60u64 {
        let rect = rect((1, 2, 14, 13))?;
        let mut others = Records2::new(rt.alloc());
        for _ in 0..size % 12 {
            seed = (seed % 2147483647) * 48271 % 2147483647;
            let x = (seed % 15) as i64;
            let y = (seed / 15 % 15) as i64;
            let wide = (seed / 225 % 7) as i64;
            let high = (seed / 1575 % 7) as i64;
            others.push(self::rect((x, y, x + wide, y + high))?)?;
        }
        let region = minus(rt.alloc(), &rect, &others)?;
        let any = leaves_any(rt.alloc(), &rect, &others)?;
        let points = points_left(&rect, &others, &region).ok_or("other points")?;
        assert_eq!(rt; any, points > 0);
    }
    Ok(())
}

// Each row: a rectangle and its holes, another and its holes, whether they overlap, and whether the first
// exceeds the second.
#[test]
fn rectangles_with_holes(rt: HostRuntime) -> Result<(), Fail> {
    let rows: [(Corners, &[Corners], Corners, &[Corners], bool, bool); 7] = [
        ((0, 0, 9, 9), &[], (0, 0, 9, 9), &[], true, false),
        ((0, 0, 9, 9), &[], (0, 0, 9, 9), &[(4, 4, 4, 4)], true, true),
        (
            (0, 0, 9, 9),
            &[(4, 4, 4, 4)],
            (0, 0, 9, 9),
            &[(4, 4, 4, 4)],
            true,
            false,
        ),
        (
            (0, 0, 9, 9),
            &[(0, 0, 8, 9)],
            (0, 0, 9, 9),
            &[(9, 0, 9, 9)],
            false,
            true,
        ),
        (
            (0, 0, 9, 9),
            &[(0, 0, 4, 9)],
            (5, 0, 9, 9),
            &[],
            true,
            false,
        ),
        ((0, 0, 9, 9), &[(0, 0, 4, 8)], (5, 0, 9, 9), &[], true, true),
        ((0, 0, 4, 4), &[], (5, 5, 9, 9), &[], false, true),
    ];
    for (first, holes, second, other_holes, overlap, exceed) in rows {
        let rect = rect(first)?;
        let holes = rects(rt.alloc(), holes)?;
        let other = self::rect(second)?;
        let other_holes = rects(rt.alloc(), other_holes)?;
        assert_eq!(rt;
            overlaps(rt.alloc(), &rect, &holes, &other, &other_holes)?,
            overlap
        );
        assert_eq!(rt;
            exceeds(rt.alloc(), &rect, &holes, &other, &other_holes)?,
            exceed
        );
    }
    Ok(())
}
