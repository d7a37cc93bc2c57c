// The two rectangles that a split begins with.
ghost use Rattle.std.specs.Prelude.{◌≡◌, ◌<◌, ◌≤◌, ◌-ℤ◌, ◌≤ℤ◌, ◌<ℤ◌, length};
ghost use Rattle.std.specs.Bool.{MatchBool};
ghost use Rattle.sp_rect.specs.Plane.{bound, area};
ghost use Rattle.sp_split.specs.Split.{AreSeeds, waste};

use sp_rect::Rect;

// The area that the bound of two covers beyond them. It is negative where they overlap much.
fn waste_of(a: &Rect, b: &Rect) -> i128
    ensures { result ≡ area (bound a.now b.now) -ℤ area a.now -ℤ area b.now }
{
    a.bound(b).area() - a.area() - b.area()
}

/// The pair of positions whose bound wastes most, of equal ones the first by its lower position and then by
/// its higher.
pub(crate) fn seeds(rects: &[Rect]) -> (usize, usize)
    requires { 2 ≤ length rects.now }
    ensures { AreSeeds rects.now result.0 result.1 }
{
    let mut first = 0;
    let mut second = 1;
    let mut most = waste_of(&rects[0], &rects[1]);
    for i in 0..rects.len() {
        for j in i + 1..rects.len() {
            let waste = waste_of(&rects[i], &rects[j]);
            if waste > most {
                first = i;
                second = j;
                most = waste;
            }
        }
    }
    (first, second)
}
