// Pseudo-random numbers and rectangles, the same as the scripts' peers make.
ghost use Rattle.std.specs.Prelude.{◌<◌, ◌^◌};

use sp_rect::Rect;

/// Lehmer's generator with the multiplier 16807 and the modulus 2^31 - 1.
#[derive(Drop)]
pub struct Numbers {
    state: u64,
    ghost small: { state < 2 ^ 31 },
}

impl Numbers {
    pub fn new() -> Numbers {
        Numbers { state: 1 }
    }

    /// The next number, below 2^31.
    pub fn next(&mut self) -> u64
        ensures { result < 2 ^ 31 }
    {
        self.state = 16807 * self.state % 2147483647;
        self.state
    }

    /// A square of that size somewhere in a square of that side.
    pub fn square(&mut self, side: u64, size: i64) -> Option<Rect> {
        let x = (self.next() % side.max(1)) as i64;
        let y = (self.next() % side.max(1)) as i64;
        Rect::new(x, y, x.saturating_add(size), y.saturating_add(size)).ok()
    }
}
