// The numbers of a generator.
ghost use Rattle.std.specs.Prelude.{◌≡◌, ◌<◌, ◌*◌, ◌%◌};
ghost use Rattle.sp_script.specs.Draws.{drawn, draw_of, IsSmall};

use crate::draw::Draw;

// What the six numbers behind this one say.
#[tactic(auto, unfolding(crate::specs::Draws::drawn, crate::specs::Draws::draw_of))]
pub(crate) fn draw_from(number: u64) -> Draw
    requires { number < 2147483647 }
    ensures value { result ≡ draw_of number }
    ensures small { IsSmall result }
    ensures last { result.last ≡ drawn number 6 }
    ensures bound { result.last < 2147483647 }
{
    let kind = step(number);
    let id = step(kind);
    let x = step(id);
    let y = step(x);
    let width = step(y);
    let height = step(width);
    Draw {
        kind: kind % 8,
        id: id % 1000,
        x: x % 10000,
        y: y % 10000,
        width: width % 100,
        height: height % 100,
        last: height,
    }
}

fn step(number: u64) -> u64
    requires { number < 2147483647 }
    ensures value { result ≡ 16807 * number % 2147483647 }
    ensures bound { result < 2147483647 }
{
    16807 * number % 2147483647
}
