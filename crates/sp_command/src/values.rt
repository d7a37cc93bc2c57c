// The numbers and sizes that options give.
ghost use Rattle.std.specs.Prelude.{◌≡◌, ◌≤◌, ◌*◌, ◌/◌, max, IfOk, IfSome};
ghost use Rattle.sp_command.specs.Reading.{number_of, shape_of};

use sp_node::Shape;
use std::alloc::{AllocError, Global};

// The number from `least` to `most` that the word writes without a sign and without a leading zero.
#[tactic(auto, unfolding(crate::specs::Reading::number_of))]
pub(crate) fn number_of(
    alloc: Global,
    word: &str,
    least: u64,
    most: u64,
) -> Result<Option<u64>, AllocError>
    ensures value { IfOk result (λ o. o ≡ number_of least most word.now) }
    ensures bound { IfOk result (λ o. IfSome o (λ n. n ≤ most)) }
{
    let Ok(number) = word.parse::<u64>() else {
        return Ok(None);
    };
    let written = number.to_string(alloc)?;
    if written.as_str() == word && least <= number && number <= most {
        Ok(Some(number))
    } else {
        Ok(None)
    }
}

// The sizes of nodes by these options.
#[tactic(auto, unfolding(crate::specs::Reading::shape_of))]
pub(crate) fn shape_of(max: Option<u32>, min: Option<u32>) -> Option<Shape>
    ensures { result ≡ shape_of max min }
{
    let max = max.unwrap_or(16);
    let min = min.unwrap_or(least_size(max));
    if min <= max / 2 {
        Some(Shape { max, min })
    } else {
        None
    }
}

// The least size where none is given: two fifths, and at least 2.
fn least_size(most: u32) -> u32
    ensures { result ≡ max 2 (2 * most / 5) }
{
    let part = (2 * u64::from(most) / 5) as u32;
    part.max(2)
}
