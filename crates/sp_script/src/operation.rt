// The words of a drawn operation.
ghost use Rattle.std.specs.Prelude.{◌≡◌, ◌++◌, OnOk};
ghost use Rattle.sp_script.specs.Draws.{IsSmall};
ghost use Rattle.sp_script.specs.Script.{spaced, corner_words, value_words, put_words, find_words, set_words, operation_words};

use crate::draw::Draw;
use sp_list::Text;
use std::alloc::AllocError;

#[tactic(auto, unfolding(crate::specs::Script::operation_words))]
pub(crate) fn push_operation(text: &mut Text, round: u64, draw: &Draw) -> Result<(), AllocError>
    requires { IsSmall draw.now }
    ensures { OnOk result (text.new ≡ text.old ++ operation_words round draw.now) }
{
    if draw.kind < 4 {
        push_put(text, round, draw)
    } else if draw.kind == 4 {
        push_find(text, draw)
    } else if draw.kind == 5 {
        text.push_str("drop")?;
        push_spaced(text, draw.id)
    } else if draw.kind == 6 {
        push_set(text, round, draw)
    } else {
        text.push_str("get")?;
        push_spaced(text, draw.id)
    }
}

#[tactic(auto, unfolding(crate::specs::Script::put_words))]
fn push_put(text: &mut Text, round: u64, draw: &Draw) -> Result<(), AllocError>
    requires { IsSmall draw.now }
    ensures { OnOk result (text.new ≡ text.old ++ put_words round draw.now) }
{
    text.push_str("put")?;
    push_spaced(text, draw.id)?;
    push_corners(text, draw)?;
    push_value(text, round)
}

#[tactic(auto, unfolding(crate::specs::Script::find_words))]
fn push_find(text: &mut Text, draw: &Draw) -> Result<(), AllocError>
    requires { IsSmall draw.now }
    ensures { OnOk result (text.new ≡ text.old ++ find_words draw.now) }
{
    text.push_str("find")?;
    push_corners(text, draw)
}

#[tactic(auto, unfolding(crate::specs::Script::set_words))]
fn push_set(text: &mut Text, round: u64, draw: &Draw) -> Result<(), AllocError>
    ensures { OnOk result (text.new ≡ text.old ++ set_words round draw.now) }
{
    text.push_str("set")?;
    push_spaced(text, draw.id)?;
    push_value(text, round)
}

#[tactic(auto, unfolding(crate::specs::Script::corner_words))]
fn push_corners(text: &mut Text, draw: &Draw) -> Result<(), AllocError>
    requires { IsSmall draw.now }
    ensures { OnOk result (text.new ≡ text.old ++ corner_words draw.now) }
{
    push_spaced(text, draw.x)?;
    push_spaced(text, draw.y)?;
    push_spaced(text, draw.x + draw.width)?;
    push_spaced(text, draw.y + draw.height)
}

#[tactic(auto, unfolding(crate::specs::Script::spaced))]
fn push_spaced(text: &mut Text, number: u64) -> Result<(), AllocError>
    ensures { OnOk result (text.new ≡ text.old ++ spaced number) }
{
    text.push_str(" ")?;
    text.push_number(number)
}

#[tactic(auto, unfolding(crate::specs::Script::value_words))]
fn push_value(text: &mut Text, round: u64) -> Result<(), AllocError>
    ensures { OnOk result (text.new ≡ text.old ++ value_words round) }
{
    text.push_str(" v")?;
    text.push_number(round)
}
