// The generated scripts.
ghost use Rattle.std.specs.Prelude.{◌≡◌, ◌<◌, ◌++◌, IfOk, OnOk};
ghost use Rattle.sp_script.specs.Draws.{drawn, draw_of};
ghost use Rattle.sp_script.specs.Script.{operation_words, line, all_say, turns, round_text, script_text};

use crate::numbers::draw_from;
use crate::operation::push_operation;
use sp_list::Text;
use std::alloc::{AllocError, Global};

/// The script of this seed, with that many rounds of three transactions each. Costs the length of the
/// script.
pub fn script(alloc: Global, seed: u64, count: u64) -> Result<Text, AllocError>
    requires { seed < 2147483647 }
    ensures { IfOk result (λ text. text ≡ script_text seed count) }
{
    let mut text = Text::new(alloc);
    let mut number = seed;
    'rounds: for done in 0..count {
        number = push_round(&mut text, done + 1, number)?;
    }
    Ok(text)
}

// Adds a round, and gives the last number that it takes.
#[tactic(auto, unfolding(crate::specs::Script::round_text))]
fn push_round(text: &mut Text, round: u64, number: u64) -> Result<u64, AllocError>
    requires { number < 2147483647 }
    ensures text { OnOk result (text.new ≡ text.old ++ round_text round number) }
    ensures number { IfOk result (λ last. last ≡ drawn number 36) }
    ensures bound { IfOk result (λ last. last < 2147483647) }
{
    push_all(text, "begin")?;
    let half = push_turns(text, round, number)?;
    let last = push_turns(text, round, half)?;
    push_all(text, "commit")?;
    Ok(last)
}

// Adds an operation of each session.
#[tactic(auto, unfolding(crate::specs::Script::turns))]
fn push_turns(text: &mut Text, round: u64, number: u64) -> Result<u64, AllocError>
    requires { number < 2147483647 }
    ensures text { OnOk result (text.new ≡ text.old ++ turns round number) }
    ensures number { IfOk result (λ last. last ≡ drawn number 18) }
    ensures bound { IfOk result (λ last. last < 2147483647) }
{
    let second = push_turn(text, "A", round, number)?;
    let third = push_turn(text, "B", round, second)?;
    let last = push_turn(text, "C", round, third)?;
    Ok(last)
}

// Adds the session's operation.
#[tactic(auto, unfolding(crate::specs::Script::line))]
fn push_turn(text: &mut Text, session: &str, round: u64, number: u64) -> Result<u64, AllocError>
    requires { number < 2147483647 }
    ensures text { OnOk result (text.new ≡ text.old ++ line session.now (operation_words round (draw_of number))) }
    ensures number { IfOk result (λ last. last ≡ drawn number 6) }
    ensures bound { IfOk result (λ last. last < 2147483647) }
{
    let draw = draw_from(number);
    text.push_str(session)?;
    text.push_str(" ")?;
    push_operation(text, round, &draw)?;
    text.push_str("\n")?;
    Ok(draw.last)
}

#[tactic(auto, unfolding(crate::specs::Script::all_say))]
fn push_all(text: &mut Text, words: &str) -> Result<(), AllocError>
    ensures { OnOk result (text.new ≡ text.old ++ all_say words.now) }
{
    push_line(text, "A", words)?;
    push_line(text, "B", words)?;
    push_line(text, "C", words)
}

#[tactic(auto, unfolding(crate::specs::Script::line))]
fn push_line(text: &mut Text, session: &str, words: &str) -> Result<(), AllocError>
    ensures { OnOk result (text.new ≡ text.old ++ line session.now words.now) }
{
    text.push_str(session)?;
    text.push_str(" ")?;
    text.push_str(words)?;
    text.push_str("\n")
}
