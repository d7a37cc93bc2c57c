// Words with a space before each, and whole lines.
ghost use Rattle.std.specs.Prelude.{◌≡◌, ◌++◌, OnOk, decimal};
ghost use Rattle.std.specs.Fmt.{signed_decimal};
ghost use Rattle.sp_text.specs.Names.{session_word, mode_word, name_words};
ghost use Rattle.sp_text.specs.Texts.{spaced, corner_words, line_text, lead_words};

use crate::names::{mode_word, push_name, push_session};
use crate::{Form, Lead};
use sp_locks::{Mode, Name, SessionId};
use sp_rect::{Rect, Text};
use std::alloc::AllocError;

#[tactic(auto, unfolding(crate::specs::Texts::spaced))]
pub(crate) fn push_spaced(text: &mut Text, word: &[u8]) -> Result<(), AllocError>
    ensures { OnOk result (text.new ≡ text.old ++ spaced word.now) }
{
    text.push_str(" ")?;
    text.push_bytes(word)
}

#[tactic(auto, unfolding(crate::specs::Texts::spaced))]
pub(crate) fn push_spaced_number(text: &mut Text, number: u64) -> Result<(), AllocError>
    ensures { OnOk result (text.new ≡ text.old ++ spaced (decimal number)) }
{
    text.push_str(" ")?;
    text.push_number(number)
}

#[tactic(auto, unfolding(crate::specs::Texts::spaced))]
fn push_spaced_signed(text: &mut Text, number: i32) -> Result<(), AllocError>
    ensures { OnOk result (text.new ≡ text.old ++ spaced (signed_decimal number)) }
{
    text.push_str(" ")?;
    text.push_signed(number)
}

#[tactic(auto, unfolding(crate::specs::Texts::spaced))]
pub(crate) fn push_spaced_session(
    text: &mut Text,
    form: Form,
    session: SessionId,
) -> Result<(), AllocError>
    ensures { OnOk result (text.new ≡ text.old ++ spaced (session_word form session)) }
{
    text.push_str(" ")?;
    push_session(text, form, session)
}

#[tactic(auto, unfolding(crate::specs::Texts::spaced))]
pub(crate) fn push_spaced_name(text: &mut Text, name: Name) -> Result<(), AllocError>
    ensures { OnOk result (text.new ≡ text.old ++ spaced (name_words name)) }
{
    text.push_str(" ")?;
    push_name(text, name)
}

pub(crate) fn push_spaced_mode(text: &mut Text, mode: Mode) -> Result<(), AllocError>
    ensures { OnOk result (text.new ≡ text.old ++ spaced (mode_word mode)) }
{
    push_spaced(text, mode_word(mode).as_bytes())
}

#[tactic(auto, unfolding(crate::specs::Texts::corner_words))]
pub(crate) fn push_corners(text: &mut Text, rect: &Rect) -> Result<(), AllocError>
    ensures { OnOk result (text.new ≡ text.old ++ corner_words rect.now) }
{
    push_spaced_signed(text, rect.x1())?;
    push_spaced_signed(text, rect.y1())?;
    push_spaced_signed(text, rect.x2())?;
    push_spaced_signed(text, rect.y2())
}

// Adds what a line begins with.
#[tactic(auto, unfolding(crate::specs::Texts::lead_words))]
pub(crate) fn push_lead(text: &mut Text, form: Form, lead: Lead) -> Result<(), AllocError>
    ensures { OnOk result (text.new ≡ text.old ++ lead_words form lead) }
{
    match form {
        Form::Session => Ok(()),
        Form::Play | Form::Drill => match lead {
            Lead::Named(session) => {
                push_session(text, form, session)?;
                text.push_str(" ")
            }
            Lead::Nobody => text.push_str("? "),
            Lead::Kernel => text.push_str("- "),
        },
    }
}

// Adds a line of these words.
#[tactic(auto, unfolding(crate::specs::Texts::line_text))]
pub(crate) fn push_line(
    text: &mut Text,
    form: Form,
    lead: Lead,
    words: &str,
) -> Result<(), AllocError>
    ensures { OnOk result (text.new ≡ text.old ++ line_text (lead_words form lead) words.now) }
{
    push_lead(text, form, lead)?;
    text.push_str(words)?;
    text.push_str("\n")
}

// Adds a line of these words and a number.
#[tactic(auto, unfolding(crate::specs::Texts::line_text))]
pub(crate) fn push_numbered(
    text: &mut Text,
    form: Form,
    lead: Lead,
    words: &str,
    number: u64,
) -> Result<(), AllocError>
    ensures { OnOk result (text.new ≡ text.old ++ line_text (lead_words form lead) (words.now ++ decimal number)) }
{
    push_lead(text, form, lead)?;
    text.push_str(words)?;
    text.push_number(number)?;
    text.push_str("\n")
}
