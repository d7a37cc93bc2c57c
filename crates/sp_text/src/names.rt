// The names of sessions, locks and modes.
ghost use Rattle.std.specs.Prelude.{◌≡◌, ◌<◌, ◌++◌, ◌&&◌, nat_le, IfSome, OnOk};
ghost use Rattle.sp_text.specs.Numbers.{is_decimal_digit};
ghost use Rattle.sp_text.specs.Names.{digits_word, digits_count, session_of, script_name, session_word, mode_word, name_words};

use crate::Form;
use sp_locks::{Mode, Name, SessionId};
use sp_rect::Text;
use std::alloc::AllocError;

/// How many sessions a script can name.
pub const SCRIPT_SESSIONS: u32 = 26 * NAMES_A_LETTER;

// A letter has a session without digits, ten with one and a hundred with two.
const NAMES_A_LETTER: u32 = 111;

// Adds the word of a session.
#[tactic(auto, unfolding(crate::specs::Names::session_word))]
pub(crate) fn push_session(
    text: &mut Text,
    form: Form,
    session: SessionId,
) -> Result<(), AllocError>
    ensures { OnOk result (text.new ≡ text.old ++ session_word form session) }
{
    match form {
        Form::Session => text.push_number(u64::from(session)),
        Form::Play | Form::Drill => {
            if session < SCRIPT_SESSIONS {
                push_script_name(text, session)
            } else {
                text.push_number(u64::from(session))
            }
        }
    }
}

#[tactic(auto, unfolding(crate::specs::Names::script_name))]
fn push_script_name(text: &mut Text, session: SessionId) -> Result<(), AllocError>
    requires { session < 2886 }
    ensures { OnOk result (text.new ≡ text.old ++ script_name session) }
{
    text.push_byte(b'A' + (session / NAMES_A_LETTER) as u8)?;
    push_digits(text, (session % NAMES_A_LETTER) as u8)
}

#[tactic(auto, unfolding(crate::specs::Names::digits_word))]
fn push_digits(text: &mut Text, digits: u8) -> Result<(), AllocError>
    requires { digits < 111 }
    ensures { OnOk result (text.new ≡ text.old ++ digits_word digits) }
{
    if digits < 1 {
        Ok(())
    } else if digits < 11 {
        text.push_byte(b'0' + (digits - 1))
    } else {
        text.push_byte(b'0' + (digits - 11) / 10)?;
        text.push_byte(b'0' + (digits - 11) % 10)
    }
}

// The session that the word names in a script: a letter, and no, one or two digits.
pub(crate) fn session_of(word: &[u8]) -> Option<SessionId>
    ensures session { result ≡ session_of word.now }
    ensures known { IfSome result (λ s. s < 2886) }
    ensures named { IfSome result (λ s. word.now ≡ script_name s) }
{
    match word {
        [letter, digits @ ..] => {
            if !is_letter(*letter) {
                return None;
            }
            let count = digits_count(digits)?;
            Some(NAMES_A_LETTER * u32::from(*letter - b'A') + u32::from(count))
        }
        [] => None,
    }
}

fn digits_count(digits: &[u8]) -> Option<u8>
    ensures count { result ≡ digits_count digits.now }
    ensures small { IfSome result (λ k. k < 111) }
{
    match digits {
        [] => Some(0),
        [digit] => {
            if is_digit(*digit) {
                Some(1 + (*digit - b'0'))
            } else {
                None
            }
        }
        [tens, ones] => {
            if is_digit(*tens) & is_digit(*ones) {
                Some(11 + (10 * (*tens - b'0') + (*ones - b'0')))
            } else {
                None
            }
        }
        _ => None,
    }
}

fn is_letter(byte: u8) -> bool
    ensures { result ≡ (nat_le 65 byte && nat_le byte 90) }
{
    b'A' <= byte && byte <= b'Z'
}

fn is_digit(byte: u8) -> bool
    ensures { result ≡ is_decimal_digit byte }
{
    b'0' <= byte && byte <= b'9'
}

// The word of a mode.
pub(crate) fn mode_word(mode: Mode) -> &'static str
    ensures { result.now ≡ mode_word mode }
{
    match mode {
        Mode::IS => "IS",
        Mode::IX => "IX",
        Mode::S => "S",
        Mode::SIX => "SIX",
        Mode::X => "X",
    }
}

// Adds the words of a lock's name.
#[tactic(auto, unfolding(crate::specs::Names::name_words))]
pub(crate) fn push_name(text: &mut Text, name: Name) -> Result<(), AllocError>
    ensures { OnOk result (text.new ≡ text.old ++ name_words name) }
{
    match name {
        Name::Granule(number) => {
            text.push_str("granule ")?;
            text.push_number(number)
        }
        Name::Object(id) => {
            text.push_str("object ")?;
            text.push_number(id)
        }
    }
}
