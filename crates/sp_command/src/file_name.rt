// Names of files.
ghost use Rattle.std.specs.Prelude.{◌≡◌, IfOk, if◌then◌else◌, Some, None, true};
ghost use Rattle.std.specs.List.{list_all};
ghost use Rattle.sp_command.specs.Names.{is_name, is_name_byte, is_letter_or_digit, is_mark};

use std::alloc::{AllocError, Global};
use std::marker::Model;

/// A file's name: 1 to 251 ASCII letters, digits, `.`, `_`, `-` and `/`, of which the first is no `-`.
#[derive(Drop)]
pub struct FileName {
    text: String,
}

impl Model for FileName {
    ghost use Rattle.std.specs.Prelude.{List, ℕ, IsTrue, string_bytes};
    ghost use Rattle.sp_command.specs.Names.{is_name};

    ghost Value = { List ℕ };

    ghost view = { λ n. string_bytes n.text };

    ghost invariant = { λ n. IsTrue (is_name (string_bytes n.text)) };
}

impl FileName {
    // The name that the word is: `None` exactly where it is none.
    pub(crate) fn read(alloc: Global, word: &str) -> Result<Option<FileName>, AllocError>
        ensures { IfOk result (λ o. o ≡ (if is_name word.now then Some word.now else None)) }
    {
        if !is_name(word.as_bytes()) {
            return Ok(None);
        }
        let text = String::from_str(alloc, word)?;
        Ok(Some(FileName { text }))
    }

    /// The name as a text. Takes no memory.
    pub fn as_str(&self) -> &str
        ensures text { result.now ≡ self.now }
        ensures valid { is_name self.now ≡ true }
    {
        self.text.as_str()
    }
}

#[tactic(auto, unfolding(crate::specs::Names::is_name))]
fn is_name(word: &[u8]) -> bool
    ensures { result ≡ is_name word.now }
{
    match word {
        [] => false,
        [first, ..] => *first != b'-' && word.len() <= 251 && all_name_bytes(word),
    }
}

fn all_name_bytes(word: &[u8]) -> bool
    ensures { result ≡ list_all is_name_byte word.now }
{
    word.iter().all(|b| is_name_byte(*b))
}

fn is_name_byte(byte: u8) -> bool
    ensures { result ≡ is_name_byte byte }
{
    is_letter_or_digit(byte) || is_mark(byte)
}

fn is_letter_or_digit(byte: u8) -> bool
    ensures { result ≡ is_letter_or_digit byte }
{
    (b'0' <= byte && byte <= b'9') | (b'A' <= byte && byte <= b'Z') | (b'a' <= byte && byte <= b'z')
}

fn is_mark(byte: u8) -> bool
    ensures { result ≡ is_mark byte }
{
    (byte == b'.') | (byte == b'_') | (byte == b'-') | (byte == b'/')
}
