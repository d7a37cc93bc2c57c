// Texts of bytes, which contracts see as a list.
ghost use Rattle.std.specs.Prelude.{◌≡◌, ◌++◌, ◌∷◌, [], if◌then◌else◌, is_ok, decimal};
ghost use Rattle.std.specs.Fmt.{signed_decimal};

use itoa::Buffer;
use std::alloc::{AllocError, Global};
use std::marker::Model;

/// A text under construction, byte by byte. Where a call finds no memory the text is as it was.
#[derive(Drop)]
pub struct Text {
    bytes: Vec<u8>,
}

impl Model for Text {
    ghost use Rattle.std.specs.Prelude.{List, ℕ};

    ghost Value = { List ℕ };

    ghost view = { λ t. t.bytes.items };
}

impl Text {
    /// The empty text. Takes no memory.
    pub fn new(alloc: Global) -> Text
        ensures { result ≡ [] }
    {
        Text {
            bytes: Vec::new(alloc),
        }
    }

    /// The bytes of the text.
    pub fn bytes(&self) -> &[u8]
        ensures { result.now ≡ self.now }
    {
        self.bytes.as_slice()
    }

    /// Makes the text empty, and keeps its room.
    pub fn clear(&mut self)
        ensures { self.new ≡ [] }
    {
        self.bytes.clear();
    }

    /// Adds the bytes at the end.
    pub fn push_bytes(&mut self, bytes: &[u8]) -> Result<(), AllocError>
        ensures { self.new ≡ (if is_ok result then self.old ++ bytes.now else self.old) }
    {
        self.bytes.extend_from_slice(bytes)
    }

    /// Adds one byte at the end.
    pub fn push_byte(&mut self, byte: u8) -> Result<(), AllocError>
        ensures { self.new ≡ (if is_ok result then self.old ++ byte ∷ [] else self.old) }
    {
        self.bytes.push(byte)?;
        Ok(())
    }

    /// Adds the bytes of a string at the end.
    pub fn push_str(&mut self, text: &str) -> Result<(), AllocError>
        ensures { self.new ≡ (if is_ok result then self.old ++ text.now else self.old) }
    {
        self.bytes.extend_from_slice(text.as_bytes())
    }

    /// Adds the number in decimal digits.
    pub fn push_number(&mut self, number: u64) -> Result<(), AllocError>
        ensures { self.new ≡ (if is_ok result then self.old ++ decimal number else self.old) }
    {
        let mut buffer = Buffer::new();
        self.bytes
            .extend_from_slice(buffer.format(number).as_bytes())
    }

    /// Adds the number in decimal digits, after a `-` where it is negative.
    pub fn push_signed(&mut self, number: i32) -> Result<(), AllocError>
        ensures { self.new ≡ (if is_ok result then self.old ++ signed_decimal number else self.old) }
    {
        let mut buffer = Buffer::new();
        self.bytes
            .extend_from_slice(buffer.format(number).as_bytes())
    }
}
