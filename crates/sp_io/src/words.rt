// The words of a command line, which contracts see as a list of texts.
ghost use Rattle.std.specs.Prelude.{◌≡◌, ◌++◌, ◌∷◌, [], length, map, slice_get, if◌then◌else◌, is_ok};
ghost use Rattle.std.specs.Option.{option_map};

use std::alloc::{AllocError, Global};
use std::marker::Model;

/// Words, in order. All calls but `push` take no memory.
#[derive(Drop)]
pub struct Words {
    alloc: Global,
    words: Vec<String>,
}

impl Model for Words {
    ghost use Rattle.std.specs.Prelude.{List, ℕ, map, string_bytes};

    ghost Value = { List (List ℕ) };

    ghost view = { λ w. map string_bytes w.words.items };
}

impl Words {
    /// No words.
    pub fn new(alloc: Global) -> Words
        ensures { result ≡ [] }
    {
        Words {
            alloc,
            words: Vec::new(alloc),
        }
    }

    /// Adds the word at the end. Where there is no memory the words are as they were.
    pub fn push(&mut self, word: &str) -> Result<(), AllocError>
        ensures { self.new ≡ (if is_ok result then self.old ++ word.now ∷ [] else self.old) }
    {
        let word = String::from_str(self.alloc, word)?;
        self.words.push(word)?;
        Ok(())
    }

    /// The number of words.
    pub fn len(&self) -> usize
        ensures { result ≡ length self.now }
    {
        self.words.len()
    }

    /// The word at place `i`, counted from 0: `None` exactly where `i` is not below `len`.
    pub fn word(&self, i: usize) -> Option<&str>
        ensures { option_map (λ w. w.now) result ≡ slice_get self.now i }
    {
        if i < self.words.len() {
            Some(self.words[i].as_str())
        } else {
            None
        }
    }
}
