// The options of a command line.
ghost use Rattle.std.specs.Prelude.{◌≡◌, ◌≤◌, IfOk, IfSome};
ghost use Rattle.sp_command.specs.Reading.{free_number, put_in, key_of};

use crate::FileName;
use crate::values::number_of;
use std::alloc::{AllocError, Global};

// An option with a value.
#[derive(Clone, Copy, Drop)]
pub(crate) enum Key {
    Journal,
    Max,
    Min,
    Seed,
    Count,
}

// What the options set: each is there or not.
#[derive(Drop)]
pub(crate) struct Options {
    pub journal: Option<FileName>,
    pub max: Option<u32>,
    pub min: Option<u32>,
    pub audit: bool,
    pub seed: Option<u64>,
    pub count: Option<u64>,
}

impl Options {
    ghost use Rattle.sp_command.specs.Reading.{is_without_script, is_without_sizes, is_without_run};

    pub(crate) fn is_without_script(&self) -> bool
        ensures { result ≡ is_without_script self.now }
    {
        self.seed.is_none() && self.count.is_none()
    }

    pub(crate) fn is_without_sizes(&self) -> bool
        ensures { result ≡ is_without_sizes self.now }
    {
        self.max.is_none() && self.min.is_none()
    }

    pub(crate) fn is_without_run(&self) -> bool
        ensures { result ≡ is_without_run self.now }
    {
        self.journal.is_none() && !self.audit
    }
}

// The option that the word names.
#[tactic(auto, unfolding(crate::specs::Reading::key_of))]
pub(crate) fn key_of(word: &str) -> Option<Key>
    ensures { result ≡ key_of word.now }
{
    if word == "--journal" {
        Some(Key::Journal)
    } else if word == "--max" {
        Some(Key::Max)
    } else if word == "--min" {
        Some(Key::Min)
    } else if word == "--seed" {
        Some(Key::Seed)
    } else if word == "--count" {
        Some(Key::Count)
    } else {
        None
    }
}

// Sets the option to the value that the word says, where it was not set and the word says one.
#[tactic(auto, unfolding(crate::specs::Reading::put_in))]
pub(crate) fn put(
    alloc: Global,
    options: Options,
    key: Key,
    word: &str,
) -> Result<Option<Options>, AllocError>
    ensures { IfOk result (λ o. o ≡ put_in key word.now options) }
{
    let mut options = options;
    match key {
        Key::Journal => {
            if options.journal.is_some() {
                return Ok(None);
            }
            let Some(name) = FileName::read(alloc, word)? else {
                return Ok(None);
            };
            options.journal = Some(name);
        }
        Key::Max => {
            let Some(number) = free_number(alloc, options.max.is_some(), word, 4, 64)? else {
                return Ok(None);
            };
            options.max = Some(number as u32);
        }
        Key::Min => {
            let Some(number) = free_number(alloc, options.min.is_some(), word, 2, 32)? else {
                return Ok(None);
            };
            options.min = Some(number as u32);
        }
        Key::Seed => {
            let Some(number) = free_number(alloc, options.seed.is_some(), word, 1, 2147483646)?
            else {
                return Ok(None);
            };
            options.seed = Some(number);
        }
        Key::Count => {
            let Some(number) = free_number(alloc, options.count.is_some(), word, 0, 10000)? else {
                return Ok(None);
            };
            options.count = Some(number);
        }
    }
    Ok(Some(options))
}

// The number, where none is there yet.
fn free_number(
    alloc: Global,
    is_set: bool,
    word: &str,
    least: u64,
    most: u64,
) -> Result<Option<u64>, AllocError>
    ensures value { IfOk result (λ o. o ≡ free_number is_set least most word.now) }
    ensures bound { IfOk result (λ o. IfSome o (λ n. n ≤ most)) }
{
    if is_set {
        return Ok(None);
    }
    number_of(alloc, word, least, most)
}
