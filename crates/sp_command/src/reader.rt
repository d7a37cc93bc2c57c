// The words after the command, one by one.
ghost use Rattle.std.specs.Prelude.{◌≡◌, IfOk, drop};
ghost use Rattle.std.specs.Option.{option_map};
ghost use Rattle.sp_command.specs.Reading.{next, next_open, next_option, settled, waiting, options_in, with_audit, with_joined, with_value};

use crate::options::{Key, Options, key_of, put};
use sp_io::Words;
use std::alloc::{AllocError, Global};

// The options so far, and the option whose value is to come.
#[derive(Drop)]
pub(crate) struct Reader {
    pub options: Options,
    pub pending: Option<Key>,
}

// The options that the words after the first set: `None` exactly where they are no options.
pub(crate) fn read_options(alloc: Global, words: &Words) -> Result<Option<Options>, AllocError>
    ensures { IfOk result (λ o. o ≡ options_in (drop 1 words.now)) }
{
    let mut reader = settled(Options {
        journal: None,
        max: None,
        min: None,
        audit: false,
        seed: None,
        count: None,
    });
    'words: for i in 1..words.len() {
        let Some(word) = words.word(i) else {
            return Ok(None);
        };
        let Some(next) = next(alloc, reader, word)? else {
            return Ok(None);
        };
        reader = next;
    }
    let Reader { options, pending } = reader;
    match pending {
        Some(_) => Ok(None),
        None => Ok(Some(options)),
    }
}

fn settled(options: Options) -> Reader
    ensures { result ≡ settled options }
{
    Reader {
        options,
        pending: None,
    }
}

// One word more.
fn next(alloc: Global, reader: Reader, word: &str) -> Result<Option<Reader>, AllocError>
    ensures { IfOk result (λ o. o ≡ next reader word.now) }
{
    let Reader { options, pending } = reader;
    match pending {
        Some(key) => with_value(alloc, options, key, word),
        None => next_open(alloc, options, word),
    }
}

// The word of an option: a flag, an option with its value, or an option whose value is the next word.
#[tactic(auto, unfolding(crate::specs::Reading::next_open))]
fn next_open(alloc: Global, options: Options, word: &str) -> Result<Option<Reader>, AllocError>
    ensures { IfOk result (λ o. o ≡ next_open options word.now) }
{
    if word == "--audit" {
        Ok(with_audit(options))
    } else {
        next_option(alloc, options, word)
    }
}

fn next_option(alloc: Global, options: Options, word: &str) -> Result<Option<Reader>, AllocError>
    ensures { IfOk result (λ o. o ≡ next_option options word.now) }
{
    match word.split_once('=') {
        Some((name, value)) => with_joined(alloc, options, name, value),
        None => Ok(with_key(options, key_of(word))),
    }
}

fn with_joined(
    alloc: Global,
    options: Options,
    name: &str,
    value: &str,
) -> Result<Option<Reader>, AllocError>
    ensures { IfOk result (λ o. o ≡ with_joined options name.now value.now) }
{
    match key_of(name) {
        Some(key) => with_value(alloc, options, key, value),
        None => Ok(None),
    }
}

fn with_key(options: Options, key: Option<Key>) -> Option<Reader>
    ensures { result ≡ option_map (waiting options) key }
{
    match key {
        Some(key) => Some(Reader {
            options,
            pending: Some(key),
        }),
        None => None,
    }
}

fn with_value(
    alloc: Global,
    options: Options,
    key: Key,
    word: &str,
) -> Result<Option<Reader>, AllocError>
    ensures { IfOk result (λ o. o ≡ with_value options key word.now) }
{
    match put(alloc, options, key, word)? {
        Some(options) => Ok(Some(settled(options))),
        None => Ok(None),
    }
}

fn with_audit(options: Options) -> Option<Reader>
    ensures { result ≡ with_audit options }
{
    if options.audit {
        return None;
    }
    let mut options = options;
    options.audit = true;
    Some(settled(options))
}
