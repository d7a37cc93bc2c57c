//! What a transcript has told of transactions is what the kernel keeps, as laws.
#![tactic(auto)]

mod laws;

pub use laws::{
    commands_tell_what_is_kept, events_tell_what_is_kept, events_tell_what_is_started,
    transcripts_grow_by_items,
};
