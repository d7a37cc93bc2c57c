//! How a script of commands is answered, item by item, as laws over what the transcript itself has told.
#![tactic(auto)]

mod laws;

pub use laws::{every_answer_fits, one_session_is_as_plain, who_is_alone_does_not_wait};
