//! The kernel of a transactional server of rectangles with records: its state, and what one event makes of it.
#![tactic(auto)]

mod ending;
mod events;
mod needs_left;
mod opening;
mod operations;
mod requests;
mod session;

pub use ending::{
    commits_keep_sound, ends_change_marked_entries, flushes_keep_sound,
    placed_sessions_are_told_their_places, removals_keep_sound, rollbacks_keep_sound,
};
pub use events::{every_event_keeps_sound, every_run_is_serial};
pub use needs_left::NeedsLeft;
pub use opening::opened_is_sound;
pub use operations::operations_keep_sound;
pub use requests::{begins_keep_sound, plans_keep_sound, requests_keep_sound};
pub use session::{Session, Stage};
