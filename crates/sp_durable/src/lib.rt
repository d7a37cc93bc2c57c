//! What the commits that wait for the disk hold, and what the disk recovers to, as laws.
#![tactic(auto)]

mod counts;
mod events;
mod queues;
mod settling;
mod stops;

pub use counts::{
    events_leave_changes_queued, events_leave_counts, queued_changes_are_few, standing_counts_agree,
};
pub use events::events_leave_what_is_queued;
pub use queues::queued_changes_apply;
pub use settling::changes_leave_what_commits;
pub use stops::stops_leave_every_commit;
