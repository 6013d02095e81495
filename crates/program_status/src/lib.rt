//! What a server shows: its status, and the events that it reports.
#![tactic(auto)]

mod count_lines;
mod counts;
mod events;
mod notes;
mod refused;
mod status;
mod streams;

pub use counts::StationCounts;
pub use events::Events;
pub use notes::{LaneNote, LaneNotes};
pub use status::{LaneHint, Shown, push_outbox, push_status};
