//! The lines and texts of the server for people: what became of a request, replies, why it ended too early, and what makes
//! little sense in a configuration.
#![tactic(auto)]

mod answers;
mod explaining;
mod note;
mod notes;
mod outcome;
mod remarks;

pub use answers::{
    push_bad_command, push_entity_refusal, push_no_memory, push_taken, push_too_large, push_traced,
};
pub use explaining::{push_cause, push_folder_notes, push_log_reason, push_station_fault};
pub use note::Note;
pub use notes::notes_of;
pub use outcome::{Declined, Outcome, Taken, may_pass, push_declined, push_outcome};
pub use remarks::push_remarks;
