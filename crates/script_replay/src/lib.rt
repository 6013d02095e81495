//! Runs a script through one protocol entity, and writes the entity's answers.
#![tactic(auto)]

mod answer;
mod program;
mod run;
mod session;

pub use answer::{push_answer, push_taken};
pub use program::{play_to_end, play_with};
pub use run::{AnswerPace, LINES, replay, replay_at, replay_with};
pub use script_io::ReplayFault;
pub use session::Session;
