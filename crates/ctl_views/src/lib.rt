//! Shows a station's status, events and answers in a form for people.
#![tactic(auto)]

mod amounts;
mod choosing;
mod columns;
mod conditions;
mod ends;
mod events;
mod fields;
mod history;
mod lines;
mod listing;
mod meanings;
mod moments;
mod outcomes;
mod page;
mod parts;
mod rows;
mod seen;
mod sent;
mod shown;
mod status;
mod sums;
mod table;
mod telling;
mod under_way;
mod words;

pub use amounts::push_progress;
pub use choosing::{Live, Topic, is_shown, read_live, shown_lines};
pub use ends::End;
pub use events::{Event, Step, Transaction, read_event};
pub use history::{Ended, History, Way};
pub use lines::{Progress, StatusLine, read_status_line};
pub use listing::{Sums, ended_json, push_ended, push_sums, sums_json};
pub use moments::moment_begun;
pub use outcomes::{Outcome, exit_status, outcome_of};
pub use page::{Page, Piece, Tone};
pub use sent::{About, FileLine, read_file_line};
pub use shown::Shown;
pub use status::StatusView;
pub use sums::{NO_SUM, Sum, Wanted, is_listed, is_lost, is_remote};
pub use under_way::{Place, UnderWay, read_under_way};
