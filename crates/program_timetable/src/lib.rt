//! When the PDUs of files leave and timers expire: by the files under way, the limits of the links, and which of them
//! are held.
#![tactic(auto)]

mod link_book;
mod timetable;

pub use timetable::{Choice, Payer, Timetable};
