//! What is wrong with a configuration, in words: the line, the table, the key, what is found there, and what is allowed.
#![tactic(auto)]

mod allowed;
mod explaining;
mod keys;
mod lines;
mod place;
mod scan;
mod sentence;
mod spot;
mod values;

pub use allowed::{allowed_at, remedy};
pub use explaining::explained;
pub use keys::push_handlers;
pub use lines::line_of;
pub use place::{Place, line_within, place_among, place_of};
pub use scan::Sought;
pub use sentence::push_sentence;
pub use spot::{Spot, spot_in};
pub use values::push_value;
