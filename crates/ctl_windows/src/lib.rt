//! A plan of when links are open, and what is done to them by it.
#![tactic(auto)]

mod acts;
pub mod laws;
mod links;
mod moments;
mod numbers;
mod overlaps;
mod plan;
mod telling;
mod window;

pub use acts::{Act, Given, Opening, act_at, given_after, look_again, window_at};
pub use links::{Link, is_over, links_of, next_look};
pub use moments::{moment_in, moment_text};
pub use overlaps::{Clash, clashes};
pub use plan::{Fault, Plan, read_plan};
pub use telling::{
    fault_text, hold_command, push_span, rate_command, rate_text, release_command, row_head,
    row_text,
};
pub use window::{Blame, Rate, Why, Window, read_window};
