//! The links of a server, which its commands hold, open and limit, and what it shows of itself: the reply to `status`.
#![tactic(auto)]

mod all;
mod counting;
mod limits;
mod links;
mod showing;

pub use all::{hold_all, release_all};
pub use counting::counts_of;
pub use limits::limit;
pub use links::{end_windows, hold, release, release_for};
pub use showing::{Shows, answer_status};
