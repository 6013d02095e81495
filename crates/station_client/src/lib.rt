//! A station's control socket from the client's side: commands, replies, events.
#![tactic(auto)]

mod connecting;
mod exchange;
mod fault;
mod lines;
mod station;

pub use exchange::{ANSWER_OCTETS, Exchange, KEPT_EVENTS};
pub use fault::StationFault;
pub use lines::{Incoming, LINE_OCTETS, LineKind, kind_of};
pub use station::Station;
