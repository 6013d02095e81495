//! What workers do with the datagrams that arrive, and with what the entity answers: they send the PDUs of their steps
//! and leave the rest at a desk.
#![tactic(auto)]

mod arrivals;
mod forwarder;
mod turns;

pub use arrivals::{Arrivals, Sources};
pub use forwarder::{Forwarder, forwarders_of, run_forwarders};
pub use turns::Turns;
