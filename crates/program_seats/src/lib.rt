//! The seats of a control socket's clients: the text that waits for each client, and which client a reply belongs to.
//! The thread that replies never waits for a client.
#![tactic(auto)]

mod asker;
mod outbox;
mod seat;
mod seats;

pub use asker::Asker;
pub use outbox::{Outbox, RESERVED_OCTETS, Way};
pub use seat::{Given, Seat};
pub use seats::{LAST_MS, PLACES, SEATS, STREAMS, Seats, TEXT_OCTETS, WATCHERS};
