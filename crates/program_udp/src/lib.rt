//! The datagrams of a program: its socket, the addresses of remote entities, how PDUs are sent, and how far into its
//! file the data in them reaches.
#![tactic(auto)]

mod addresses;
mod opening;
mod peers;
mod reach;
mod room;
mod sender;
mod widening;

pub use addresses::{Compared, PeerAddress, addresses_of, peer_among, place_of_address};
pub use opening::open_socket;
pub use peers::{address_of, other_end_of};
pub use reach::reach_of;
pub use sender::{PduSender, wake_reader};
