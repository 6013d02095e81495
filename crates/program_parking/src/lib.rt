//! Datagrams that wait until their lane can take them: each lane's in the order of the transactions' numbers, within a
//! room.
#![tactic(auto)]

mod counted;
mod lane;
pub mod laws;
mod outcome;
mod parked;
mod parking;
mod sharing;

pub use counted::Counted;
pub use lane::{LaneParking, MOST_DATAGRAMS};
pub use outcome::Outcome;
pub use parked::{Lent, Parked};
pub use parking::Parking;
pub use sharing::Holder;
