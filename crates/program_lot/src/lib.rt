//! Where a station's threads keep datagrams that their lanes can't take yet, until they hand them in again.
#![tactic(auto)]

mod address;
mod handed;
mod lot;
mod refusals;
mod report;
mod settled;

pub use address::{LotAddress, address_of};
pub use handed::{Handed, ParkEnd};
pub use lot::Lot;
pub use refusals::lacks_memory;
pub use report::ParkedLane;
pub use settled::Settled;
