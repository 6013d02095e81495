//! Lanes. Each runs one transaction after the other, those of its user or those from one source, and hands the
//! indications of each step to its user's queue. Transactions are opened, planned and carried out in the same way
//! at both ends.
#![tactic(auto)]

mod copying;
mod glance;
mod handing;
mod lane;
mod lane_refusals;
mod opening;
mod put;
mod running;
mod stepping;
mod transaction;

pub use cfdp_types::{Deposit, Image, TimerOp};
pub use indications::Outlet;
pub use lane::Lane;
pub use lane_table::{Done, Glance, GlancedFile, LaneSide, Numbers, Refused};
pub use txn_events::{Event, Refusal, What};
