//! What the threads of a program share besides the entity: counts of datagrams by thread and by remote entity, refusals
//! by kind, and which links are held.
#![tactic(auto)]

mod counts;
mod files;
mod ledger;
mod links;
mod refusals;
mod replies;
mod tallies;
mod traffic;
mod whole;

pub use counts::{CONDITIONS, Class, Ended, EndedCounts, Role};
pub use files::{Files, missing_of};
pub use ledger::Ledger;
pub use links::Links;
pub use refusals::{RefusalCase, RefusalKind, SHOWN_OCTETS};
pub use replies::Window;
pub use tallies::Tallies;
pub use traffic::{RemoteTotals, Totals, Traffic};
pub use whole::is_whole;
