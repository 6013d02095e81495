//! A Session: an entity (a World) with what its last step left, for callers that fetch it piece by piece.
#![tactic(auto)]

mod flat;
mod kept;
mod order;
mod plan;
mod session;
mod turning;
mod turns;

pub use flat::{
    FlatBundle, FlatDeposit, FlatDone, FlatImage, FlatIndication, FlatKey, FlatRemote, FlatTimer,
    FlatTransaction,
};
pub use kept::KeptTimers;
pub use order::Order;
pub use plan::{Plan, Unset};
pub use session::{Session, Taking, Telling, Ticking};
pub use turns::Turns;
