//! Indications: what the server reports to a local user about a transaction, and in which order.
#![tactic(auto)]

mod bundle;
mod indication;
mod kind;
mod outlet;
mod side;

pub use bundle::Bundle;
pub use indication::{Indication, Indications, Phase, ReceivedMetadata};
pub use kind::IndicationKind;
pub use outlet::Outlet;
pub use side::Side;
