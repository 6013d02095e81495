//! A store that keeps received files in a folder, or in folders below it.
#![tactic(auto)]

mod folders;
mod keeping;
mod names;
mod prepared;
mod settings;
mod sources;
mod store;

pub use prepared::Prepared;
pub use settings::{Clash, Layout};
pub use sources::SourceStore;
pub use store::StationStore;
