//! A separate thread stores received files, so that a slow disk holds nothing else up.
#![tactic(auto)]

mod depot;
mod station_files;
mod storer;

pub use depot::{Depot, DepotReport, LastStore, Stored, StoredNote, Storing};
pub use station_files::StationFiles;
pub use storer::{Storer, StorerTurn, run_storer};
