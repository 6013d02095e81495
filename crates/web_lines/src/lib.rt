//! Lines of a station's status, one JSON object each: as one JSON document, and as numbers for Prometheus.
#![tactic(auto)]

mod counted;
mod document;
mod families;
mod hindered;
mod kind;
mod labels;
mod lines;
mod metrics;
mod numbers;
mod place;
mod series;
mod state;
mod text;
mod told;
mod told_counts;

pub use document::to_document;
pub use kind::Kind;
pub use metrics::{no_metrics, to_metrics};
pub use numbers::{event_number, start_moment};
