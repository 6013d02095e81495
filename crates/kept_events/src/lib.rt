//! The last events of a server: of all, and of those that matter.
#![tactic(auto)]

mod kept;
mod line;
mod ring;

pub use kept::KeptEvents;
pub use line::{KeptLine, SegmentEvent, Text};
pub use ring::{Form, KEPT_LINES, KEPT_OCTETS, Ring};
