//! A disk, described by the requests to it, and what a power cut may leave of it.
#![tactic(auto)]

mod device;
mod faults;
mod laws;
mod log;
mod system;

pub use device::{Disk, Fault};
pub use faults::Hindrance;
pub use laws::{files_stay, steps_count};
pub use log::{Asked, Log, Note};
pub use system::SystemDisk;
