use entity_config::Config;
use program_desk::Desk;
use program_seats::Seats;
use std::alloc::Global;

/// What the threads that serve clients share.
#[derive(Drop)]
pub struct Attending<'x, R, F> {
    pub rt: &'x R,
    pub alloc: Global,
    /// Reads the files of their Puts.
    pub files: &'x F,
    /// Parses their lines.
    pub config: &'x Config,
    /// Where their commands are left.
    pub desk: &'x Desk,
    /// Where they sit.
    pub seats: &'x Seats,
}
