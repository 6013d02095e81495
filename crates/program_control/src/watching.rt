//! Answers the lines of a client that only watches.
use crate::reading::ask;
use program_desk::{Desk, Said};
use program_seats::{Asker, Seats};
use server_lines::{Command, only_looks};
use std::alloc::AllocError;
use std::sync::Wait;

// The reply to any line that does more than look at the station, with the line that ends a reply.
const NOT_HERE: &[u8] = b"refused NotHere\n.\n";

/// Leaves a watcher's line at the desk, if it only looks at the station, and waits for its reply. Any other line is
/// refused here. Returns whether more may be read.
pub(crate) fn look<R: Wait>(
    rt: &R,
    command: Result<Option<Command>, AllocError>,
    asker: Asker,
    desk: &Desk,
    seats: &Seats,
) -> bool {
    match command {
        Ok(Some(command)) if only_looks(&command) => {
            ask(rt, asker, Said::Command(command), desk, seats)
        }
        Ok(_) => seats.ask(rt, asker) && seats.answer(rt, asker, NOT_HERE),
        Err(AllocError) => ask(rt, asker, Said::NoMemory, desk, seats),
    }
}
