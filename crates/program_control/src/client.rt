//! The two threads that serve a client.
use crate::attending::Attending;
use crate::reading::read_commands;
use crate::urgent::{PATIENCE_MS, read_urgent};
use crate::writing::write_answers;
use program_seats::{Asker, Seats};
use program_start::FileReader;
use script_io::in_blocks;
use std::net::Shutdown;
use std::os::unix::net::UnixStream;
use std::sync::Wait;
use std::thread;
use std::thread::Threads;
use std::time::{Clock, Duration};

/// Serves the client of a seat until it leaves: this thread reads, and a second one writes. A client at the spare seat
/// may give one command.
pub(crate) fn serve_client<R: Threads + Wait + Clock + Sync, F: FileReader>(
    attending: &Attending<'_, R, F>,
    stream: UnixStream,
    asker: Asker,
) {
    let (rt, alloc, seats) = (attending.rt, attending.alloc, attending.seats);
    let is_spare = Seats::is_spare(asker);
    if is_spare {
        let _as_it_may = stream.set_write_timeout(Some(Duration::from_millis(PATIENCE_MS)));
    }
    let shared = &stream;
    thread::scope(thread::scope_env(), rt, move |scope| {
        let started = scope.spawn(move || {
            let mut writer = shared;
            write_answers(rt, alloc, &mut writer, asker, seats)
        });
        if started.is_ok() && is_spare {
            read_urgent(attending, shared, asker);
        } else if started.is_ok()
            && let Ok(mut reader) = in_blocks(alloc, shared)
        {
            read_commands(attending, &mut reader, asker);
        }
        seats.end(rt, asker);
    });
    let _as_it_may = stream.shutdown(Shutdown::Both);
    seats.leave(rt, asker);
}
