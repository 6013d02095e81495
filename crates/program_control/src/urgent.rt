//! Reads the command of a client that came while all seats were taken.
use crate::attending::Attending;
use crate::reading::ask;
use entity_routing::Request;
use program_desk::{Said, moment};
use program_seats::Asker;
use script_io::write_whole;
use server_lines::{Command, Tuning, command_of};
use std::alloc::Global;
use std::io;
use std::io::Read;
use std::os::unix::net::UnixStream;
use std::sync::Wait;
use std::time::{Clock, Duration};

/// For how many milliseconds such a client keeps the spare seat without a command, or without reading.
pub(crate) const PATIENCE_MS: u64 = 5_000;

// How many octets its command may have, with the line feed.
const COMMAND_OCTETS: usize = 128;

/// Leaves the command of a client at the spare seat at the desk: its first line, if it comes within five seconds and
/// asks for the status, ends the server, holds or releases a link, or abandons a transaction. Otherwise the client is
/// told that no seat is free.
pub(crate) fn read_urgent<R: Wait + Clock, F>(
    attending: &Attending<'_, R, F>,
    stream: &UnixStream,
    asker: Asker,
) {
    let Attending {
        rt,
        alloc,
        config,
        desk,
        seats,
        ..
    } = *attending;
    let command = match line_in_time(rt, alloc, stream) {
        Ok(Some(line)) => command_of(alloc, config, line.as_slice()),
        _ => Ok(None),
    };
    match command {
        Ok(Some(command)) if is_urgent(&command) => {
            let _answered = ask(rt, asker, Said::Command(command), desk, seats);
        }
        _ => refuse(stream),
    }
}

/// Tells a client that no seat is free.
pub(crate) fn refuse(stream: &UnixStream) {
    let mut writer = stream;
    let _as_it_may = write_whole(&mut writer, b"busy\n");
}

// Whether a command is accepted while all seats are taken.
fn is_urgent(command: &Command) -> bool {
    matches!(
        command,
        Command::Status
            | Command::Quit
            | Command::Hold(_)
            | Command::Release(_)
            | Command::Tune(Tuning::HoldAll | Tuning::ReleaseAll | Tuning::ReleaseFor(_, _))
            | Command::Ask(_, Request::Abandon(_))
    )
}

// The first line of a client, without its line feed, if it comes in time and is short enough.
fn line_in_time<R: Clock>(
    rt: &R,
    alloc: Global,
    stream: &UnixStream,
) -> io::Result<Option<Vec<u8>>> {
    let until = moment(rt).saturating_add(PATIENCE_MS);
    let mut line = Vec::with_capacity(alloc, COMMAND_OCTETS)?;
    let mut reader = stream;
    for _ in 0..COMMAND_OCTETS {
        let left = until.saturating_sub(moment(rt));
        if left == 0 {
            break;
        }
        stream.set_read_timeout(Some(Duration::from_millis(left)))?;
        let mut octet = [0u8];
        if reader.read(&mut octet)? == 0 {
            break;
        }
        if octet[0] == b'\n' {
            return Ok(Some(line));
        }
        line.push(octet[0])?;
    }
    Ok(None)
}
