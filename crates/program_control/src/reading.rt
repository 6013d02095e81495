//! Reads one client's commands.
use crate::attending::Attending;
use crate::watching::look;
use program_desk::{Desk, Said, said_by};
use program_seats::{Asker, Seats};
use program_start::FileReader;
use server_lines::command_of;
use std::io::{BufRead, Read};
use std::sync::Wait;
use std::time::Clock;

// How many octets of memory are reserved for a command, so that a short one needs no more.
const RESERVED_OCTETS: usize = 1_024;

/// How many octets a command may have, its line feed included.
pub const COMMAND_OCTETS: u64 = 131_072;

/// Leaves a client's commands at the desk, one at a time: the next is read once the one before has its reply. The file
/// of a Put is read here, so only this client waits for it. Returns when the lines end, reading fails, a line is too
/// long, memory runs out, or the client's way or the desk is closed. A last line without a line feed is not a command.
/// A line of a client that only watches is refused unless it only looks at the station.
pub(crate) fn read_commands<R: Wait + Clock, F: FileReader, B: BufRead + Drop>(
    attending: &Attending<'_, R, F>,
    reader: &mut B,
    asker: Asker,
) {
    let Attending {
        rt,
        alloc,
        files,
        config,
        desk,
        seats,
    } = *attending;
    let Ok(mut line) = Vec::with_capacity(alloc, RESERVED_OCTETS) else {
        return;
    };
    for _ in rt.forever() {
        line.clear();
        let wants_more = match reader.take(COMMAND_OCTETS).read_until(b'\n', &mut line) {
            Ok(count) => {
                if line.pop() == Some(b'\n') {
                    if Seats::is_watching(asker) {
                        let command = command_of(alloc, config, line.as_slice());
                        look(rt, command, asker, desk, seats)
                    } else {
                        let said = said_by(rt, alloc, files, config, line.as_slice(), desk);
                        ask(rt, asker, said, desk, seats) && line.as_slice() != b"quit".as_slice()
                    }
                } else {
                    if count as u64 >= COMMAND_OCTETS {
                        let _answered = ask(rt, asker, Said::Bad(Vec::new(alloc)), desk, seats);
                    }
                    false
                }
            }
            Err(_) => false,
        };
        if !wants_more {
            return;
        }
    }
}

/// Leaves one parsed line and waits for its reply; returns whether more may be read.
pub(crate) fn ask<R: Wait>(rt: &R, asker: Asker, said: Said, desk: &Desk, seats: &Seats) -> bool {
    seats.ask(rt, asker) && desk.leave_line(rt, said, Some(asker)) && seats.wait_answer(rt, asker)
}
