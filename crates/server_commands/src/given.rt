//! Who commanded what, for whoever reads events.
use program_desk::Said;
use program_seats::Asker;
use program_start::Unread;
use server_lines::{command_words, put_words, send_words};
use server_reports::Reports;
use server_requests::{Working, unread_in};
use shared_lanes::Names;
use std::rt::Files;
use std::str;
use std::sync::Wait;
use std::time::Clock;

/// The words of a command to be reported; empty if that isn't wanted, it changes nothing, or memory ran out.
pub(crate) fn words_of<N: Names, R: Wait + Clock + Files + AllocGlobal + Copy + Drop>(
    work: &Working<'_, '_, N, R>,
    said: &Said,
) -> Vec<u8> {
    if !work.settings.logs_commands || !work.audience.reports.has_readers() {
        return Vec::new(work.alloc);
    }
    let config = work.station.entity().config();
    let words = match said {
        Said::Command(command) => command_words(work.alloc, config, command),
        Said::Put(put, _) => put_words(work.alloc, config, put),
        Said::Send(send, _) => send_words(work.alloc, config, send),
        Said::Bad(_) | Said::NoMemory => Ok(Vec::new(work.alloc)),
    };
    match words {
        Ok(words) => words,
        Err(_) => Vec::new(work.alloc),
    }
}

/// Why the reply to a line is a `read fault`, if it is one and that is to be said. A `send` to an entity that isn't
/// configured is refused for that first.
pub(crate) fn unread_of<N: Names, R: Wait + Clock + Files + AllocGlobal + Copy + Drop>(
    work: &Working<'_, '_, N, R>,
    said: &Said,
) -> Option<Unread> {
    if !work.settings.explains {
        return None;
    }
    match said {
        Said::Put(_, file) => unread_in(file),
        Said::Send(send, size) if work.station.timetable.is_known(send.destination) => unread_in(
            size,
        ),
        _ => None,
    }
}

/// Reports a command by its words, if there are any, with the reply, and why its file can't be read, if that is to be
/// said.
pub(crate) fn report_command<R: Wait + Clock + Files>(
    reports: &mut Reports<'_, R>,
    words: &[u8],
    asker: Option<Asker>,
    answer: &str,
    unread: Option<Unread>,
) {
    if words.is_empty() {
        return;
    }
    let seat = asker.map(|asker| asker.seat as u64);
    if let Ok(words) = str::from_utf8(words) {
        reports.command(words, answer, seat, unread);
    }
}
