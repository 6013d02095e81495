//! The main thread of the server, which works in turns.
use crate::commands::{Next, obey};
use crate::console::Console;
use crate::given::{report_command, unread_of, words_of};
use crate::recordings::record_ended;
use crate::turns::{end, end_storing, rest, settle, turn};
use program_desk::{AskedLine, NextLine, Said, moment};
use program_seats::{Asker, RESERVED_OCTETS};
use program_start::ProgramFault;
use program_station::REST_MS;
use server_answers::push_no_memory;
use server_reports::{Audience, waits_for_followers};
use server_requests::Working;
use shared_lanes::Names;
use std::alloc::AllocError;
use std::io::Write;
use std::rt::Files;
use std::sync::Wait;
use std::thread;
use std::time::{Clock, Duration};

// How many rounds of bundles, one of each user, are taken in a turn at most, and after how many octets none is taken.
const ROUNDS: usize = 256;

const PRINTED_OCTETS: usize = 65_536;

// How many times at most a server that quits takes what users received.
const LAST_RECEIPTS: usize = 64;

/// Works in turns until `quit` or the end of the commands. A turn handles at most one command, and a few timers, parked
/// datagrams and PDUs of files under way.
pub fn work_in_turns<N: Names, R: Wait + Clock + Files + AllocGlobal + Copy + Drop, W: Write>(
    work: &mut Working<'_, '_, N, R>,
    console: &mut Console<'_, W>,
) -> Result<(), ProgramFault> {
    let rt = work.rt;
    let mut text = String::with_capacity(work.alloc, RESERVED_OCTETS)?;
    work.audience.reports.start();
    for _ in rt.forever() {
        let has_settled = settle(work);
        if !work.station.is_settled() {
            thread::sleep(rt, Duration::from_millis(REST_MS));
            continue;
        }
        text.clear();
        work.audience.reports.begin_turn();
        let (has_answered, next) = answer_next(work, console, &mut text)?;
        if next == Next::Quits {
            break;
        }
        let now = moment(rt);
        let waits = waits(work, now);
        let has_received = !waits && receive(rt, work.audience, console, &mut text)?;
        if has_received {
            work.station.hear_of_room();
        }
        let has_worked = turn(work, now);
        if !has_settled && !has_answered && !has_received && !has_worked {
            rest(work, now, waits);
        }
    }
    end_storing(work);
    receive_last(work, console, &mut text)?;
    end(work);
    Ok(())
}

// Whether users' bundles wait at a moment for a client that follows.
fn waits<N: Names, R: Wait + Clock + Files + AllocGlobal + Copy + Drop>(
    work: &mut Working<'_, '_, N, R>,
    now: u64,
) -> bool {
    match work.shared.seats {
        Some(seats) => waits_for_followers(work.rt, seats, work.spells, now),
        None => false,
    }
}

// Takes what users received up to the end, if it is reported, recorded or counted.
fn receive_last<N: Names, R: Wait + Clock + Files + AllocGlobal + Copy + Drop, W: Write>(
    work: &mut Working<'_, '_, N, R>,
    console: &mut Console<'_, W>,
    text: &mut String,
) -> Result<(), ProgramFault> {
    if !work.audience.is_reported() {
        return Ok(());
    }
    for _ in 0..LAST_RECEIPTS {
        work.audience.reports.begin_turn();
        if !receive(work.rt, work.audience, console, text)? {
            break;
        }
        record_ended(work);
    }
    Ok(())
}

// Replies to the next command, if there is one. Returns whether there was one, and whether the server goes on.
fn answer_next<N: Names, R: Wait + Clock + Files + AllocGlobal + Copy + Drop, W: Write>(
    work: &mut Working<'_, '_, N, R>,
    console: &mut Console<'_, W>,
    text: &mut String,
) -> Result<(bool, Next), ProgramFault> {
    if prints_recording(work, text) {
        let has_printed = !text.is_empty();
        if !has_printed {
            thread::sleep(work.rt, Duration::from_millis(REST_MS));
        }
        console.answer(work.rt, None, text)?;
        text.clear();
        return Ok((has_printed, Next::GoesOn));
    }
    let asked = match work.shared.desk.take_line(work.rt) {
        NextLine::Line(asked) => asked,
        NextLine::Awaited => return Ok((false, Next::GoesOn)),
        NextLine::End => return Ok((false, Next::Quits)),
        NextLine::NoMemory => return Err(ProgramFault::NoMemory),
        NextLine::Deserted => return Err(ProgramFault::Start),
    };
    let AskedLine { said, asker } = asked;
    let next = obey_reported(work, said, asker, text)?;
    if next != Next::Later {
        console.answer(work.rt, asker, text)?;
    }
    if let (Next::Follows(asker, most, least), Some(seats)) = (next, work.shared.seats) {
        work.audience.follow(seats, asker, most, least);
    }
    text.clear();
    Ok((true, next))
}

// Adds the next piece of a recording that is to be printed, and returns whether one is. If memory for the piece runs
// out, it is printed later.
fn prints_recording<N: Names, R: Wait + Clock + Files + AllocGlobal + Copy + Drop>(
    work: &mut Working<'_, '_, N, R>,
    text: &mut String,
) -> bool {
    match work.audience.watched.print_recording(work.rt, text) {
        Ok(prints) => prints,
        Err(AllocError) => {
            text.clear();
            true
        }
    }
}

// Does what a line says, and reports it, if that is wanted. If memory for the reply runs out, the reply says so.
fn obey_reported<N: Names, R: Wait + Clock + Files + AllocGlobal + Copy + Drop>(
    work: &mut Working<'_, '_, N, R>,
    said: Said,
    asker: Option<Asker>,
    text: &mut String,
) -> Result<Next, AllocError> {
    let words = words_of(work, &said);
    let mut unread = unread_of(work, &said);
    let next = match obey(work, said, asker, text) {
        Ok(next) => next,
        Err(AllocError) => {
            text.clear();
            push_no_memory(text)?;
            unread = None;
            Next::GoesOn
        }
    };
    let reports = &mut work.audience.reports;
    report_command(reports, words.as_slice(), asker, text, unread);
    Ok(next)
}

// Takes what users received so far, if that is wanted, in rounds, as long as the last round took a bundle. Returns
// whether any was taken.
fn receive<R: Wait + Clock + Files, W: Write>(
    rt: &R,
    audience: &mut Audience<'_, R>,
    console: &mut Console<'_, W>,
    text: &mut String,
) -> Result<bool, ProgramFault> {
    if !audience.receives() {
        return Ok(false);
    }
    let mut has_received = false;
    for _ in 0..ROUNDS {
        if !audience.receive_each(text, PRINTED_OCTETS)? {
            break;
        }
        has_received = true;
    }
    if !text.is_empty() {
        console.answer(rt, None, text)?;
        text.clear();
    }
    Ok(has_received)
}
