//! What the server does at a command.
use crate::recordings::record_for;
use crate::tuning::tune;
use cfdp_types::TxnKey;
use entity_routing::RouteRefusal;
use event_levels::Level;
use program_desk::Said;
use program_seats::Asker;
use program_start::ProgramFault;
use server_answers::{
    push_bad_command, push_entity_refusal, push_no_memory, push_outcome, push_traced,
};
use server_kept::push_withdrawn;
use server_lines::{Command, SendCommand, Tuning};
use server_requests::Working;
use server_status::{Shows, answer_status, hold, release};
use shared_entity::{Entity, EntityRefusal};
use shared_lanes::Names;
use std::alloc::{AllocError, Global};
use std::rt::Files;
use std::sync::Wait;
use std::time::Clock;

/// Whether the server goes on after a command.
#[derive(Clone, Copy, Debug, PartialEq, Eq)]
pub(crate) enum Next {
    GoesOn,
    /// The client that asked follows from then on, after the last events, so many at most; from a level on, if one is
    /// asked for.
    Follows(Asker, u64, Option<Level>),
    /// The reply comes later.
    Later,
    Quits,
}

// Says that the server goes on after a reply.
fn goes_on(written: Result<(), AllocError>) -> Result<Next, AllocError> {
    written?;
    Ok(Next::GoesOn)
}

// Replies `ok`, and says what comes next.
fn answered(text: &mut String, next: Next) -> Result<Next, AllocError> {
    text.push_str("ok\n")?;
    Ok(next)
}

// Reports how far a transaction is.
fn trace<N: Names, R: Wait + Copy>(
    rt: &R,
    alloc: Global,
    entity: &Entity<N, R>,
    key: TxnKey,
    text: &mut String,
) -> Result<(), AllocError> {
    match entity.trace(rt, key) {
        Ok(traced) => push_traced(text, traced),
        Err(refusal) => push_entity_refusal(alloc, text, &refusal),
    }
}

/// Does what a line says, and adds the reply.
pub(crate) fn obey<N: Names, R: Wait + Clock + Files + AllocGlobal + Copy + Drop>(
    work: &mut Working<'_, '_, N, R>,
    said: Said,
    asker: Option<Asker>,
    text: &mut String,
) -> Result<Next, AllocError> {
    match said {
        Said::Command(command) => obey_command(work, command, asker, text),
        Said::Put(put, file) => {
            let outcome = work.put(&put, file, None);
            goes_on(push_outcome(work.alloc, text, &outcome))
        }
        Said::Send(send, size) => goes_on(queue_known(work, send, size, text)),
        Said::Bad(why) => goes_on(push_bad_line(text, why.as_slice(), work.settings.explains)),
        Said::NoMemory => goes_on(push_no_memory(text)),
    }
}

// Adds that a line isn't a command; with `explains` also why.
fn push_bad_line(text: &mut String, why: &[u8], explains: bool) -> Result<(), AllocError> {
    push_bad_command(text)?;
    match str::from_utf8(why) {
        Ok(why) if explains && !why.is_empty() => writeln!(text, "{why}"),
        _ => Ok(()),
    }
}

// Does what a command says. Only clients follow, and get a reply before the server ends.
fn obey_command<N: Names, R: Wait + Clock + Files + AllocGlobal + Copy + Drop>(
    work: &mut Working<'_, '_, N, R>,
    command: Command,
    asker: Option<Asker>,
    text: &mut String,
) -> Result<Next, AllocError> {
    match (command, asker) {
        (Command::Quit, None) => Ok(Next::Quits),
        (Command::Quit, Some(_)) => answered(text, Next::Quits),
        (Command::Follow(most), Some(asker)) => answered(text, Next::Follows(asker, most, None)),
        (Command::Tune(Tuning::FollowFrom(most, least)), Some(asker)) => answered(
            text,
            Next::Follows(asker, most, Some(least)),
        ),
        (Command::Journal(key), asker) => record_for(work, key, asker, text),
        (other, _) => goes_on(do_command(work, other, text)),
    }
}

// Does what any line may ask for.
fn do_command<N: Names, R: Wait + Clock + Files + AllocGlobal + Copy + Drop>(
    work: &mut Working<'_, '_, N, R>,
    command: Command,
    text: &mut String,
) -> Result<(), AllocError> {
    let (rt, alloc, config) = (work.rt, work.alloc, work.station.entity().config());
    match command {
        Command::Status => show(work, text),
        Command::Take(user) => work.audience.take(user, text),
        Command::Trace(key) => trace(rt, alloc, work.station.entity(), key, text),
        Command::Ask(user, request) => {
            let outcome = work.ask_for(user, request);
            push_outcome(alloc, text, &outcome)
        }
        Command::Send(send) => work.outbox.queue(rt, alloc, config, send, text),
        Command::Outbox => work.outbox.answer(alloc, config, text),
        Command::Drop(number) => withdraw(work, number, text),
        Command::Hold(remote) => hold(
            rt,
            &mut work.station.timetable,
            work.windows,
            &mut work.audience.reports,
            remote,
            text,
        ),
        Command::Release(remote) => release(
            rt,
            &mut work.station.timetable,
            work.windows,
            &mut work.outbox.outgoing,
            &mut work.audience.reports,
            remote,
            text,
        ),
        Command::Tune(tuning) => tune(work, tuning, text),
        Command::Put(_) | Command::Follow(_) | Command::Journal(_) | Command::Quit => {
            push_bad_command(text)
        }
    }
}

// Puts a file whose size was looked at in the outbox, unless it can't be sent.
fn queue_known<N: Names, R: Wait + Clock + Files + AllocGlobal + Copy + Drop>(
    work: &mut Working<'_, '_, N, R>,
    send: SendCommand,
    size: Result<u64, ProgramFault>,
    text: &mut String,
) -> Result<(), AllocError> {
    let (rt, alloc, config) = (work.rt, work.alloc, work.station.entity().config());
    if !work.station.timetable.is_known(send.destination) {
        let refusal = EntityRefusal::Route(RouteRefusal::UnknownRemote);
        return push_entity_refusal(alloc, text, &refusal);
    }
    work.outbox.queue_known(rt, alloc, config, send, size, text)
}

// Takes the file with a number out of the outbox.
fn withdraw<N: Names, R: Wait + Clock + Files + AllocGlobal + Copy + Drop>(
    work: &mut Working<'_, '_, N, R>,
    number: u64,
    text: &mut String,
) -> Result<(), AllocError> {
    let withdrawn = work.outbox.withdraw(number);
    if let Ok(Some(waiting)) = &withdrawn {
        work.audience.reports.fail(waiting, "dropped", None);
    }
    push_withdrawn(text, &withdrawn)
}

// Shows a status.
fn show<N: Names, R: Wait + Clock + Files + AllocGlobal + Copy + Drop>(
    work: &mut Working<'_, '_, N, R>,
    text: &mut String,
) -> Result<(), AllocError> {
    let shows = Shows {
        shared: work.shared,
        outgoing: &work.outbox.outgoing,
        windows: &*work.windows,
        rate_of_rest: work.station.timetable.rate_of_rest(),
        peers: work.readiness.peers(),
        started: work.settings.started,
        explains: work.settings.explains,
    };
    answer_status(
        work.rt,
        work.alloc,
        work.station.entity(),
        work.audience,
        shows,
        text,
    )
}
