//! What changes in the server while it runs: which links are held, how much leaves over them, and which file the log
//! is.
use program_desk::moment;
use server_answers::push_bad_command;
use server_lines::Tuning;
use server_requests::Working;
use server_status::{hold_all, limit, release_all, release_for};
use shared_lanes::Names;
use std::alloc::AllocError;
use std::rt::Files;
use std::sync::Wait;
use std::time::Clock;

/// Changes the server while it runs.
pub(crate) fn tune<N: Names, R: Wait + Clock + Files + AllocGlobal + Copy + Drop>(
    work: &mut Working<'_, '_, N, R>,
    tuning: Tuning,
    text: &mut String,
) -> Result<(), AllocError> {
    let (rt, config) = (work.rt, work.station.entity().config());
    match tuning {
        Tuning::Rate(remote, octets) => {
            let now = moment(rt);
            limit(&mut work.station.timetable, remote, octets, now, text)
        }
        Tuning::HoldAll => {
            hold_all(
                rt,
                config,
                &mut work.station.timetable,
                work.windows,
                &mut work.audience.reports,
            );
            text.push_str("ok\n")
        }
        Tuning::ReleaseAll => {
            release_all(
                rt,
                config,
                &mut work.station.timetable,
                work.windows,
                &mut work.outbox.outgoing,
                &mut work.audience.reports,
            );
            text.push_str("ok\n")
        }
        Tuning::ReleaseFor(remote, seconds) => release_for(
            rt,
            &mut work.station.timetable,
            work.windows,
            &mut work.outbox.outgoing,
            &mut work.audience.reports,
            (remote, seconds),
            text,
        ),
        Tuning::Reopen => push_reopened(text, work.audience.reports.reopen_log()),
        Tuning::FollowFrom(_, _) => push_bad_command(text),
    }
}

// Adds whether the log was opened anew, if there is one.
fn push_reopened(text: &mut String, is_open: Option<bool>) -> Result<(), AllocError> {
    match is_open {
        Some(true) => text.push_str("ok\n"),
        Some(false) => text.push_str("refused LogFault\n"),
        None => text.push_str("refused NoLog\n"),
    }
}
