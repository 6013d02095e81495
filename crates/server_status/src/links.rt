//! A link is held, or opened, for good or for a time.
use cfdp_types::EntityId;
use program_desk::{moment, wall_moment};
use program_outbox::{Outgoing, Windows};
use program_timetable::Timetable;
use server_answers::push_no_memory;
use server_reports::Reports;
use station_lines::Moment;
use std::alloc::AllocError;
use std::sync::Wait;
use std::time::Clock;

// The reply if the configuration has no entity with the ID that a command names.
const UNKNOWN: &str = "refused UnknownRemote\n";

/// Holds the link to a remote entity: nothing leaves for it from now on.
pub fn hold<R: Wait + Clock>(
    rt: &R,
    timetable: &mut Timetable<'_>,
    windows: &mut Windows,
    reports: &mut Reports<'_, R>,
    remote: EntityId,
    text: &mut String,
) -> Result<(), AllocError> {
    if !close_link(rt, timetable, windows, reports, remote) {
        return text.push_str(UNKNOWN);
    }
    text.push_str("ok\n")
}

/// Opens the link to a remote entity again.
pub fn release<R: Wait + Clock>(
    rt: &R,
    timetable: &mut Timetable<'_>,
    windows: &mut Windows,
    outgoing: &mut Outgoing,
    reports: &mut Reports<'_, R>,
    remote: EntityId,
    text: &mut String,
) -> Result<(), AllocError> {
    if !open_link(rt, timetable, outgoing, reports, remote) {
        return text.push_str(UNKNOWN);
    }
    windows.forget(remote);
    text.push_str("ok\n")
}

/// Opens the link to a remote entity for so many seconds. Then it is held.
pub fn release_for<R: Wait + Clock>(
    rt: &R,
    timetable: &mut Timetable<'_>,
    windows: &mut Windows,
    outgoing: &mut Outgoing,
    reports: &mut Reports<'_, R>,
    (remote, seconds): (EntityId, u64),
    text: &mut String,
) -> Result<(), AllocError> {
    if !timetable.is_known(remote) {
        return text.push_str(UNKNOWN);
    }
    if windows.open_for(remote, moment(rt), seconds).is_err() {
        return push_no_memory(text);
    }
    let _is_there = open_link(rt, timetable, outgoing, reports, remote);
    text.push_str("ok\n")
}

/// Holds the links that were open only for a time, if that is over at a moment; at most so many.
pub fn end_windows<R: Wait + Clock>(
    rt: &R,
    timetable: &mut Timetable<'_>,
    windows: &mut Windows,
    reports: &mut Reports<'_, R>,
    now: u64,
    most: usize,
) {
    for _ in 0..most {
        let Some(remote) = windows.take_over(now) else {
            break;
        };
        let was_held = timetable.is_held(remote);
        let at = wall_moment(rt);
        if timetable.hold(remote, at) && !was_held {
            reports.hold_planned(Moment(at), remote);
        }
    }
}

// Holds a link, and reports that if it was open. Returns whether the configuration has the entity.
pub(crate) fn close_link<R: Wait + Clock>(
    rt: &R,
    timetable: &mut Timetable<'_>,
    windows: &mut Windows,
    reports: &mut Reports<'_, R>,
    remote: EntityId,
) -> bool {
    let was_held = timetable.is_held(remote);
    let at = wall_moment(rt);
    if !timetable.hold(remote, at) {
        return false;
    }
    windows.forget(remote);
    if !was_held {
        reports.hold(Moment(at), remote);
    }
    true
}

// Opens a link again, and reports that if it was held. Returns whether the configuration has the entity.
pub(crate) fn open_link<R: Wait + Clock>(
    rt: &R,
    timetable: &mut Timetable<'_>,
    outgoing: &mut Outgoing,
    reports: &mut Reports<'_, R>,
    remote: EntityId,
) -> bool {
    let was_held = timetable.is_held(remote);
    let now = moment(rt);
    if !timetable.release(remote, now) {
        return false;
    }
    outgoing.try_from(now);
    if was_held {
        reports.release(remote);
    }
    true
}
