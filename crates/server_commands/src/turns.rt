//! A turn of the server, but for commands and what is printed.
use crate::recordings::record_ended;
use program_desk::moment;
use program_station::{REST_MS, Station};
use program_status::StationCounts;
use program_storing::StoredNote;
use server_reports::Reports;
use server_requests::Working;
use server_status::end_windows;
use shared_entity::Entity;
use shared_lanes::Names;
use std::rt::Files;
use std::sync::Wait;
use std::time::Clock;

// How many stored files are reported in a turn at most.
const STORED: usize = 64;

// How long a server that quits waits for the file that it is storing, in milliseconds.
const LAST_STORE_MS: u64 = 10_000;

// The longest sleep of the main thread, in milliseconds.
const LONGEST_SLEEP_MS: u64 = 60_000;

// The same if events are reported: once a second it looks at refusals.
const LONGEST_SLEEP_WITH_EVENTS_MS: u64 = 1_000;

/// Notes the rest of the steps that were left at the desk. Returns whether there were any.
pub(crate) fn settle<N: Names, R: Wait + Clock + Files + AllocGlobal + Copy + Drop>(
    work: &mut Working<'_, '_, N, R>,
) -> bool {
    work.station.settle_left(work.shared.desk, work.steps)
}

/// Goes on with files of the outbox, timers and PDUs of files, notes which files were stored, and lets events
/// leave. Returns whether there was any work.
pub(crate) fn turn<N: Names, R: Wait + Clock + Files + AllocGlobal + Copy + Drop>(
    work: &mut Working<'_, '_, N, R>,
    now: u64,
) -> bool {
    record_ended(work);
    settle_counts(work.rt, &mut work.audience.counts, work.station.entity());
    let most = work.station.entity().config().remotes();
    end_windows(
        work.rt,
        &mut work.station.timetable,
        work.windows,
        &mut work.audience.reports,
        now,
        most,
    );
    let has_started = work.start_queued(now);
    let has_noted = work.outbox.settle(now);
    let has_worked = work.station.turn(now);
    work.abandon_full();
    let has_stored = report_stored(work.station, &mut work.audience.reports);
    work.audience.reports.end_turn(now);
    has_started || has_noted || has_worked || has_stored
}

// Counts the transactions whose ends were received, if anything is counted.
fn settle_counts<N: Names, R: Wait + Copy>(
    rt: &R,
    counts: &mut Option<StationCounts>,
    entity: &Entity<N, R>,
) {
    if let Some(counts) = counts {
        counts.settle(rt, entity);
    }
}

/// Sleeps until something comes, or until there is work without that. If users' bundles wait for a client, sleeps
/// only for a short time.
pub(crate) fn rest<N: Names, R: Wait + Clock + Files + AllocGlobal + Copy + Drop>(
    work: &Working<'_, '_, N, R>,
    now: u64,
    waits: bool,
) {
    let longest = longest_sleep(waits, work.audience.reports.has_readers());
    let until = work.outbox.next_moment(work.station.next_moment(now));
    let until = work.windows.next_moment(until);
    work.shared
        .desk
        .wait(work.rt, now, until.min(now.saturating_add(longest)));
}

// How long the main thread sleeps at most, by whether users' bundles wait for a client, and whether events are
// reported.
fn longest_sleep(waits: bool, has_readers: bool) -> u64 {
    if waits {
        REST_MS
    } else if has_readers {
        LONGEST_SLEEP_WITH_EVENTS_MS
    } else {
        LONGEST_SLEEP_MS
    }
}

/// Notes which files of the outbox have ended, and reports the server's end.
pub(crate) fn end<N: Names, R: Wait + Clock + Files + AllocGlobal + Copy + Drop>(
    work: &mut Working<'_, '_, N, R>,
) {
    record_ended(work);
    let now = moment(work.rt);
    work.outbox.begun.look_again(true);
    work.note_ends(now);
    work.outbox.settle_last();
    work.audience.reports.end();
}

// Reports what became of files that were stored since; returns whether there were any.
fn report_stored<N: Names, R: Wait + Clock + Files + Copy>(
    station: &mut Station<'_, N, R>,
    reports: &mut Reports<'_, R>,
) -> bool {
    let mut has_stored = false;
    for _ in 0..STORED {
        let Some(
            StoredNote {
                key,
                is_kept,
                detail,
            },
        ) = station.take_stored()
        else {
            break;
        };
        has_stored = true;
        match detail {
            Some(detail) => reports.store(key, is_kept, Some(detail.as_str())),
            None => reports.store(key, is_kept, None),
        }
    }
    has_stored
}

/// Lets the file being stored come to its end, for some seconds at most, and notes what became of it.
pub(crate) fn end_storing<N: Names, R: Wait + Clock + Files + AllocGlobal + Copy + Drop>(
    work: &mut Working<'_, '_, N, R>,
) {
    let (rt, depot) = (work.rt, work.shared.depot);
    depot.close(rt);
    let _has_ended = depot.wait_end(rt, LAST_STORE_MS);
    for _ in rt.forever() {
        if !report_stored(work.station, &mut work.audience.reports) {
            break;
        }
    }
}
