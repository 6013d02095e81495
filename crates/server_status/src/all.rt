//! All links at once.
use crate::links::{close_link, open_link};
use entity_config::Config;
use program_outbox::{Outgoing, Windows};
use program_timetable::Timetable;
use server_reports::Reports;
use std::sync::Wait;
use std::time::Clock;

/// Holds the links to all remote entities: nothing leaves for any of them from now on.
pub fn hold_all<R: Wait + Clock>(
    rt: &R,
    config: &Config,
    timetable: &mut Timetable<'_>,
    windows: &mut Windows,
    reports: &mut Reports<'_, R>,
) {
    for place in 0..config.remotes() {
        if let Some(remote) = config.remote_at(place) {
            let _is_there = close_link(rt, timetable, windows, reports, remote.id);
        }
    }
}

/// Opens the links to all remote entities again.
pub fn release_all<R: Wait + Clock>(
    rt: &R,
    config: &Config,
    timetable: &mut Timetable<'_>,
    windows: &mut Windows,
    outgoing: &mut Outgoing,
    reports: &mut Reports<'_, R>,
) {
    for place in 0..config.remotes() {
        if let Some(remote) = config.remote_at(place) {
            let _is_there = open_link(rt, timetable, outgoing, reports, remote.id);
            windows.forget(remote.id);
        }
    }
}
