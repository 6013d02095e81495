//! What a station was told of its links and its log, carried out at the start.
use event_log::{LogLines, LogQueue};
use program_desk::{moment, wall_moment};
use program_station::Station;
use shared_lanes::Names;
use station_config::{LogSettings, Settings};
use std::alloc::Global;
use std::sync::Wait;
use std::time::Clock;

/// Sets the rates of single remote entities, and holds those that are to be held: nothing leaves for them until they
/// are released.
pub(crate) fn set_links<N: Names, R: Wait + Clock + Copy>(
    rt: &R,
    station: &mut Station<'_, N, R>,
    settings: &Settings,
) {
    let config = station.entity().config();
    for place in 0..config.remotes() {
        let Some(remote) = config.remote_at(place) else {
            return;
        };
        let told = settings.remotes.get(place);
        if let Some(told) = told
            && told.rate > 0
        {
            let _is_there = station.limit(remote.id, Some(told.rate), moment(rt));
        }
        if settings.station.hold || told.is_some_and(|told| told.held) {
            let _is_held = station.hold(remote.id, wall_moment(rt));
        }
    }
}

/// The lines for a server's log, if it has one.
pub(crate) fn log_lines<'x>(
    alloc: Global,
    settings: &LogSettings,
    queue: &'x LogQueue,
) -> Option<LogLines<'x>> {
    if settings.file.is_none() {
        return None;
    }
    Some(LogLines::new(alloc, queue, settings.level))
}
