//! What a server shows of itself.
use crate::counting::last_store;
use program_common::Shared;
use program_desk::{moment, wall_moment};
use program_outbox::{Outgoing, Windows};
use program_seats::Seats;
use program_status::{Shown, push_status};
use program_storing::{DepotReport, Storing};
use release::VERSION;
use server_answers::push_no_memory;
use server_lanes::hints_of;
use server_reports::Audience;
use shared_entity::Entity;
use shared_lanes::Names;
use station_config::PeerLanes;
use station_lines::{Moment, StoringStatus};
use std::alloc::{AllocError, Global};
use std::sync::Wait;
use std::time::Clock;
use user_queues::UserPort;

/// What a status shows, beside the entity and its users: what waits, whose lanes were looked at, and since when the
/// server runs. `explains` says whether its events say why a file couldn't be read.
#[derive(Clone, Copy)]
pub struct Shows<'s> {
    pub shared: Shared<'s>,
    pub outgoing: &'s Outgoing,
    pub windows: &'s Windows,
    /// The limit in octets a second that all links without a limit of their own share, if there is one.
    pub rate_of_rest: Option<u64>,
    pub peers: &'s [PeerLanes],
    pub started: Moment,
    pub explains: bool,
}

/// Replies with the lines of a status, or that memory ran out.
pub fn answer_status<N: Names, R: Wait + Clock + Copy>(
    rt: &R,
    alloc: Global,
    entity: &Entity<N, R>,
    audience: &mut Audience<'_, R>,
    shows: Shows<'_>,
    text: &mut String,
) -> Result<(), AllocError> {
    let mut ports = audience.lend_ports();
    let pushed = push_shown(
        rt,
        alloc,
        entity,
        audience,
        ports.as_mut_slice(),
        shows,
        text,
    );
    audience.take_back(ports);
    if pushed.is_err() || audience.watched.book.push_status(text).is_err() {
        text.clear();
        return push_no_memory(text);
    }
    Ok(())
}

// Adds the lines of a status, with the ports of the users.
fn push_shown<N: Names, R: Wait + Clock + Copy>(
    rt: &R,
    alloc: Global,
    entity: &Entity<N, R>,
    audience: &Audience<'_, R>,
    ports: &mut [UserPort],
    shows: Shows<'_>,
    text: &mut String,
) -> Result<(), AllocError> {
    let Shared {
        desk,
        seats,
        depot,
        lot,
        tallies,
    } = shows.shared;
    let (clients, dropped_clients) = clients_at(rt, seats);
    let readings = desk.readings(rt, alloc)?;
    let waiting = depot.report(rt, alloc)?;
    let storing = storing_of(alloc, &waiting)?;
    let parked = lot.report(rt, alloc)?;
    let hints = hints_of(alloc, entity.config(), shows.peers)?;
    let reports = &audience.reports;
    let shown = Shown {
        version: VERSION,
        started: shows.started,
        now: Moment(wall_moment(rt)),
        clock: moment(rt),
        tallies,
        notes: &reports.notes,
        outgoing: shows.outgoing,
        windows: shows.windows,
        rate_of_rest: shows.rate_of_rest,
        readings: readings.as_slice(),
        storing: storing.as_slice(),
        parked: parked.as_slice(),
        hints: hints.as_slice(),
        events: reports.number(),
        log: reports.log_status(),
        clients,
        dropped_clients,
        stores: depot.stores(rt),
        counts: audience.counts.as_ref(),
        last_store: last_store(rt, depot),
        explains: shows.explains,
    };
    push_status(rt, alloc, text, entity, ports, &shown)
}

// How many clients there are, and how many were cut off.
fn clients_at<R: Wait>(rt: &R, seats: Option<&Seats>) -> (usize, u64) {
    match seats {
        Some(seats) => (seats.taken(rt), seats.dropped()),
        None => (0, 0),
    }
}

// What a status shows of the files that are to be stored: the one that the store is at, and those that couldn't be
// stored so far.
fn storing_of(
    alloc: Global,
    depot: &DepotReport,
) -> Result<Vec<StoringStatus<'static>>, AllocError> {
    let mut all = Vec::new(alloc);
    if let Some(storing) = depot.under_way {
        all.push(status_of(storing))?;
    }
    for storing in &depot.waiting {
        all.push(status_of(*storing))?;
    }
    Ok(all)
}

fn status_of(storing: Storing) -> StoringStatus<'static> {
    StoringStatus {
        source: storing.key.source,
        seq: storing.key.seq,
        since: Moment(storing.since),
        why: match storing.why {
            Some(why) => Some(why.words()),
            None => None,
        },
    }
}
