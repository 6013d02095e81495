//! What the main thread of a server has, as its settings say.
use crate::setting::{log_lines, set_links};
use crate::threads::Opened;
use program_common::{Common, Shared};
use program_desk::wall_moment;
use program_outbox::Windows;
use program_seats::PLACES;
use program_start::ProgramFault;
use program_station::Station;
use program_status::Events;
use program_udp::PduSender;
use server_commands::Server;
use server_lanes::Readiness;
use server_recording::Watched;
use server_reports::{Audience, Reports};
use server_requests::Settings;
use server_status::counts_of;
use shared_lanes::Names;
use station_lines::Moment;
use std::alloc::AllocError;
use std::rt::Files;
use std::sync::Wait;
use std::time::Clock;
use user_queues::UserPort;

/// What the main thread of a server has, but for what is kept over restarts.
pub(crate) fn server_over<'x, N: Names, R: Wait + Clock + Files + AllocGlobal + Copy + Drop, F>(
    opened: &Opened<'x, N, R, F>,
    common: &Common<'x, N, R>,
    ports: Vec<UserPort>,
) -> Result<Server<'x, N, R>, ProgramFault> {
    let (rt, alloc) = (opened.rt, opened.alloc);
    let steps = Vec::with_capacity(alloc, opened.rooms.desk.step_room())?;
    let spells = Vec::from_elem(alloc, None, PLACES)?;
    let readiness = readiness_of(opened)?;
    let audience = audience_over(opened, ports)?;
    match station_over(opened, common) {
        Ok(station) => Ok(Server {
            rt,
            alloc,
            shared: shared_of(opened),
            settings: settings_of(opened),
            steps,
            station,
            audience,
            windows: Windows::new(alloc),
            readiness,
            opened: None,
            spells,
        }),
        Err(fault) => Err(fault),
    }
}

// How the main thread of a server works.
fn settings_of<N: Names, R: Clock + Copy, F>(opened: &Opened<'_, N, R, F>) -> Settings {
    Settings {
        abandons_full: opened.settings.station.abandon_full,
        logs_commands: opened.settings.log.commands,
        explains: opened.control.is_some(),
        started: Moment(wall_moment(opened.rt)),
    }
}

// Which files may go to which lanes.
fn readiness_of<N: Names, R: Copy, F>(
    opened: &Opened<'_, N, R, F>,
) -> Result<Readiness, AllocError> {
    let (alloc, config) = (opened.alloc, opened.entity.config());
    let peers = opened.settings.peer_lanes(alloc, config)?;
    Readiness::new(alloc, config, peers.as_slice())
}

// Where the threads of a server leave things for each other.
fn shared_of<'x, N: Names, R: Copy, F>(opened: &Opened<'x, N, R, F>) -> Shared<'x> {
    let rooms = opened.rooms;
    Shared {
        desk: &rooms.desk,
        seats: opened.control.map(|control| control.seats),
        depot: &rooms.depot,
        lot: &rooms.lot,
        tallies: &rooms.tallies,
    }
}

// The users of a server by their ports, and who reads what they receive. Events are reported if clients or a log may read
// them.
fn audience_over<'x, N: Names, R: Wait + Clock + Copy, F>(
    opened: &Opened<'x, N, R, F>,
    ports: Vec<UserPort>,
) -> Result<Audience<'x, R>, AllocError> {
    let (rt, alloc, config) = (opened.rt, opened.alloc, opened.entity.config());
    let (rooms, seats) = (opened.rooms, opened.control.map(|control| control.seats));
    let counts = counts_of(alloc, seats.is_some(), config, &rooms.tallies)?;
    let watched = Watched::new(alloc, config, &rooms.book)?;
    let log = log_lines(alloc, &opened.settings.log, &rooms.log);
    let events = if seats.is_some() || log.is_some() {
        Some(Events::new(alloc, seats, log)?)
    } else {
        None
    };
    let reports = Reports::new(rt, alloc, config, &rooms.tallies, events, &rooms.lot)?;
    let mut audience = Audience::new(rt, alloc, ports, false, reports, watched);
    audience.counts = counts;
    Ok(audience)
}

// The station of a server, with its store, and its links as the settings say.
fn station_over<'x, N: Names, R: Wait + Clock + Copy, F>(
    opened: &Opened<'x, N, R, F>,
    common: &Common<'x, N, R>,
) -> Result<Station<'x, N, R>, ProgramFault> {
    let (tallies, settings) = (&opened.rooms.tallies, opened.settings);
    let config = opened.entity.config();
    let sender = PduSender::new(
        opened.alloc,
        opened.socket,
        config,
        &tallies.own,
        &tallies.links,
    )?;
    let rest = match settings.sending.rate {
        0 => None,
        rate => Some(rate),
    };
    let mut station = Station::new(common, sender, &opened.rooms.depot, tallies, rest)?;
    set_links(opened.rt, &mut station, settings);
    if let Some(lot) = opened.parking() {
        station.use_lot(lot);
    }
    Ok(station)
}
