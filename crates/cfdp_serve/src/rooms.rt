//! Where the threads of a server leave things for each other.
use entity_config::Config;
use event_log::LogQueue;
use program_arrivals::Turns;
use program_desk::Desk;
use program_lot::Lot;
use program_seats::PLACES;
use program_storing::Depot;
use program_tallies::Tallies;
use server_recording::Book;
use station_config::Settings;
use std::alloc::{AllocError, Global};

// How many steps may wait for the main thread, and how many lines.
const STEPS: usize = 1_024;

const LINES: usize = PLACES;

/// Where the threads of a server leave things for each other.
#[derive(Drop)]
pub(crate) struct Rooms {
    /// Steps, lines and files for the main thread.
    pub(crate) desk: Desk,
    pub(crate) tallies: Tallies,
    /// The order of the datagrams of each lane.
    pub(crate) turns: Turns,
    /// Parked datagrams.
    pub(crate) lot: Lot,
    /// Received files for the store.
    pub(crate) depot: Depot,
    /// Transactions to be recorded.
    pub(crate) book: Book,
    /// Lines for the log.
    pub(crate) log: LogQueue,
}

impl Rooms {
    /// Empty rooms of a server, which clients command or lines of a reader.
    pub(crate) fn new(
        alloc: Global,
        settings: &Settings,
        config: &Config,
        has_clients: bool,
    ) -> Result<Rooms, AllocError> {
        Ok(Rooms {
            log: LogQueue::new(alloc),
            desk: Desk::new(alloc, STEPS, LINES)?,
            tallies: Tallies::new(alloc, settings.station.workers as usize, config.remotes())?,
            turns: Turns::new(alloc, config, settings.station.workers as usize)?,
            lot: Lot::new(alloc, config, settings.station.park, has_clients)?,
            depot: Depot::new(alloc, config)?,
            book: Book::new(alloc, &settings.record)?,
        })
    }
}
