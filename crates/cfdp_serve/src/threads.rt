//! The threads of the server: one reads commands, beside those of each program.
use crate::opening::{Sockets, Starting, Streams};
use crate::parts::server_over;
use crate::rooms::Rooms;
use event_log::LogFiles;
use program_arrivals::Sources;
use program_common::Common;
use program_desk::Urgency;
use program_lot::Lot;
use program_seats::Seats;
use program_start::{FileReader, ProgramFault};
use program_threads::{Control, MainThread, WayIn, run_commanded, run_controlled};
use server_commands::{Console, Server, work_in_turns};
use server_opening::Kept;
use server_recording::{FolderStoring, Recorder, ServerFiles, Ties};
use server_requests::Working;
use shared_entity::Entity;
use shared_lanes::Names;
use station_config::{Settings, SourceRule};
use std::alloc::{AllocError, Global};
use std::io::{BufRead, Write};
use std::net::UdpSocket;
use std::rt::Files;
use std::sync::Wait;
use std::thread;
use std::thread::Threads;
use std::time::Clock;
use user_queues::UserPort;

/// What the threads of a server share.
#[derive(Clone, Copy)]
pub(crate) struct Opened<'x, N: Names, R: Copy, F> {
    pub(crate) rt: &'x R,
    pub(crate) alloc: Global,
    pub(crate) files: &'x F,
    pub(crate) entity: &'x Entity<N, R>,
    pub(crate) socket: &'x UdpSocket,
    pub(crate) control: Option<Control<'x>>,
    pub(crate) rooms: &'x Rooms,
    pub(crate) settings: &'x Settings,
    /// The text of the file with the configuration.
    pub(crate) text: &'x str,
}

impl<'x, N: Names, R: Copy, F> Opened<'x, N, R, F> {
    /// Where datagrams are parked, if they have any room.
    pub(crate) fn parking(&self) -> Option<&'x Lot> {
        if self.settings.station.park == 0 {
            None
        } else {
            Some(&self.rooms.lot)
        }
    }
}

// The main thread: what it has, what is kept over restarts, and where its replies go.
#[derive(Drop)]
struct Serving<'a, N: Names, R: Files + AllocGlobal + Copy + Drop, W: Drop> {
    server: Server<'a, N, R>,
    kept: Kept<R>,
    writer: W,
}

impl<'a, N: Names, R: Wait + Clock + Files + AllocGlobal + Copy + Drop, W: Write + Drop> MainThread
    for Serving<'a, N, R, W> {
    fn work(self) -> Result<u8, ProgramFault> {
        let Serving {
            mut server,
            mut kept,
            mut writer,
        } = self;
        let seats = server.shared.seats;
        let mut work = server.working(&mut kept.numbers, &mut kept.outbox);
        let ended = match seats {
            Some(seats) => work_seated::<N, R, W>(&mut work, seats),
            None => work_in_turns(&mut work, &mut Console::Printed(&mut writer)),
        };
        kept.numbers.leave(server.rt);
        status_of(ended)
    }
}

// Works by the lines of clients.
fn work_seated<N: Names, R: Wait + Clock + Files + AllocGlobal + Copy + Drop, W: Write>(
    work: &mut Working<'_, '_, N, R>,
    seats: &Seats,
) -> Result<(), ProgramFault> {
    let mut console = Console::<W>::Seated(seats);
    work_in_turns(work, &mut console)
}

// The exit status of a server that has ended.
fn status_of(ended: Result<(), ProgramFault>) -> Result<u8, ProgramFault> {
    match ended {
        Ok(()) => Ok(0),
        Err(fault) => Err(fault),
    }
}

/// Serves over an opened entity and its sockets until the commands end. Returns the exit status.
pub(crate) fn serve_over<
    N: Names + Send + Sync,
    R: Threads + Wait + Clock + Files + AllocGlobal + Copy + Drop + Send + Sync,
    F: FileReader + ServerFiles + LogFiles + Sync,
    B: BufRead + Send + Drop,
    W: Write + Drop,
>(
    starting: &Starting<'_, R, F>,
    entity: &Entity<N, R>,
    ports: Vec<UserPort>,
    sockets: Sockets<'_>,
    kept: Kept<R>,
    streams: Streams<B, W>,
) -> Result<u8, ProgramFault> {
    let (alloc, settings) = (starting.alloc, starting.settings);
    let rooms = Rooms::new(alloc, settings, entity.config(), sockets.control.is_some())?;
    let opened = Opened {
        rt: starting.rt,
        alloc,
        files: starting.files,
        entity,
        socket: sockets.datagrams,
        control: sockets.control,
        rooms: &rooms,
        settings,
        text: starting.text,
    };
    let recorder = recorder_of(&opened)?;
    serve_beside(opened, ports, kept, streams, recorder)
}

// Serves beside three threads: one records transactions, one stores received files, one writes the log.
fn serve_beside<
    'x,
    N: Names + Send + Sync,
    R: Threads + Wait + Clock + Files + AllocGlobal + Copy + Drop + Send + Sync,
    F: FileReader + ServerFiles + LogFiles + Sync,
    B: BufRead + Send + Drop,
    W: Write + Drop,
>(
    opened: Opened<'x, N, R, F>,
    ports: Vec<UserPort>,
    kept: Kept<R>,
    streams: Streams<B, W>,
    recorder: Recorder<'x, R, F>,
) -> Result<u8, ProgramFault> {
    let (rt, alloc, files, rooms) = (opened.rt, opened.alloc, opened.files, opened.rooms);
    let log = log_path(&opened)?;
    let storing = FolderStoring {
        rt,
        alloc,
        entity: opened.entity,
        desk: &rooms.desk,
        depot: &rooms.depot,
        folder: String::from_str(alloc, opened.settings.store.folder.as_str())?,
        settings: &opened.settings.store,
    };
    thread::scope(
        thread::scope_env(),
        rt,
        move |scope| -> Result<u8, ProgramFault> {
            let records = scope.spawn(move || recorder.run()).is_ok();
            let stores = scope.spawn(move || files.store(storing)).is_ok();
            let logs = match log {
                Some(path) => scope
                    .spawn(move || files.write_log(rt, alloc, &rooms.log, path))
                    .is_ok(),
                None => true,
            };
            let ended = if records && stores && logs {
                serve_lines(&opened, ports, kept, streams)
            } else {
                Err(ProgramFault::Start)
            };
            rooms.depot.close(rt);
            rooms.book.close(rt);
            rooms.log.close(rt);
            ended
        },
    )
}

// The path of the log, if there is one.
fn log_path<N: Names, R: Copy, F>(
    opened: &Opened<'_, N, R, F>,
) -> Result<Option<String>, AllocError> {
    match &opened.settings.log.file {
        Some(path) => Ok(Some(String::from_str(opened.alloc, path.as_str())?)),
        None => Ok(None),
    }
}

// What records transactions.
fn recorder_of<'x, N: Names, R: Copy, F>(
    opened: &Opened<'x, N, R, F>,
) -> Result<Recorder<'x, R, F>, AllocError> {
    let ties = Ties {
        config: opened.entity.config(),
        text: opened.text,
        book: &opened.rooms.book,
        desk: &opened.rooms.desk,
        seats: opened.control.map(|control| control.seats),
    };
    let settings = &opened.settings.record;
    Recorder::new(opened.rt, opened.alloc, opened.files, settings, ties)
}

// Serves by the lines of clients, or by those of a reader.
fn serve_lines<
    'x,
    N: Names + Send + Sync,
    R: Threads + Wait + Clock + Files + AllocGlobal + Copy + Drop + Send + Sync,
    F: FileReader + ServerFiles + LogFiles + Sync,
    B: BufRead + Send + Drop,
    W: Write + Drop,
>(
    opened: &Opened<'x, N, R, F>,
    ports: Vec<UserPort>,
    kept: Kept<R>,
    streams: Streams<B, W>,
) -> Result<u8, ProgramFault> {
    let common = Common {
        rt: opened.rt,
        alloc: opened.alloc,
        entity: opened.entity,
        socket: opened.socket,
        desk: &opened.rooms.desk,
    };
    let way_in = way_in_of(opened, &common)?;
    match server_over(opened, &common, ports) {
        Ok(server) => {
            let Streams { reader, writer } = streams;
            let main_thread = Serving {
                server,
                kept,
                writer,
            };
            match opened.control {
                Some(control) => {
                    run_controlled(&common, way_in, opened.files, control, main_thread)
                }
                None => run_commanded(&common, way_in, opened.files, reader, main_thread),
            }
        }
        Err(fault) => Err(fault),
    }
}

// The way in of a server's datagrams. What users receive is looked at within a millisecond, if it is taken as it comes.
fn way_in_of<'x, N: Names, R: Wait + Clock + Copy, F>(
    opened: &Opened<'x, N, R, F>,
    common: &Common<'x, N, R>,
) -> Result<WayIn<'x, R>, AllocError> {
    let others = match opened.control {
        Some(_) => Urgency::Soon,
        None => Urgency::WithItsTimers,
    };
    let sources = match opened.settings.station.sources {
        SourceRule::Any => Sources::Any,
        SourceRule::Hosts => Sources::HostsAlone,
        SourceRule::Known => Sources::KnownAlone,
        SourceRule::Own => Sources::OwnAlone,
    };
    let rooms = opened.rooms;
    WayIn::new(
        common,
        (&rooms.tallies, &rooms.turns),
        others,
        sources,
        opened.parking(),
    )
}
