//! What a server opens before its threads start: its socket, what it keeps over restarts, and where clients command it.
use crate::named::serve_named;
use entity_config::Config;
use event_log::LogFiles;
use program_control::ControlSocket;
use program_seats::Seats;
use program_start::{FileReader, ProgramFault};
use program_threads::Control;
use program_udp::open_socket;
use server_opening::{Kept, OutboxHold, Start, control_sockets};
use server_recording::ServerFiles;
use station_config::{ControlSettings, Settings};
use std::alloc::Global;
use std::io::{BufRead, Write};
use std::net::{Net, UdpSocket};
use std::rt::Files;
use std::sync::Wait;
use std::thread::Threads;
use std::time::Clock;

/// Where a server's commands come from and its replies go without a control socket.
#[derive(Drop)]
pub struct Streams<I: Drop, W: Drop> {
    pub reader: I,
    pub writer: W,
}

/// What a server starts from: its runtime, what reads files to be sent, what it was told, and the text of the file with
/// its configuration.
#[derive(Clone, Copy)]
pub(crate) struct Starting<'x, R, F> {
    pub(crate) rt: &'x R,
    pub(crate) alloc: Global,
    pub(crate) files: &'x F,
    pub(crate) settings: &'x Settings,
    pub(crate) text: &'x str,
}

/// The sockets of a server: for datagrams, and for clients if those command it.
#[derive(Clone, Copy)]
pub(crate) struct Sockets<'x> {
    pub(crate) datagrams: &'x UdpSocket,
    pub(crate) control: Option<Control<'x>>,
}

/// Opens all that the settings name, and serves. Meanwhile other servers are kept from the file of the outbox.
pub(crate) fn open<
    R: Threads + Wait + Net + Clock + Files + AllocGlobal + Copy + Drop + Send + Sync,
    F: FileReader + ServerFiles + LogFiles + Sync,
    B: BufRead + Send + Drop,
    W: Write + Drop,
>(
    rt: &R,
    alloc: Global,
    files: &F,
    started: &Start<'_>,
    config: Config,
    streams: Streams<B, W>,
) -> Result<u8, ProgramFault> {
    let settings = &started.settings;
    let datagrams = open_socket(rt, settings.station.bind.as_str())?;
    let starting = Starting {
        rt,
        alloc,
        files,
        settings,
        text: started.text.as_str(),
    };
    let Some(path) = &settings.sending.outbox else {
        return serve_kept(&starting, config, &datagrams, streams);
    };
    let hold = OutboxHold::open(rt, alloc, path.as_str())?;
    let ended = serve_kept(&starting, config, &datagrams, streams);
    hold.leave(rt);
    ended
}

// Serves with what the server keeps over restarts.
fn serve_kept<
    'x,
    R: Threads + Wait + Net + Clock + Files + AllocGlobal + Copy + Drop + Send + Sync,
    F: FileReader + ServerFiles + LogFiles + Sync,
    B: BufRead + Send + Drop,
    W: Write + Drop,
>(
    starting: &Starting<'x, R, F>,
    config: Config,
    datagrams: &'x UdpSocket,
    streams: Streams<B, W>,
) -> Result<u8, ProgramFault> {
    let (rt, settings) = (starting.rt, starting.settings);
    let mut config = config;
    let kept = Kept::open(rt, starting.alloc, &settings.sending, &mut config)?;
    match &settings.control {
        Some(told) => serve_controlled(starting, config, datagrams, (kept, told), streams),
        None => {
            let sockets = Sockets {
                datagrams,
                control: None,
            };
            serve_named(starting, config, sockets, kept, streams)
        }
    }
}

// Serves by the lines of clients.
fn serve_controlled<
    'x,
    R: Threads + Wait + Net + Clock + Files + AllocGlobal + Copy + Drop + Send + Sync,
    F: FileReader + ServerFiles + LogFiles + Sync,
    B: BufRead + Send + Drop,
    W: Write + Drop,
>(
    starting: &Starting<'x, R, F>,
    config: Config,
    datagrams: &'x UdpSocket,
    (kept, told): (Kept<R>, &'x ControlSettings),
    streams: Streams<B, W>,
) -> Result<u8, ProgramFault> {
    let seats = Seats::new(starting.alloc)?;
    let (socket, watched) = control_sockets(starting.rt, starting.alloc, told)?;
    let control = control_of((&socket, &watched), &seats, told);
    let sockets = Sockets {
        datagrams,
        control: Some(control),
    };
    serve_named(starting, config, sockets, kept, streams)
}

// The sockets of clients, with their paths and seats.
fn control_of<'x>(
    (socket, watched): (&'x ControlSocket, &'x Option<ControlSocket>),
    seats: &'x Seats,
    told: &'x ControlSettings,
) -> Control<'x> {
    Control {
        socket,
        path: told.socket.as_str(),
        seats,
        watched,
        watched_path: match &told.status_socket {
            Some(path) => path.as_str(),
            None => "",
        },
    }
}
