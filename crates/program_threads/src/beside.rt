//! The main thread of a program beside its other threads.
use crate::way_in::WayIn;
use entity_config::Config;
use entity_workers::WorkersFault;
use program_arrivals::run_forwarders;
use program_common::Common;
use program_control::{Attending, ControlSocket};
use program_desk::{Desk, read_files, read_lines};
use program_seats::Seats;
use program_start::{FileReader, ProgramFault};
use program_udp::wake_reader;
use shared_lanes::Names;
use std::alloc::Global;
use std::io::BufRead;
use std::rt::Files;
use std::sync::Wait;
use std::thread;
use std::thread::Threads;
use std::time::Clock;

/// A control socket, its path, and the seats of its clients; and a socket for clients that only watch, with its path,
/// if there is one.
#[derive(Clone, Copy)]
pub struct Control<'x> {
    pub socket: &'x ControlSocket,
    pub path: &'x str,
    pub seats: &'x Seats,
    pub watched: &'x Option<ControlSocket>,
    pub watched_path: &'x str,
}

/// The work of a program's main thread.
pub trait MainThread {
    /// Works at the desk where the other threads leave work, until all is done; returns the exit status.
    fn work(self) -> Result<u8, ProgramFault>;
}

// How a program ends if not all workers could be started, by how its main thread ended.
fn fault_beside(ended: Result<u8, ProgramFault>, fault: WorkersFault) -> Result<u8, ProgramFault> {
    match (ended, fault) {
        (Ok(_) | Err(ProgramFault::Start), WorkersFault::NoMemory) => Err(ProgramFault::NoMemory),
        (Ok(_), WorkersFault::Start) => Err(ProgramFault::Start),
        (Err(told), _) => Err(told),
    }
}

/// Runs the main thread's work beside the workers, which end with it. If not all workers could be started, that is
/// reported at the end, unless the work ended for another reason.
pub fn run_beside<
    'x,
    N: Names + Send + Sync,
    R: Threads + Wait + Clock + Copy + Send + Sync,
    M: MainThread + Drop,
>(common: &Common<'x, N, R>, way_in: WayIn<'x, R>, main_thread: M) -> Result<u8, ProgramFault> {
    let Common {
        rt,
        alloc,
        entity,
        socket,
        desk,
    } = *common;
    let WayIn {
        arrivals,
        forwarders,
    } = way_in;
    thread::scope(
        thread::scope_env(),
        rt,
        move |scope| -> Result<u8, ProgramFault> {
            let Ok(workers) = scope.spawn(move || run_forwarders(
                rt, alloc, entity, arrivals, forwarders, desk,
            )) else {
                return Err(ProgramFault::Start);
            };
            let ended = main_thread.work();
            desk.close(rt);
            wake_reader(socket);
            match workers.join(rt) {
                Ok(()) => ended,
                Err(fault) => fault_beside(ended, fault),
            }
        },
    )
}

/// `run_beside` with two more threads: one reads files wanted at the desk, the other reads lines of commands.
/// That one is started last: if the others can't be started, nobody waits for a line.
pub fn run_commanded<
    'x,
    N: Names + Send + Sync,
    R: Threads + Wait + Clock + Copy + Send + Sync,
    F: FileReader + Sync,
    B: BufRead + Send + Drop,
    M: MainThread + Drop,
>(
    common: &Common<'x, N, R>,
    way_in: WayIn<'x, R>,
    files: &'x F,
    reader: B,
    main_thread: M,
) -> Result<u8, ProgramFault> {
    let Common {
        rt,
        alloc,
        entity,
        socket,
        desk,
    } = *common;
    let WayIn {
        arrivals,
        forwarders,
    } = way_in;
    thread::scope(
        thread::scope_env(),
        rt,
        move |scope| -> Result<u8, ProgramFault> {
            let Ok(workers) = scope.spawn(move || run_forwarders(
                rt, alloc, entity, arrivals, forwarders, desk,
            )) else {
                return Err(ProgramFault::Start);
            };
            let config = entity.config();
            let ended = work_commanded(rt, alloc, files, (config, desk), reader, main_thread);
            desk.close(rt);
            wake_reader(socket);
            match workers.join(rt) {
                Ok(()) => ended,
                Err(fault) => fault_beside(ended, fault),
            }
        },
    )
}

/// `run_beside` with the threads of a control socket, and one that reads files wanted at the desk. The sockets
/// are removed once the work has ended.
pub fn run_controlled<
    'x,
    N: Names + Send + Sync,
    R: Threads + Wait + Clock + Files + Copy + Send + Sync,
    F: FileReader + Sync,
    M: MainThread + Drop,
>(
    common: &Common<'x, N, R>,
    way_in: WayIn<'x, R>,
    files: &'x F,
    control: Control<'x>,
    main_thread: M,
) -> Result<u8, ProgramFault> {
    let Common {
        rt,
        alloc,
        entity,
        socket,
        desk,
    } = *common;
    let WayIn {
        arrivals,
        forwarders,
    } = way_in;
    thread::scope(
        thread::scope_env(),
        rt,
        move |scope| -> Result<u8, ProgramFault> {
            let Ok(workers) = scope.spawn(move || run_forwarders(
                rt, alloc, entity, arrivals, forwarders, desk,
            )) else {
                return Err(ProgramFault::Start);
            };
            let attending = Attending {
                rt,
                alloc,
                files,
                config: entity.config(),
                desk,
                seats: control.seats,
            };
            let ended = work_controlled(&attending, control, main_thread);
            desk.close(rt);
            wake_reader(socket);
            match workers.join(rt) {
                Ok(()) => ended,
                Err(fault) => fault_beside(ended, fault),
            }
        },
    )
}

// The main thread's work beside a thread that reads files, and one that reads lines of commands.
fn work_commanded<
    'x,
    R: Threads + Wait + Clock + Sync,
    F: FileReader + Sync,
    B: BufRead + Send + Drop,
    M: MainThread + Drop,
>(
    rt: &'x R,
    alloc: Global,
    files: &'x F,
    (config, desk): (&'x Config, &'x Desk),
    reader: B,
    main_thread: M,
) -> Result<u8, ProgramFault> {
    let mut reader = reader;
    thread::scope(
        thread::scope_env(),
        rt,
        move |scope| -> Result<u8, ProgramFault> {
            let Ok(_files) = scope.spawn(move || read_files(rt, alloc, files, desk)) else {
                return Err(ProgramFault::Start);
            };
            let ended = match scope.spawn(move || read_lines(
                rt,
                alloc,
                files,
                config,
                &mut reader,
                desk,
            )) {
                Ok(_lines) => main_thread.work(),
                Err(_) => Err(ProgramFault::Start),
            };
            desk.close(rt);
            ended
        },
    )
}

// The main thread's work beside a thread that reads files, and the threads of a control socket.
fn work_controlled<
    R: Threads + Wait + Clock + Files + Sync,
    F: FileReader + Sync,
    M: MainThread + Drop,
>(
    attending: &Attending<'_, R, F>,
    control: Control<'_>,
    main_thread: M,
) -> Result<u8, ProgramFault> {
    let Attending {
        rt,
        alloc,
        files,
        desk,
        ..
    } = *attending;
    let (socket, watched) = (control.socket, control.watched);
    thread::scope(
        thread::scope_env(),
        rt,
        move |scope| -> Result<u8, ProgramFault> {
            let Ok(_files) = scope.spawn(move || read_files(rt, alloc, files, desk)) else {
                close(rt, control);
                return Err(ProgramFault::Start);
            };
            let lets_watchers_in = match watched {
                Some(watched) => scope.spawn(move || watched.run(attending)).is_ok(),
                None => true,
            };
            let ended = match scope.spawn(move || socket.run(attending)) {
                Ok(_clients) if lets_watchers_in => main_thread.work(),
                _ => Err(ProgramFault::Start),
            };
            desk.close(rt);
            close(rt, control);
            ended
        },
    )
}

// Lets nobody in any more by either socket, and makes all clients leave.
fn close<R: Wait + Clock + Files>(rt: &R, control: Control<'_>) {
    let Control {
        socket,
        path,
        seats,
        watched,
        watched_path,
    } = control;
    if let Some(watched) = watched {
        seats.close(rt);
        watched.shut(rt, watched_path);
    }
    socket.close(rt, path, seats);
}
