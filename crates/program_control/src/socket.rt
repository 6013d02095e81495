//! The socket: its file, the clients it lets in, and its end.
use crate::attending::Attending;
use crate::client::serve_client;
use crate::probing::{Probed, probe};
use crate::urgent::refuse;
use program_seats::{Asker, Seats};
use program_start::FileReader;
use std::alloc::Global;
use std::fs::Permissions;
use std::io::ErrorKind;
use std::net::{Net, Shutdown};
use std::os::fd::{AsFd, AsRawFd, OwnedFd};
use std::os::unix::fs::{FileTypeExt, MetadataExt, PermissionsExt};
use std::os::unix::net::{SocketAddr, UnixListener, UnixStream};
use std::rt::Files;
use std::sync::Wait;
use std::thread::Threads;
use std::time::{Clock, Duration};
use std::{fs, io, thread};

// The usual permissions of the file: only the owner may connect.
const OWNER_ALONE: u32 = 0o600;

// How many clients may wait to be let in.
const WAITING: i32 = 128;

// How many temporary paths next to the wanted one are tried.
const BESIDE: u64 = 100;

// How many milliseconds the thread that lets clients in waits after a failure.
const REST_MILLIS: u64 = 20;

/// Why there is no control socket.
#[derive(Clone, Copy, Debug, PartialEq, Eq)]
pub enum ControlFault {
    /// Another server answers there.
    Live,
    /// The path is taken by a file that isn't a socket.
    NotSocket,
    /// A call of the system failed.
    System,
}

/// A control socket that clients can connect to.
#[derive(Drop)]
pub struct ControlSocket {
    listener: UnixListener,
    // another handle of the same socket, for shutting it down
    shutter: UnixStream,
    // the file's identity: another server may have put its own file there
    device: u64,
    node: u64,
    // whether its clients only watch
    is_watched: bool,
}

impl ControlSocket {
    /// Makes the socket's file, to which only its owner may connect, as [`ControlSocket::open_for`] does.
    pub fn open<R: Files + Net>(
        rt: &R,
        alloc: Global,
        path: &str,
    ) -> Result<ControlSocket, ControlFault> {
        ControlSocket::open_for(rt, alloc, path, None)
    }

    /// Makes the socket's file, which gets its permissions before anyone can connect: its owner's alone, unless others
    /// are given. The file of a server that is gone is replaced. Of several servers that start at the same time, one
    /// gets the path.
    pub fn open_for<R: Files + Net>(
        rt: &R,
        alloc: Global,
        path: &str,
        mode: Option<u32>,
    ) -> Result<ControlSocket, ControlFault> {
        let (socket, own) = open_beside(rt, alloc, path, mode.unwrap_or(OWNER_ALONE)).map_err(
            |_| ControlFault::System,
        )?;
        let placed = place(rt, alloc, own.as_str(), path);
        let _gone = fs::remove_file(rt, own.as_str());
        placed?;
        Ok(socket)
    }

    /// The same socket, for clients that only watch: they get the seats for such clients, and their lines that do more
    /// than look are refused.
    pub fn for_watchers(self) -> ControlSocket {
        let mut socket = self;
        socket.is_watched = true;
        socket
    }

    /// Lets clients in, each at a free seat, until the seats are closed, and returns once all have left.
    pub fn run<R: Threads + Wait + Clock + Sync, F: FileReader + Sync>(
        &self,
        attending: &Attending<'_, R, F>,
    ) {
        let listener = &self.listener;
        let (rt, seats) = (attending.rt, attending.seats);
        thread::scope(thread::scope_env(), rt, move |scope| {
            for _ in rt.forever() {
                match listener.accept() {
                    Ok((stream, _)) => match self.sit(rt, &stream, seats) {
                        Some(asker) => {
                            let started = scope.spawn(move || serve_client(
                                attending, stream, asker,
                            ));
                            if started.is_err() {
                                seats.cut(rt, asker);
                                seats.leave(rt, asker);
                            }
                        }
                        None => refuse(&stream),
                    },
                    Err(_) => {
                        if seats.is_closed(rt) {
                            return;
                        }
                        let _rested = thread::sleep(rt, Duration::from_millis(REST_MILLIS));
                    }
                }
            }
        });
    }

    /// Lets nobody in any more, and makes all clients leave: replies that wait are still sent, as far as the clients
    /// take them within `program_seats::LAST_MS`.
    pub fn close<R: Files + Wait + Clock>(&self, rt: &R, path: &str, seats: &Seats) {
        seats.close(rt);
        self.shut(rt, path);
        seats.finish(rt);
    }

    /// Lets nobody in any more by this socket, and removes its file. Its clients leave once the seats are closed.
    pub fn shut<R: Files>(&self, rt: &R, path: &str) {
        let _as_it_may = self.shutter.shutdown(Shutdown::Both);
        self.leave(rt, path);
    }

    // Lets a client of this socket sit down, if one of its seats is free.
    fn sit<R: Wait>(&self, rt: &R, stream: &UnixStream, seats: &Seats) -> Option<Asker> {
        if self.is_watched {
            seats.sit_watching(rt, stream)
        } else {
            seats.sit(rt, stream)
        }
    }

    /// Removes the socket's file, if the one at its path is still this socket's.
    pub fn leave<R: Files>(&self, rt: &R, path: &str) {
        if self.is_at(rt, path) {
            let _gone = fs::remove_file(rt, path);
        }
    }

    // Whether the file at a path is still this socket's.
    fn is_at<R: Files>(&self, rt: &R, path: &str) -> bool {
        match fs::symlink_metadata(rt, path) {
            Ok(found) => found.dev() == self.device && found.ino() == self.node,
            Err(_) => false,
        }
    }
}

// Gives a socket that listens at a temporary path the wanted one. Only one server at a time replaces a stale file: the
// one that has the guard's path meanwhile.
fn place<R: Files + Net>(rt: &R, alloc: Global, own: &str, path: &str) -> Result<(), ControlFault> {
    if !is_stale(rt, path)? {
        return link(rt, own, path);
    }
    let Ok(guard) = format!(in alloc; "{path}.t") else {
        return Err(ControlFault::System);
    };
    replace(rt, own, guard.as_str())?;
    let placed = replace(rt, own, path);
    let _gone = fs::remove_file(rt, guard.as_str());
    placed
}

// Gives a socket a path, replacing a stale file if there is one.
fn replace<R: Files + Net>(rt: &R, own: &str, path: &str) -> Result<(), ControlFault> {
    if is_stale(rt, path)? && fs::remove_file(rt, path).is_err() {
        return Err(ControlFault::System);
    }
    link(rt, own, path)
}

// Gives a socket another path, where no file may exist.
fn link<R: Files>(rt: &R, own: &str, path: &str) -> Result<(), ControlFault> {
    match fs::hard_link(rt, own, path) {
        Ok(()) => Ok(()),
        Err(error) if error.kind() == ErrorKind::AlreadyExists => Err(ControlFault::Live),
        Err(_) => Err(ControlFault::System),
    }
}

// Whether the path has a socket where nobody listens; false without a file.
fn is_stale<R: Files + Net>(rt: &R, path: &str) -> Result<bool, ControlFault> {
    let found = match fs::symlink_metadata(rt, path) {
        Ok(found) => found,
        Err(error) if error.kind() == ErrorKind::NotFound => return Ok(false),
        Err(_) => return Err(ControlFault::System),
    };
    if !found.file_type().is_socket() {
        return Err(ControlFault::NotSocket);
    }
    match probe(rt, path) {
        Probed::Listens => Err(ControlFault::Live),
        Probed::Nobody => Ok(true),
        Probed::Unknown => Err(ControlFault::System),
    }
}

// Opens a socket at a temporary path next to the wanted one, where clients can connect, and returns the path, too.
fn open_beside<R: Files + Net>(
    rt: &R,
    alloc: Global,
    path: &str,
    mode: u32,
) -> io::Result<(ControlSocket, String)> {
    for number in 0..BESIDE {
        let own = format!(in alloc; "{path}.{number}")?;
        match open_new(rt, own.as_str(), mode) {
            Ok(socket) => return Ok((socket, own)),
            Err(error) if error.kind() == ErrorKind::AddrInUse => {}
            Err(error) => return Err(error),
        }
    }
    Err(ErrorKind::AddrInUse.into())
}

// Opens a socket: makes its file, sets its permissions, and only then lets clients connect.
fn open_new<R: Files + Net>(rt: &R, path: &str, mode: u32) -> io::Result<ControlSocket> {
    let address = SocketAddr::from_pathname(path)?;
    let socket = rt.unix_socket()?;
    rt.bind_unix(socket.as_fd(), &address)?;
    let listening = listen_at(rt, path, socket, mode);
    if listening.is_err() {
        let _gone = fs::remove_file(rt, path);
    }
    listening
}

fn listen_at<R: Files>(
    rt: &R,
    path: &str,
    socket: OwnedFd,
    mode: u32,
) -> io::Result<ControlSocket> {
    fs::set_permissions(rt, path, Permissions::from_mode(mode))?;
    let found = fs::symlink_metadata(rt, path)?;
    if libc::net::listen(socket.as_raw_fd(), WAITING) < 0 {
        return Err(ErrorKind::Other.into());
    }
    let shutter = UnixStream::from(socket.try_clone()?);
    Ok(ControlSocket {
        listener: UnixListener::from(socket),
        shutter,
        device: found.dev(),
        node: found.ino(),
        is_watched: false,
    })
}
