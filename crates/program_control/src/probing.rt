//! Finds out whether a server listens at a Unix socket.
use std::io::ErrorKind;
use std::net::Net;
use std::os::unix::net::UnixStream;
use unix_sockets::{connect_to, is_address};

/// What is known of a path where a server may listen.
#[derive(Clone, Copy, Debug, PartialEq, Eq)]
pub(crate) enum Probed {
    Listens,
    Nobody,
    Unknown,
}

/// Connects to a path and leaves again, without ever waiting: a full queue of connections shows that a server listens.
pub(crate) fn probe<R: Net>(rt: &R, path: &str) -> Probed {
    if !is_address(path) {
        return Probed::Unknown;
    }
    let Ok(socket) = rt.unix_socket() else {
        return Probed::Unknown;
    };
    let socket = UnixStream::from(socket);
    if socket.set_nonblocking(true).is_err() {
        return Probed::Unknown;
    }
    match connect_to(&socket, path) {
        Ok(()) => Probed::Listens,
        Err(error) => match error.kind() {
            ErrorKind::WouldBlock => Probed::Listens,
            ErrorKind::ConnectionRefused => Probed::Nobody,
            _ => Probed::Unknown,
        },
    }
}
