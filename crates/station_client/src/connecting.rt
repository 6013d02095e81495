//! Connects to a Unix socket within a time limit.
use crate::fault::StationFault;
use std::io;
use std::io::ErrorKind;
use std::net::Net;
use std::os::unix::net::UnixStream;
use std::time::Duration;
use unix_sockets::{connect_to, is_address};

// How often an interrupted connect is made again, as when the program was stopped and continued.
const INTERRUPTIONS: u32 = 8;

/// Connects to a path. If the server's queue of connections is full, waits for a place until the time limit.
pub(crate) fn connect_socket<R: Net>(
    rt: &R,
    path: &str,
    limit: Duration,
) -> Result<UnixStream, StationFault> {
    if !is_address(path) {
        return Err(StationFault::BadPath);
    }
    let socket = rt.unix_socket().map_err(|error| fault_of(&error))?;
    let stream = UnixStream::from(socket);
    // the system lets a connect wait as long as a write
    stream
        .set_write_timeout(Some(limit.max(Duration::from_millis(1))))
        .map_err(|error| fault_of(&error))?;
    for _ in 0..INTERRUPTIONS {
        match connect_to(&stream, path) {
            Ok(()) => return Ok(stream),
            Err(error) if error.kind() == ErrorKind::Interrupted => {}
            Err(error) => return Err(fault_of_connect(&error)),
        }
    }
    Err(StationFault::NoServer)
}

// The fault for a connect that failed.
fn fault_of_connect(error: &io::Error) -> StationFault {
    match error.kind() {
        ErrorKind::NotFound | ErrorKind::ConnectionRefused | ErrorKind::WouldBlock => {
            StationFault::NoServer
        }
        ErrorKind::PermissionDenied => StationFault::Denied,
        ErrorKind::InvalidInput | ErrorKind::NotADirectory => StationFault::BadPath,
        _ => fault_of(error),
    }
}

/// The fault for any other call of the system that failed.
pub(crate) fn fault_of(error: &io::Error) -> StationFault {
    match error.kind() {
        ErrorKind::WouldBlock | ErrorKind::TimedOut => StationFault::TimedOut,
        ErrorKind::BrokenPipe | ErrorKind::ConnectionReset | ErrorKind::UnexpectedEof => {
            StationFault::Gone
        }
        ErrorKind::OutOfMemory => StationFault::NoMemory,
        _ => StationFault::System,
    }
}
