//! Why there is no control socket, in words.
use crate::socket::{ControlFault, ControlSocket};
use program_start::{folder_of, push_folder_reason};
use std::alloc::{AllocError, Global};
use std::net::Net;
use std::rt::Files;

// The most octets of a socket's path, which leave two for the number of its temporary path, or for the guard's path.
const PATH_OCTETS: usize = unix_sockets::PATH_OCTETS - 2;

/// Adds a line that says why no control socket can be made at a path. To find that out, it is tried again.
pub fn push_control_reason<R: Files + Net>(
    rt: &R,
    alloc: Global,
    text: &mut String,
    path: &str,
) -> Result<(), AllocError> {
    match ControlSocket::open(rt, alloc, path) {
        Ok(socket) => {
            socket.leave(rt, path);
            Ok(())
        }
        Err(ControlFault::Live) => writeln!(text, "{path}: another program listens there"),
        Err(ControlFault::NotSocket) => writeln!(text, "{path}: exists, but is not a socket"),
        Err(ControlFault::System) => push_system(rt, text, path),
    }
}

// Adds why the system makes no socket: the path's length, its folder, or something else.
fn push_system<R: Files>(rt: &R, text: &mut String, path: &str) -> Result<(), AllocError> {
    if path.len() > PATH_OCTETS {
        return writeln!(
            text,
            "{path}: too long for a socket; allowed: {PATH_OCTETS} octets"
        );
    }
    let before = text.len();
    push_folder_reason(rt, text, folder_of(path))?;
    if text.len() == before {
        writeln!(
            text,
            "{path}: no socket can be made there: permission denied, or no space"
        )?;
    }
    Ok(())
}
