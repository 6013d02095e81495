//! The socket of a program.
use crate::widening::widen;
use program_start::ProgramFault;
use std::io;
use std::net::{Net, UdpSocket};
use std::time::Duration;

// How long a read waits for a datagram, and a send for room in the socket's buffer, in milliseconds.
const READ_MS: u64 = 1_000;

const SEND_MS: u64 = 1;

/// Opens a program's socket at an address, with as large a receive buffer as the system gives. A read that has found no
/// datagram for a second returns, so that its thread may look whether any are wanted. A send that has found no room for a
/// millisecond fails, so a slow link holds up no thread.
pub fn open_socket<R: Net>(rt: &R, address: &str) -> Result<UdpSocket, ProgramFault> {
    match UdpSocket::bind(rt, address) {
        Ok(socket) => {
            let _as_it_may = widen(&socket);
            match limit_waits(&socket) {
                Ok(()) => Ok(socket),
                Err(_) => Err(ProgramFault::Bind),
            }
        }
        Err(_) => Err(ProgramFault::Bind),
    }
}

// Limits how long reads and sends wait.
fn limit_waits(socket: &UdpSocket) -> io::Result<()> {
    socket.set_read_timeout(Some(Duration::from_millis(READ_MS)))?;
    socket.set_write_timeout(Some(Duration::from_millis(SEND_MS)))
}
