//! Enlarges the receive buffer of a datagram socket.
use libc::net as c;
use std::net::UdpSocket;
use std::os::fd::AsRawFd;

// How many octets the receive buffer is asked to hold.
const RECEIVE_BUFFER_OCTETS: i32 = 4_000_000;

/// Asks the system for a receive buffer of `RECEIVE_BUFFER_OCTETS`; returns whether it took the request. The system may
/// give less, up to its own limit, and the socket is used nevertheless.
pub(crate) fn widen(socket: &UdpSocket) -> bool {
    let mut value = [0u8; 16];
    value[..4].copy_from_slice(&RECEIVE_BUFFER_OCTETS.to_ne_bytes());
    // the call reads the first four octets of the value, and changes none of the program's memory
    unsafe { c::setsockopt(socket.as_raw_fd(), c::SOL_SOCKET, c::SO_RCVBUF, &value, 4) == 0 }
}
