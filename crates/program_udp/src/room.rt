//! Whether a datagram would wait for room in a socket's buffer.
use libc::net as c;
use libc::types::pollfd;
use std::net::UdpSocket;
use std::os::fd::AsRawFd;

/// Whether the socket's buffer has room: half of it is free, which is enough for some forty datagrams of 1,400 octets by the
/// usual sizes. If the system doesn't say, it has.
pub(crate) fn has_room(socket: &UdpSocket) -> bool {
    let mut asked = [pollfd {
        fd: socket.as_raw_fd(),
        events: c::POLLOUT,
        revents: 0,
    }];
    let found = c::poll(&mut asked, 0);
    found != 0
}
