//! Connects a Unix socket to a path.
#![tactic(auto)]

ghost use Rattle.std.specs.Prelude.{◌≡◌};
ghost use Rattle.unix_sockets.specs.Addresses.{is_address};

use libc::net as c;
use std::io;
use std::io::ErrorKind;
use std::os::fd::AsRawFd;
use std::os::unix::net::UnixStream;

// The family of a Unix address.
const UNIX: u16 = 1;

/// How many octets a socket's path may have.
pub const PATH_OCTETS: usize = 107;

/// Whether a path can be a socket's address: it isn't empty, has no zero octet, and isn't too long.
pub fn is_address(path: &str) -> bool
    ensures { result ≡ is_address path.now }
{
    let path = path.as_bytes();
    !path.is_empty() && path.len() <= PATH_OCTETS && !path.contains(&0)
}

/// Connects a socket to a path, in one try. Returns `InvalidInput` for a path that can't be an address.
pub fn connect_to(socket: &UnixStream, path: &str) -> io::Result<()> {
    if !is_address(path) {
        return Err(ErrorKind::InvalidInput.into());
    }
    let path = path.as_bytes();
    let mut address = [0u8; 128];
    address[..2].copy_from_slice(&UNIX.to_ne_bytes());
    address[2..2 + path.len()].copy_from_slice(path);
    let length = path.len() as u32 + 3;
    // the call reads the first octets of the address, and changes none of the program's memory
    if unsafe { c::connect(socket.as_raw_fd(), &address, length) } == 0 {
        return Ok(());
    }
    Err(io::Error::from_raw_os_error(os::errno()))
}
