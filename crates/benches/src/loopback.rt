//! Sends datagrams from one socket to another, as fast as two threads send and receive them.
use crate::fault::Fault;
use std::alloc::{AllocError, Global};
use std::net::{Net, UdpSocket};
use std::thread;
use std::thread::Threads;
use std::time::Duration;

/// How many datagrams are sent, and how many octets each has.
#[derive(Clone, Copy)]
pub(crate) struct Load {
    pub(crate) datagrams: u32,
    pub(crate) octets: u16,
}

// The receiving end reports each time that this many have arrived. At most twice as many are on their way, which a
// receive buffer of the usual size holds: so none is lost.
const WINDOW: u32 = 32;

// How many milliseconds an end waits for the other before it gives up.
const PATIENCE_MS: u64 = 1_000;

// Has a socket send to another, and wait for it no longer than `PATIENCE_MS`.
fn turn_to(socket: &UdpSocket, other: &UdpSocket) -> Result<(), Fault> {
    socket.connect(other.local_addr()?)?;
    socket.set_read_timeout(Some(Duration::from_millis(PATIENCE_MS)))?;
    Ok(())
}

// A datagram of this many octets.
fn datagram(alloc: Global, octets: u16) -> Result<Vec<u8>, AllocError> {
    let mut datagram = Vec::with_capacity(alloc, octets as usize)?;
    for _ in 0..octets {
        datagram.push(0x61)?;
    }
    Ok(datagram)
}

// Sends this many datagrams, unless the other end falls silent.
fn send_all(socket: &UdpSocket, datagram: &[u8], count: u32) {
    let mut answer = [0u8];
    let mut room = 2 * WINDOW;
    for _ in 0..count {
        if room == 0 {
            if socket.recv(&mut answer).is_err() {
                return;
            }
            room = WINDOW;
        }
        if socket.send(datagram).is_err() {
            return;
        }
        room -= 1;
    }
}

// Receives this many datagrams, unless the other end falls silent. Returns how many arrived.
fn take_all(socket: &UdpSocket, buffer: &mut [u8], count: u32) -> u32 {
    for number in 0..count {
        if socket.recv(buffer).is_err() {
            return number;
        }
        if number % WINDOW == WINDOW - 1 {
            let _silent = socket.send(b"a");
        }
    }
    count
}

// Sends datagrams from one socket to another, and returns how many arrived.
fn send_over<R: Threads>(
    rt: &R,
    alloc: Global,
    sending: &UdpSocket,
    taking: &UdpSocket,
    load: Load,
) -> Result<u64, Fault> {
    turn_to(sending, taking)?;
    turn_to(taking, sending)?;
    let sent = datagram(alloc, load.octets)?;
    let mut buffer = datagram(alloc, load.octets)?;
    let ((), came) = thread::join(
        rt,
        || send_all(sending, sent.as_slice(), load.datagrams),
        || take_all(taking, buffer.as_mut_slice(), load.datagrams),
    );
    Ok(u64::from(came))
}

/// Sends datagrams over loopback; returns how many arrived.
pub(crate) fn blast<R: Threads + Net>(rt: &R, alloc: Global, load: Load) -> Result<u64, Fault> {
    let sending = UdpSocket::bind(rt, "127.0.0.1:0")?;
    let taking = UdpSocket::bind(rt, "127.0.0.1:0")?;
    send_over(rt, alloc, &sending, &taking, load)
}
