//! Lets visitors in, and waits for their octets.
use crate::lobby::Lobby;
use crate::visit::Visit;
use crate::watch::Watch;
use libc::net::{POLLIN, POLLOUT, poll};
use libc::types::pollfd;
use std::alloc::{AllocError, Global};
use std::hash::RandomState;
use std::io::ErrorKind;
use std::net::{Net, TcpListener, TcpStream};
use std::os::fd::AsRawFd;
use std::rt::Files;
use std::sync::Wait;
use std::time::{Clock, Duration};
use std::{io, thread};

/// How many visits may wait for octets.
pub const VISITS: usize = 512;

// How many visitors are let in before others have their turn.
const ENTRIES: usize = 64;

// The most milliseconds to wait before looking for visits whose time is over.
const LOOK_MILLIS: i32 = 500;

// How many milliseconds to rest where the system can't wait, or lets nobody in.
const REST_MILLIS: u64 = 20;

/// Lets visitors in, hands over those whose octets come, and closes the connections of those that take too long. Never
/// ends.
pub(crate) fn keep_doors<R: Wait + Clock + Net<Listener = TcpListener, Stream = TcpStream> + Files>(
    rt: &R,
    alloc: Global,
    keys: RandomState,
    listener: &TcpListener,
    lobby: &Lobby,
    watch: &Watch<'_, R>,
) {
    let _waits_for_nothing = listener.set_nonblocking(true);
    let mut visits = Vec::new(alloc);
    for _ in rt.forever() {
        let _done = look_once(rt, alloc, keys, listener, (lobby, watch), &mut visits);
    }
}

// Ends visits whose time is over, waits once, looks at the plan, and handles what came. The visits end first, because
// octets that come are a reason to go on only within the time.
fn look_once<R: Wait + Clock + Net<Listener = TcpListener, Stream = TcpStream> + Files>(
    rt: &R,
    alloc: Global,
    keys: RandomState,
    listener: &TcpListener,
    (lobby, watch): (&Lobby, &Watch<'_, R>),
    visits: &mut Vec<Visit>,
) -> io::Result<()> {
    close_late(rt, visits)?;
    let mut waiting = waiting_for(alloc, listener, lobby, visits.as_slice())?;
    if poll(waiting.as_mut_slice(), LOOK_MILLIS) < 0 {
        thread::sleep(rt, Duration::from_millis(REST_MILLIS));
        return Ok(());
    }
    watch.look_at_plan();
    hand_over(rt, lobby, visits, waiting.as_slice())?;
    for visit in lobby.take_back(rt) {
        add(visits, visit)?;
    }
    let_in(rt, alloc, keys, listener, visits)
}

// What is waited for: a visitor, a visit that was given back, and octets or room of each visit, in this order.
fn waiting_for(
    alloc: Global,
    listener: &TcpListener,
    lobby: &Lobby,
    visits: &[Visit],
) -> Result<Vec<pollfd>, AllocError> {
    let mut waiting = Vec::new(alloc);
    waiting.push(entry(listener.as_raw_fd(), POLLIN))?;
    waiting.push(entry(lobby.bell(), POLLIN))?;
    for visit in visits {
        let events = if visit.is_writing() { POLLOUT } else { POLLIN };
        waiting.push(entry(visit.descriptor(), events))?;
    }
    Ok(waiting)
}

fn entry(fd: i32, events: i16) -> pollfd {
    pollfd {
        fd,
        events,
        revents: 0,
    }
}

// Hands over each visit at which something came.
fn hand_over<R: Wait>(
    rt: &R,
    lobby: &Lobby,
    visits: &mut Vec<Visit>,
    waiting: &[pollfd],
) -> Result<(), AllocError> {
    for place in (0..visits.len()).rev() {
        if has_come(waiting.get(place.saturating_add(2))) && place < visits.len() {
            lobby.admit(rt, visits.swap_remove(place))?;
        }
    }
    Ok(())
}

fn has_come(entry: Option<&pollfd>) -> bool {
    match entry {
        Some(entry) => entry.revents != 0,
        None => false,
    }
}

// Ends the visits whose time is over.
fn close_late<R: Clock>(rt: &R, visits: &mut Vec<Visit>) -> io::Result<()> {
    let now = rt.monotonic()?;
    visits.retain(|visit| visit.until() > now);
    Ok(())
}

// Adds a visit. Where there are too many, the one whose time is over first ends.
fn add(visits: &mut Vec<Visit>, visit: Visit) -> Result<(), AllocError> {
    if visits.len() >= VISITS
        && let Some(place) = first_over(visits.as_slice())
        && place < visits.len()
    {
        let _over = visits.swap_remove(place);
    }
    match visits.push(visit) {
        Ok(()) => Ok(()),
        Err(_) => Err(AllocError),
    }
}

// The place of the visit whose time is over first.
fn first_over(visits: &[Visit]) -> Option<usize> {
    let mut first: Option<(usize, Duration)> = None;
    for (place, visit) in visits.iter().enumerate() {
        let until = visit.until();
        match first {
            Some((_, least)) if least <= until => {}
            _ => first = Some((place, until)),
        }
    }
    let (place, _) = first?;
    Some(place)
}

// Lets in the visitors that wait; rests where the system lets nobody in.
fn let_in<R: Wait + Clock + Net<Listener = TcpListener, Stream = TcpStream>>(
    rt: &R,
    alloc: Global,
    keys: RandomState,
    listener: &TcpListener,
    visits: &mut Vec<Visit>,
) -> io::Result<()> {
    for _ in 0..ENTRIES {
        match listener.accept() {
            Ok((stream, _)) => add(visits, Visit::new(rt, alloc, keys, stream)?)?,
            Err(error) => {
                if error.kind() != ErrorKind::WouldBlock {
                    thread::sleep(rt, Duration::from_millis(REST_MILLIS));
                }
                break;
            }
        }
    }
    Ok(())
}
