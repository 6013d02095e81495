//! The connection to the server, and its limits of time.
use crate::fault::CtlFault;
use crate::screen::Screen;
use station_client::{Station, StationFault};
use std::alloc::Global;
use std::io::Write;
use std::net::Net;
use std::sync::Wait;
use std::thread;
use std::time::{Clock, Duration};

// How many milliseconds a server may take to let the program in, and then to answer, unless the command line says how
// long to wait: less than five seconds in all.
const ENTRY_MILLIS: u64 = 400;

const PATIENCE_MILLIS: u64 = 4_400;

// How many milliseconds a server may take to send a transaction as a script, or a large status.
const LONG_MILLIS: u64 = 120_000;

// How many milliseconds to wait before the next attempt to reach a server that went away.
pub(crate) const REST_MILLIS: u64 = 500;

/// A connection to a server, and how long the server may take to reply.
#[derive(Drop)]
pub(crate) struct Line {
    pub(crate) station: Station,
    limit: Duration,
}

impl Line {
    /// Connects, and tries again for `awaited` seconds if that is given.
    pub(crate) fn open<R: Net + Clock + Wait>(
        rt: &R,
        alloc: Global,
        path: &str,
        awaited: Option<u64>,
    ) -> Result<Line, CtlFault> {
        let usual = Duration::from_millis(PATIENCE_MILLIS);
        match awaited {
            None => Ok(Line {
                station: Station::connect(rt, alloc, path, Duration::from_millis(ENTRY_MILLIS))?,
                limit: usual,
            }),
            Some(seconds) => {
                let patience = Duration::from_secs(seconds);
                Ok(Line {
                    station: Station::connect_within(rt, alloc, path, patience)?,
                    limit: patience.max(usual),
                })
            }
        }
    }

    /// The lines of the reply to a command. The server may take its time as long as it sends lines or events.
    pub(crate) fn ask<R: Clock + Wait>(
        &mut self,
        rt: &R,
        command: &[u8],
    ) -> Result<Vec<u8>, CtlFault> {
        Ok(self.station.ask_unless_silent(rt, command, self.limit)?)
    }

    /// The lines of the reply to a command that takes a server longer, or whose reply may be large.
    pub(crate) fn ask_patiently<R: Clock + Wait>(
        &mut self,
        rt: &R,
        command: &[u8],
    ) -> Result<Vec<u8>, CtlFault> {
        let limit = self.limit.max(Duration::from_millis(LONG_MILLIS));
        Ok(self.station.ask(rt, command, limit)?)
    }

    /// The JSON of the next event; `None` if none comes within this many milliseconds.
    pub(crate) fn next_event<R: Clock + Wait>(
        &mut self,
        rt: &R,
        milliseconds: u64,
    ) -> Result<Option<Vec<u8>>, CtlFault> {
        let limit = Duration::from_millis(milliseconds);
        Ok(self.station.next_event(rt, limit)?)
    }
}

/// Whether a server may answer again after this fault.
pub(crate) fn may_return(fault: StationFault) -> bool {
    matches!(
        fault,
        StationFault::NoServer
            | StationFault::Busy
            | StationFault::Gone
            | StationFault::TimedOut
            | StationFault::TooManyEvents
    )
}

/// Reports a fault with the socket's path, and returns another connection as soon as there is one.
pub(crate) fn line_again<R, W, E>(
    rt: &R,
    alloc: Global,
    screen: &mut Screen<W, E>,
    path: &str,
    fault: StationFault,
) -> Result<Line, CtlFault>
where
    R: Net + Clock + Wait,
    W: Write + Drop,
    E: Write + Drop,
{
    let text = fault.text();
    let waits = format!(in alloc; "cfdp_ctl: {path}: {text}; waiting for it")?;
    screen.complain_line(alloc, waits.as_str());
    for _ in rt.forever() {
        thread::sleep(rt, Duration::from_millis(REST_MILLIS));
        match Line::open(rt, alloc, path, None) {
            Err(CtlFault::Station(again)) if may_return(again) => {}
            opened => return opened,
        }
    }
    Err(CtlFault::Station(StationFault::NoServer))
}

/// The first line of a reply, without its line feed.
pub(crate) fn first_line(answer: &[u8]) -> &[u8] {
    match answer.iter().position(|octet| *octet == b'\n') {
        Some(at) => &answer[..at],
        None => answer,
    }
}
