//! The control socket itself.
use crate::connecting::{connect_socket, fault_of};
use crate::exchange::Exchange;
use crate::fault::StationFault;
use crate::lines::{Incoming, LINE_OCTETS, LineKind};
use std::alloc::Global;
use std::io::{ErrorKind, Read, Write};
use std::net::Net;
use std::os::unix::net::UnixStream;
use std::sync::Wait;
use std::thread;
use std::time::{Clock, Duration};

// How many octets the system is asked for at a time.
const BLOCK_OCTETS: usize = 16 * 1024;

// How many milliseconds to wait before the next attempt to connect.
const REST_MILLIS: u64 = 50;

/// A connection to a station's control socket. After a fault, every later call returns the same fault, but `next_event`
/// first returns the events that had come. `BadCommand` changes nothing, and isn't kept.
#[derive(Drop)]
pub struct Station {
    alloc: Global,
    stream: UnixStream,
    block: Vec<u8>,
    line: Vec<u8>,
    incoming: Incoming,
    exchange: Exchange,
    fault: Option<StationFault>,
}

impl Station {
    /// Connects to the control socket at a path. A station that lets nobody in within the time limit counts as no
    /// server. Nothing is sent yet, so a station without a free seat reports that at the first `ask` or `next_event`.
    pub fn connect<R: Net>(
        rt: &R,
        alloc: Global,
        path: &str,
        limit: Duration,
    ) -> Result<Station, StationFault> {
        let stream = connect_socket(rt, path, limit)?;
        Ok(Station {
            alloc,
            stream,
            block: vec![in alloc; 0; BLOCK_OCTETS]?,
            line: Vec::new(alloc),
            incoming: Incoming::new(alloc),
            exchange: Exchange::new(alloc),
            fault: None,
        })
    }

    /// Like `connect`, but tries again while no server is there, until the time limit.
    pub fn connect_within<R: Net + Clock + Wait>(
        rt: &R,
        alloc: Global,
        path: &str,
        limit: Duration,
    ) -> Result<Station, StationFault> {
        let until = moment_behind(rt, limit)?;
        for _ in rt.forever() {
            match Station::connect(rt, alloc, path, left_until(rt, until)?) {
                Err(StationFault::NoServer) if !left_until(rt, until)?.is_zero() => {
                    thread::sleep(rt, Duration::from_millis(REST_MILLIS));
                }
                ended => return ended,
            }
        }
        Err(StationFault::NoServer)
    }

    /// Connects, sends one command and leaves, all within the time limit. Returns the command's reply.
    pub fn ask_once<R: Net + Clock + Wait>(
        rt: &R,
        alloc: Global,
        path: &str,
        command: &[u8],
        limit: Duration,
    ) -> Result<Vec<u8>, StationFault> {
        let until = moment_behind(rt, limit)?;
        let mut station = Station::connect(rt, alloc, path, limit)?;
        station.ask(rt, command, left_until(rt, until)?)
    }

    /// Sends a command, given as a line without its line feed. Returns the lines of its reply, each with its line feed,
    /// without the final dot. Keeps events that come in between for `next_event`.
    pub fn ask<R: Clock + Wait>(
        &mut self,
        rt: &R,
        command: &[u8],
        limit: Duration,
    ) -> Result<Vec<u8>, StationFault> {
        self.check()?;
        if command.contains(&b'\n') {
            return Err(StationFault::BadCommand);
        }
        let answered = self.exchange_line(rt, command, limit);
        self.keep_fault(answered)
    }

    /// Like `ask`, but the time limit is one of silence: it begins anew with each line that comes.
    pub fn ask_unless_silent<R: Clock + Wait>(
        &mut self,
        rt: &R,
        command: &[u8],
        silence: Duration,
    ) -> Result<Vec<u8>, StationFault> {
        self.check()?;
        if command.contains(&b'\n') {
            return Err(StationFault::BadCommand);
        }
        let answered = self.exchange_lines(rt, command, silence);
        self.keep_fault(answered)
    }

    /// The JSON of the next event, without the word `event`; `None` if none comes within the time limit. The station
    /// sends events once it was asked to `follow`.
    pub fn next_event<R: Clock + Wait>(
        &mut self,
        rt: &R,
        limit: Duration,
    ) -> Result<Option<Vec<u8>>, StationFault> {
        if let Some(event) = self.exchange.take_event() {
            return Ok(Some(event));
        }
        self.check()?;
        let found = match self.wait_event(rt, limit) {
            Err(StationFault::TimedOut) => Ok(None),
            found => found,
        };
        self.keep_fault(found)
    }

    // The fault of an earlier call, if there was one.
    fn check(&self) -> Result<(), StationFault> {
        match self.fault {
            Some(fault) => Err(fault),
            None => Ok(()),
        }
    }

    // Keeps a fault for later calls.
    fn keep_fault<T>(&mut self, outcome: Result<T, StationFault>) -> Result<T, StationFault> {
        if let Err(fault) = &outcome {
            self.fault = Some(*fault);
        }
        outcome
    }

    // Sends a command and reads until the end of its reply.
    fn exchange_line<R: Clock + Wait>(
        &mut self,
        rt: &R,
        command: &[u8],
        limit: Duration,
    ) -> Result<Vec<u8>, StationFault> {
        let until = moment_behind(rt, limit)?;
        self.send(command, limit)?;
        for _ in rt.forever() {
            if self.read_line(rt, until)? == LineKind::End {
                break;
            }
        }
        Ok(self.exchange.take_answer(self.alloc))
    }

    // Sends a command and reads until the end of its reply, however long lines come.
    fn exchange_lines<R: Clock + Wait>(
        &mut self,
        rt: &R,
        command: &[u8],
        silence: Duration,
    ) -> Result<Vec<u8>, StationFault> {
        self.send(command, silence)?;
        for _ in rt.forever() {
            let until = moment_behind(rt, silence)?;
            if self.read_line(rt, until)? == LineKind::End {
                break;
            }
        }
        Ok(self.exchange.take_answer(self.alloc))
    }

    // Sends a command. If the station has closed its end, what it sent before can still be read.
    fn send(&mut self, command: &[u8], limit: Duration) -> Result<(), StationFault> {
        let mut text = Vec::with_capacity(self.alloc, command.len().saturating_add(1))?;
        text.extend_from_slice(command)?;
        text.extend_from_slice(b"\n".as_slice())?;
        let sent = self
            .stream
            .set_write_timeout(Some(limit.max(Duration::from_millis(1))))
            .and_then(|()| (&self.stream).write_all(text.as_slice()));
        match sent {
            Err(error) if error.kind() == ErrorKind::BrokenPipe => Ok(()),
            Err(error) => Err(fault_of(&error)),
            Ok(()) => Ok(()),
        }
    }

    // Reads until there is an event.
    fn wait_event<R: Clock + Wait>(
        &mut self,
        rt: &R,
        limit: Duration,
    ) -> Result<Option<Vec<u8>>, StationFault> {
        let until = moment_behind(rt, limit)?;
        for _ in rt.forever() {
            if self.read_line(rt, until)? == LineKind::Event {
                break;
            }
        }
        Ok(self.exchange.take_event())
    }

    // Reads the next line and adds it to the exchange; returns its kind.
    fn read_line<R: Clock + Wait>(
        &mut self,
        rt: &R,
        until: Duration,
    ) -> Result<LineKind, StationFault> {
        for _ in rt.forever() {
            match self.incoming.next_line(&mut self.line)? {
                Some(LineKind::Busy) => return Err(StationFault::Busy),
                Some(kind) => {
                    self.exchange.add(self.alloc, kind, self.line.as_slice())?;
                    return Ok(kind);
                }
                None if self.incoming.len() > LINE_OCTETS => return Err(StationFault::TooLong),
                None => self.read_more(rt, until)?,
            }
        }
        Err(StationFault::System)
    }

    // Reads once from the station.
    fn read_more<R: Clock>(&mut self, rt: &R, until: Duration) -> Result<(), StationFault> {
        let left = left_until(rt, until)?;
        if left.is_zero() {
            return Err(StationFault::TimedOut);
        }
        self.stream
            .set_read_timeout(Some(left))
            .map_err(|error| fault_of(&error))?;
        match (&self.stream).read(self.block.as_mut_slice()) {
            Ok(0) => Err(StationFault::Gone),
            Ok(count) => self.incoming.push(&self.block[..count]),
            Err(error) if error.kind() == ErrorKind::Interrupted => Ok(()),
            Err(error) => Err(fault_of(&error)),
        }
    }
}

// The moment at which a time limit from now ends, by the system's monotonic clock.
fn moment_behind<R: Clock>(rt: &R, limit: Duration) -> Result<Duration, StationFault> {
    let now = rt.monotonic().map_err(|_| StationFault::System)?;
    Ok(now.saturating_add(limit))
}

// How long it is until this moment.
fn left_until<R: Clock>(rt: &R, until: Duration) -> Result<Duration, StationFault> {
    let now = rt.monotonic().map_err(|_| StationFault::System)?;
    Ok(until.saturating_sub(now))
}
