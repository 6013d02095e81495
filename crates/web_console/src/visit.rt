//! One visit over HTTP.
use crate::watch::Watch;
use http_server::{Config, Connection};
use std::alloc::Global;
use std::hash::RandomState;
use std::io;
use std::io::ErrorKind;
use std::net::{Net, TcpStream};
use std::os::fd::AsRawFd;
use std::sync::Wait;
use std::time::{Clock, Duration};
use web_pages::{Console, Settings};

// How many seconds a visitor may take to send a request, and to take an answer.
const PATIENCE_SECS: u64 = 10;

// How many of those seconds a visitor may take to send its first octet.
const SILENCE_SECS: u64 = 2;

// The most octets of a request's body: those of a command's line.
const BODY_OCTETS: usize = 131_072;

// How often octets are moved for one visit before others have their turn.
const STEPS: usize = 64;

/// A visitor's connection. Reading from it and writing to it don't block.
#[derive(Drop)]
pub(crate) struct Visit {
    stream: TcpStream,
    connection: Connection,
    /// When the console's patience ends, on the system's monotonic clock.
    until: Duration,
    /// Whether the visitor has to take a response; otherwise it has to send a request.
    is_writing: bool,
    /// Whether no octet has come yet.
    is_silent: bool,
}

impl Visit {
    /// A visit that begins.
    pub(crate) fn new<R: Clock>(
        rt: &R,
        alloc: Global,
        keys: RandomState,
        stream: TcpStream,
    ) -> io::Result<Visit> {
        stream.set_nodelay(true)?;
        stream.set_nonblocking(true)?;
        let config = Config {
            max_body_len: BODY_OCTETS,
            ..Config::default()
        };
        Ok(Visit {
            stream,
            connection: Connection::new(alloc, keys, config),
            until: later(rt, SILENCE_SECS)?,
            is_writing: false,
            is_silent: true,
        })
    }

    /// The descriptor of its connection.
    pub(crate) fn descriptor(&self) -> i32 {
        self.stream.as_raw_fd()
    }

    /// Whether the visitor has to take a response; otherwise it has to send a request.
    pub(crate) fn is_writing(&self) -> bool {
        self.is_writing
    }

    /// When the console's patience ends.
    pub(crate) fn until(&self) -> Duration {
        self.until
    }

    /// Goes on as far as there are octets to read and room to write; false once the visit is over.
    pub(crate) fn go_on<R: Wait + Clock + Net>(
        &mut self,
        rt: &R,
        alloc: Global,
        settings: &Settings,
        watch: &Watch<'_, R>,
    ) -> io::Result<bool> {
        let mut console = Console::new(alloc, settings, watch);
        for _ in 0..STEPS {
            self.connection.advance(&mut console);
            if self.connection.is_done() {
                return Ok(false);
            }
            if self.connection.wants_write() != self.is_writing {
                self.is_writing = !self.is_writing;
                self.until = later(rt, PATIENCE_SECS)?;
            }
            match self.move_octets() {
                Ok(()) => {}
                Err(error) if error.kind() == ErrorKind::WouldBlock => return Ok(true),
                Err(error) => return Err(error),
            }
        }
        Ok(true)
    }

    // Writes what is pending, or reads. The first octet gives a visitor the rest of the console's patience.
    fn move_octets(&mut self) -> io::Result<()> {
        if self.is_writing {
            let mut writer = &self.stream;
            if self.connection.write_to(&mut writer)? == 0 {
                return Err(ErrorKind::WriteZero.into());
            }
        } else {
            let mut reader = &self.stream;
            let count = self.connection.read_from(&mut reader)?;
            if self.is_silent && count > 0 {
                self.is_silent = false;
                self.until = self
                    .until
                    .saturating_add(Duration::from_secs(PATIENCE_SECS - SILENCE_SECS));
            }
        }
        Ok(())
    }
}

// The moment `secs` seconds from now.
fn later<R: Clock>(rt: &R, secs: u64) -> io::Result<Duration> {
    Ok(rt.monotonic()?.saturating_add(Duration::from_secs(secs)))
}
