//! Events on their way to the clients that follow.
use event_levels::{Level, push_labelled};
use kept_events::Form;
use program_seats::{STREAMS, Seats};
use std::alloc::{AllocError, Global};
use std::sync::Wait;

/// The word before an event sent to a client.
pub(crate) const WORD: &str = "event ";

// The events of a turn for the clients that follow from a level on.
#[derive(Drop)]
struct Stream {
    least: Level,
    form: Form,
    is_followed: bool,
    told: Vec<u8>,
}

/// The events of a turn, by what clients follow: all events as they are, or those of a level and above with their
/// levels.
#[derive(Drop)]
pub(crate) struct Streams {
    streams: Vec<Stream>,
}

/// The stream of a client that follows from a level on, or all events as they are.
pub(crate) fn stream_of(least: Option<Level>) -> usize {
    match least {
        None => 0,
        Some(Level::Detail) => 1,
        Some(Level::Info) => 2,
        Some(Level::Warning) => 3,
    }
}

/// How a client that follows from a level on, or follows all events, gets them.
pub(crate) fn form_of(least: Option<Level>) -> Form {
    match least {
        None => Form::Plain,
        Some(_) => Form::Labelled,
    }
}

impl Stream {
    fn new(alloc: Global, least: Level, form: Form) -> Stream {
        Stream {
            least,
            form,
            is_followed: false,
            told: Vec::new(alloc),
        }
    }

    // Adds an event, as a whole or not at all.
    fn add(&mut self, level: Level, line: &[u8]) {
        let before = self.told.len();
        if self.push(level, line).is_err() {
            self.told.truncate(before);
        }
    }

    fn push(&mut self, level: Level, line: &[u8]) -> Result<(), AllocError> {
        self.told.extend_from_slice(WORD.as_bytes())?;
        match self.form {
            Form::Plain => self.told.extend_from_slice(line),
            Form::Labelled => push_labelled(&mut self.told, line, level),
        }
    }
}

impl Streams {
    /// Without any event, and not followed.
    pub(crate) fn new(alloc: Global) -> Result<Streams, AllocError> {
        let mut streams = Vec::with_capacity(alloc, STREAMS)?;
        streams.push(Stream::new(alloc, Level::Detail, Form::Plain))?;
        streams.push(Stream::new(alloc, Level::Detail, Form::Labelled))?;
        streams.push(Stream::new(alloc, Level::Info, Form::Labelled))?;
        streams.push(Stream::new(alloc, Level::Warning, Form::Labelled))?;
        Ok(Streams { streams })
    }

    /// Notes which streams any client follows.
    pub(crate) fn look<R: Wait>(&mut self, rt: &R, seats: &Seats) {
        let followed = seats.followed(rt);
        for (place, stream) in self.streams.iter_mut().enumerate() {
            stream.is_followed = place < STREAMS && followed[place];
        }
    }

    /// Whether any client follows the events of a level.
    pub(crate) fn is_followed(&self, level: Level) -> bool {
        self.streams
            .iter()
            .any(|stream| stream.is_followed && level.reaches(stream.least))
    }

    /// Adds an event for the clients that follow.
    pub(crate) fn add(&mut self, level: Level, line: &[u8]) {
        for stream in self.streams.iter_mut() {
            if stream.is_followed && level.reaches(stream.least) {
                stream.add(level, line);
            }
        }
    }

    /// Sends the clients what was added.
    pub(crate) fn tell<R: Wait>(&mut self, rt: &R, seats: &Seats) {
        for (place, stream) in self.streams.iter_mut().enumerate() {
            if !stream.told.is_empty() {
                seats.tell(rt, place, stream.told.as_slice());
                stream.told.clear();
            }
        }
    }
}
