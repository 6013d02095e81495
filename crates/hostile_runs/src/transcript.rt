use std::alloc::{AllocError, Global};

// Room for all notes, so that noting allocates nothing.
const ROOM: usize = 65_536;

/// The answers, each under a title.
#[derive(Drop)]
pub(crate) struct Transcript {
    text: String,
}

impl Transcript {
    /// An empty transcript.
    pub(crate) fn new(alloc: Global) -> Result<Transcript, AllocError> {
        let made = String::with_capacity(alloc, ROOM);
        let text = made.or_else(|_error| String::with_capacity(alloc, ROOM))?;
        Ok(Transcript { text })
    }

    /// The whole transcript.
    pub(crate) fn text(&self) -> &str {
        self.text.as_str()
    }

    fn push_title(&mut self, title: &str) -> Result<(), AllocError> {
        self.text.push_str("> ")?;
        self.text.push_str(title)?;
        self.text.push_str("\n")
    }

    /// Notes an answer of a call.
    pub(crate) fn note(&mut self, title: &str, answer: &str) -> Result<(), AllocError> {
        self.push_title(title)?;
        self.text.push_str(answer)?;
        self.text.push_str("\n")
    }

    /// Notes an answer that is a number.
    pub(crate) fn note_number(&mut self, title: &str, number: u64) -> Result<(), AllocError> {
        self.push_title(title)?;
        writeln!(self.text, "{number}")
    }

    /// Notes whether a call had the memory that it needs; returns the same.
    pub(crate) fn note_made(&mut self, title: &str, made: bool) -> Result<bool, AllocError> {
        self.note(title, if made { "ok" } else { "no memory" })?;
        Ok(made)
    }
}
