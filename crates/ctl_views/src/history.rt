//! Finds the transactions that ended in the lines of a log.
use crate::ends::{End, end_in, push_end};
use crate::events::{Transaction, transaction_in};
use crate::fields::{moment_in, number_in, push_name, text_in, value_of};
use json::{Scratch, Value};
use station_names::{kind, member};
use std::alloc::{AllocError, Global};
use std::collections::BTreeMap;

/// Which way a file went.
#[derive(Clone, Copy, PartialEq, Eq)]
pub enum Way {
    Sent,
    Received,
    /// The log doesn't say.
    Unknown,
}

/// A transaction that ended.
#[derive(Drop)]
pub struct Ended {
    /// The moment of its end, as the log has it.
    pub at: String,
    /// That moment in milliseconds.
    pub moment: Option<u64>,
    /// How many milliseconds it took, from its file's first event in the log.
    pub took: Option<u64>,
    pub way: Way,
    /// The entity at the other end.
    pub peer: Option<u64>,
    pub user: String,
    pub source: u64,
    pub seq: u64,
    /// The file's names at its source and at its destination; a question mark where the log has none.
    pub file: String,
    pub to: String,
    /// How many octets the file has.
    pub size: Option<u64>,
    pub end: End,
    /// How it ended, in words.
    pub how: String,
}

// What the log says of a transaction under way.
#[derive(Drop)]
struct Begun {
    at: Option<u64>,
    way: Way,
    peer: Option<u64>,
    file: String,
    to: String,
    size: Option<u64>,
}

/// Reads a log, line by line.
#[derive(Drop)]
pub struct History {
    alloc: Global,
    // the entity whose log it is, if the log says so
    own: Option<u64>,
    open: BTreeMap<(u64, u64), Begun>,
    // the transactions whose end was seen
    ended: BTreeMap<(u64, u64), ()>,
    /// How many lines are not JSON objects.
    pub skipped: u64,
    /// How many transactions were under way at a start of the server.
    pub cut: u64,
}

impl History {
    /// Before any line.
    pub fn new(alloc: Global) -> History {
        History {
            alloc,
            own: None,
            open: BTreeMap::new(alloc),
            ended: BTreeMap::new(alloc),
            skipped: 0,
            cut: 0,
        }
    }

    /// How many transactions are under way.
    pub fn open_count(&self) -> usize {
        self.open.len()
    }

    /// Counts a line that can't be read.
    pub fn skip(&mut self) {
        self.skipped = self.skipped.saturating_add(1);
    }

    /// Reads the next line; returns the transaction that it ends, if it ends one.
    pub fn take(&mut self, line: &str) -> Result<Option<Ended>, AllocError> {
        let alloc = self.alloc;
        let mut scratch = Scratch::new(alloc);
        match value_of(alloc, line, &mut scratch)? {
            Some(value) if matches!(value, Value::Object(_)) => self.take_event(&value),
            _ => {
                self.skip();
                Ok(None)
            }
        }
    }

    fn take_event(&mut self, value: &Value<'_>) -> Result<Option<Ended>, AllocError> {
        match (text_in(value, member::KIND), text_in(value, member::NAME)) {
            (Some(kind::START), _) => self.start(number_in(value, member::ID)),
            (Some(kind::PUT), _) => self.begin(value, Way::Sent, number_in(value, member::PEER))?,
            (Some(kind::INDICATION), Some("Metadata-Recv")) => {
                self.begin(value, Way::Received, number_in(value, member::SOURCE))?
            }
            (Some(kind::INDICATION), Some("Transaction-Finished" | "Abandoned")) => {
                return self.end(value);
            }
            _ => (),
        }
        Ok(None)
    }

    // Forgets the transactions of the run before.
    fn start(&mut self, own: Option<u64>) {
        self.cut = self.cut.saturating_add(self.open.len() as u64);
        self.own = own;
        self.open = BTreeMap::new(self.alloc);
        self.ended = BTreeMap::new(self.alloc);
    }

    // Notes that a transaction begins.
    fn begin(&mut self, value: &Value<'_>, way: Way, peer: Option<u64>) -> Result<(), AllocError> {
        let Some(Transaction { source, seq }) = transaction_in(value) else {
            return Ok(());
        };
        let begun = Begun {
            at: moment_in(value, member::AT),
            way,
            peer,
            file: name_in(self.alloc, value, member::FILE)?,
            to: name_in(self.alloc, value, member::TO)?,
            size: number_in(value, member::SIZE),
        };
        let _again = self.ended.remove(&(source, seq));
        match self.open.insert((source, seq), begun) {
            Ok(_) => Ok(()),
            Err(_) => Err(AllocError),
        }
    }

    // Notes that a transaction ends. A second end of the same one says nothing new.
    fn end(&mut self, value: &Value<'_>) -> Result<Option<Ended>, AllocError> {
        let Some(Transaction { source, seq }) = transaction_in(value) else {
            return Ok(None);
        };
        let key = (source, seq);
        if self.ended.contains_key(&key) {
            return Ok(None);
        }
        let begun = match self.open.remove(&key) {
            Some(begun) => begun,
            None => self.unseen(source)?,
        };
        if self.ended.insert(key, ()).is_err() {
            return Err(AllocError);
        }
        Ok(Some(ended_of(self.alloc, value, source, seq, begun)?))
    }

    // What is known of a transaction whose beginning isn't in the log.
    fn unseen(&self, source: u64) -> Result<Begun, AllocError> {
        let (way, peer) = match self.own {
            Some(own) if own == source => (Way::Sent, None),
            Some(_) => (Way::Received, Some(source)),
            None => (Way::Unknown, None),
        };
        Ok(Begun {
            at: None,
            way,
            peer,
            file: String::from_str(self.alloc, "?")?,
            to: String::from_str(self.alloc, "?")?,
            size: None,
        })
    }
}

fn ended_of(
    alloc: Global,
    value: &Value<'_>,
    source: u64,
    seq: u64,
    begun: Begun,
) -> Result<Ended, AllocError> {
    let at = String::from_str(alloc, text_in(value, member::AT).unwrap_or("?"))?;
    let user = String::from_str(alloc, text_in(value, member::USER).unwrap_or("?"))?;
    let mut how = String::new(alloc);
    push_end(&mut how, value)?;
    let moment = moment_in(value, member::AT);
    Ok(Ended {
        at,
        moment,
        took: span_of(begun.at, moment),
        way: begun.way,
        peer: begun.peer,
        user,
        source,
        seq,
        file: begun.file,
        to: begun.to,
        size: begun.size,
        end: end_in(value).unwrap_or(End::Lost),
        how,
    })
}

// The milliseconds from one moment to another; `None` if either isn't known, or if the second is earlier.
fn span_of(from: Option<u64>, to: Option<u64>) -> Option<u64> {
    to?.checked_sub(from?)
}

fn name_in(alloc: Global, value: &Value<'_>, name: &str) -> Result<String, AllocError> {
    let mut text = String::new(alloc);
    push_name(alloc, &mut text, value, name)?;
    Ok(text)
}
