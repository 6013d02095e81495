//! Which transactions are recorded: those that failed, or all of them, in a folder, and any one for whoever asks.
ghost use Rattle.std.specs.Prelude.{◌≡◌};
ghost use Rattle.server_recording.specs.Waiting.{has_room, is_over};

use cfdp_types::{Delivery as Delivered, FileStatus, TxnKey};
use entity_config::Config;
use entity_routing::{Place, place_of_key};
use indications::{Bundle, Indication};
use pdu_values::Body;
use program_desk::moment;
use program_recorder::{Recording, Seen, Sightings, piece_length};
use program_seats::Asker;
use shared_entity::Entity;
use shared_lanes::Names;
use station_config::RecordSettings;
use station_lines::Moment;
use station_names::kind::RECORDER;
use station_names::member::{FAILED, KEPT, KIND, MISSED};
use std::alloc::{AllocError, Global};
use std::collections::VecDeque;
use std::mem;
use std::sync::atomic::{AtomicU64, Ordering};
use std::sync::{Condvar, CondvarTimeouts, Mutex, Wait};
use std::time::{Clock, Duration};
use txn_events::{Event, What};

// How many transactions may wait to be recorded, and how many octets their events may take up: somewhat more than those
// of two of the largest files. One may always wait.
const WAITING: usize = 256;

const WAITING_OCTETS: u64 = 48 * 1_024 * 1_024;

// How many octets an event takes up beside those of its file.
const EVENT_OCTETS: u64 = 120;

// For how long at the end transactions that wait are still recorded, in milliseconds.
const END_MS: u64 = 2_000;

// How long to wait before a client's text is looked at again, in milliseconds, and how long a client may take no text
// at all.
const LOOK_MS: u64 = 2;

pub(crate) const PATIENCE_MS: u64 = 10_000;

/// The line in the place of a recording that can't be made.
pub(crate) const NO_SCRIPT: &str = "refused NoScript\n";

/// Whom a recording is for.
#[derive(Clone, Copy, Debug, PartialEq, Eq)]
pub(crate) enum Reader {
    Folder,
    Client(Asker),
    /// The standard output; each recording for it has a number.
    Output(u64),
}

/// A transaction to be recorded.
#[derive(Drop)]
pub(crate) struct Job {
    pub(crate) reader: Reader,
    pub(crate) key: TxnKey,
    pub(crate) place: Place,
    pub(crate) seen: Seen,
    pub(crate) journal: Vec<Event>,
    /// How many octets the journal takes up.
    pub(crate) octets: u64,
}

/// What waits between the threads.
#[derive(Drop)]
struct Tray {
    jobs: VecDeque<Job>,
    /// How many octets the journals of those that wait take up.
    octets: u64,
    /// What is to be printed, once it is made, and the number of the wanted recording.
    printed: Option<Printed>,
    wanted: u64,
    /// Up to which moment by the runtime's clock those that wait are still recorded, once the book is closed.
    until: Option<u64>,
}

// A recording that is printed, or the line in its place; and how much of its script was printed.
#[derive(Drop)]
struct Printed {
    recording: Recording,
    at: usize,
}

/// What the main thread leaves for the one that records, and which transactions are recorded.
#[derive(Drop)]
pub struct Book {
    tray: Mutex<Tray>,
    came: Condvar,
    /// Whether transactions are recorded in a folder, and whether all of them.
    records: bool,
    records_all: bool,
    pub(crate) kept: AtomicU64,
    missed: AtomicU64,
    pub(crate) failed: AtomicU64,
}

impl Book {
    /// Nothing is to be recorded so far; the settings say which transactions are.
    pub fn new(alloc: Global, settings: &RecordSettings) -> Result<Book, AllocError> {
        Ok(Book {
            tray: Mutex::new(Tray {
                jobs: VecDeque::with_capacity(alloc, WAITING)?,
                octets: 0,
                printed: None,
                wanted: 0,
                until: None,
            }),
            came: Condvar::new(),
            records: settings.folder.is_some(),
            records_all: settings.all,
            kept: AtomicU64::new(0),
            missed: AtomicU64::new(0),
            failed: AtomicU64::new(0),
        })
    }

    /// Whether transactions are recorded in a folder.
    pub fn records(&self) -> bool {
        self.records
    }

    // Whether a transaction that this indication ended is recorded.
    fn wants(&self, end: &Indication) -> bool {
        self.records && (self.records_all || !is_kept_whole(end))
    }

    // Leaves a transaction to be recorded, unless too many wait. Returns whether it did.
    fn leave<R: Wait>(&self, rt: &R, job: Job) -> bool {
        let mut tray = self.tray.lock(rt);
        let octets = tray.octets.saturating_add(job.octets);
        let is_left = has_room(tray.jobs.len(), octets) && tray.jobs.push_back(job).is_ok();
        if is_left {
            tray.octets = octets;
        }
        drop(tray);
        self.came.notify_one();
        is_left
    }

    /// The next transaction to be recorded. If `is_busy`, it waits for a moment only.
    pub(crate) fn next<R: Wait + Clock>(&self, rt: &R, is_busy: bool) -> Found {
        let mut tray = self.tray.lock(rt);
        for _ in rt.forever() {
            if is_over(tray.until, moment(rt)) {
                let _missed = self
                    .missed
                    .fetch_add(tray.jobs.len() as u64, Ordering::Relaxed);
                return Found::End;
            }
            if let Some(job) = tray.jobs.pop_front() {
                tray.octets = tray.octets.saturating_sub(job.octets);
                return Found::Job(job);
            }
            if tray.until.is_some() {
                return Found::End;
            }
            if is_busy {
                let length = Duration::from_millis(LOOK_MS);
                let (_tray, _) = self.came.wait_timeout(rt, tray, length);
                return Found::Nothing;
            }
            tray = self.came.wait(rt, tray);
        }
        Found::End
    }

    /// Closes the book: only what already waits is still recorded, and for two seconds at most.
    pub fn close<R: Wait + Clock>(&self, rt: &R) {
        self.tray.lock(rt).until = Some(moment(rt).saturating_add(END_MS));
        self.came.notify_all();
    }

    // The number of the recording that is to be printed next; none of an earlier number is.
    fn next_printed<R: Wait>(&self, rt: &R) -> u64 {
        let mut tray = self.tray.lock(rt);
        tray.wanted = tray.wanted.saturating_add(1);
        tray.printed = None;
        tray.wanted
    }

    /// Leaves what is to be printed, if it is still wanted.
    pub(crate) fn leave_printed<R: Wait>(&self, rt: &R, number: u64, recording: Recording) {
        let mut tray = self.tray.lock(rt);
        if tray.wanted == number {
            tray.printed = Some(Printed { recording, at: 0 });
        }
    }

    // Adds the next piece of what is printed to `text`. Returns whether it is there, and whether it is the last one.
    fn take_printed<R: Wait>(&self, rt: &R, text: &mut String) -> Result<Piece, AllocError> {
        let mut tray = self.tray.lock(rt);
        let Some(printed) = &mut tray.printed else {
            return Ok(Piece::Awaited);
        };
        if printed.at == 0 {
            text.push_str(printed.recording.heading.as_str())?;
        }
        let script = printed.recording.script.as_str();
        let rest = script.get(printed.at..).unwrap_or("");
        let count = piece_length(rest.as_bytes());
        text.push_str(rest.get(..count).unwrap_or(""))?;
        printed.at = printed.at.saturating_add(count);
        if count < rest.len() {
            return Ok(Piece::Part);
        }
        tray.printed = None;
        Ok(Piece::Last)
    }

    /// Adds the line of a status that says how many recordings were kept, how many transactions were gone before they
    /// could be recorded, and how many recordings couldn't be made or written.
    pub fn push_status(&self, text: &mut String) -> Result<(), AllocError> {
        if !self.records {
            return Ok(());
        }
        let kept = self.kept.load(Ordering::Relaxed);
        let missed = self.missed.load(Ordering::Relaxed);
        let failed = self.failed.load(Ordering::Relaxed);
        writeln!(
            text,
            "{{\"{KIND}\":\"{RECORDER}\",\"{KEPT}\":{kept},\"{MISSED}\":{missed},\"{FAILED}\":{failed}}}"
        )
    }
}

// Whether one more transaction may wait, with which there are so many octets.
fn has_room(waiting: usize, octets: u64) -> bool
    ensures { result ≡ has_room waiting octets }
{
    waiting == 0 || (waiting < WAITING && octets <= WAITING_OCTETS)
}

// Whether the moment up to which transactions are recorded has passed.
fn is_over(until: Option<u64>, now: u64) -> bool
    ensures { result ≡ is_over until now }
{
    match until {
        Some(until) => until <= now,
        None => false,
    }
}

// How many octets an event takes up.
fn octets_of(event: &Event) -> u64 {
    let file = match event {
        Event::Put(request, _) => request.file().as_slice().len(),
        Event::On(_, What::Pdu(pdu)) => match pdu.body() {
            Body::FileData(part) => part.octets.as_slice().len(),
            _ => 0,
        },
        Event::On(..) => 0,
    };
    (file as u64).saturating_add(EVENT_OCTETS)
}

/// Counts one more.
pub(crate) fn count(counter: &AtomicU64) {
    let _before = counter.fetch_add(1, Ordering::Relaxed);
}

/// What the thread that records finds.
#[derive(Drop)]
pub(crate) enum Found {
    Job(Job),
    Nothing,
    End,
}

// A piece of what is printed.
#[derive(Clone, Copy, Debug, PartialEq, Eq)]
enum Piece {
    Awaited,
    Part,
    Last,
}

// Whether an indication says that the file is complete and retained.
fn is_kept_whole(end: &Indication) -> bool {
    matches!(
        end,
        Indication::TransactionFinished {
            delivery: Delivered::Complete,
            status: FileStatus::Retained,
            ..
        }
    )
}

/// What the main thread has seen of transactions, and which ones it has to record.
#[derive(Drop)]
pub struct Watched<'a> {
    pub book: &'a Book,
    sightings: Sightings,
    ended: Vec<Ended>,
    /// Transactions that were opened and abandoned to use up their numbers, and whose ends weren't seen yet. None is
    /// recorded.
    skipped: Vec<TxnKey>,
    /// Up to which moment by the runtime's clock a recording is to be printed before any other reply, if one is.
    awaits: Option<u64>,
}

// A transaction that has ended.
#[derive(Clone, Copy, Debug)]
struct Ended {
    place: Place,
    key: TxnKey,
}

impl<'a> Watched<'a> {
    /// Nothing was seen so far.
    pub fn new(alloc: Global, config: &Config, book: &'a Book) -> Result<Watched<'a>, AllocError> {
        Ok(Watched {
            book,
            sightings: Sightings::new(alloc, config)?,
            ended: Vec::new(alloc),
            skipped: Vec::new(alloc),
            awaits: None,
        })
    }

    /// Notes a bundle that came at a moment.
    pub fn note(&mut self, bundle: &Bundle, at: Moment) {
        self.sightings.note(bundle, at);
        if let Some(end) = bundle.inds.as_slice().last()
            && end.is_end()
            && !self.was_skipped(bundle.key)
            && self.book.wants(end)
        {
            let ended = Ended {
                place: Place {
                    user: bundle.user,
                    lane: bundle.lane,
                },
                key: bundle.key,
            };
            if self.ended.push(ended).is_err() {
                count(&self.book.missed);
            }
        }
    }

    /// Notes that a transaction was opened to use up its number, so it isn't recorded. If memory runs out, it is.
    pub fn skip(&mut self, key: TxnKey) {
        if self.book.records() {
            let _has_memory = self.skipped.push(key);
        }
    }

    // Whether a transaction that has ended was opened to use up its number.
    fn was_skipped(&mut self, key: TxnKey) -> bool {
        let before = self.skipped.len();
        self.skipped.retain(|skipped| *skipped != key);
        self.skipped.len() < before
    }
    /// Leaves the transactions that have ended to be recorded.
    pub fn record_ended<N: Names, R: Wait + Copy>(
        &mut self,
        rt: &R,
        alloc: Global,
        entity: &Entity<N, R>,
    ) {
        if self.ended.is_empty() {
            return;
        }
        let none = Vec::new(alloc);
        let ended = mem::replace(&mut self.ended, none);
        for one in &ended {
            if !self.leave(rt, entity, Reader::Folder, one.place, one.key) {
                count(&self.book.missed);
            }
        }
    }

    // Leaves a transaction of a lane to be recorded, if its journal is there.
    fn leave<N: Names, R: Wait + Copy>(
        &self,
        rt: &R,
        entity: &Entity<N, R>,
        reader: Reader,
        place: Place,
        key: TxnKey,
    ) -> bool {
        let Ok(seen) = self.sightings.of(place.user, place.lane, key) else {
            return false;
        };
        let Ok(journal) = entity.journal(rt, key) else {
            return false;
        };
        let octets = journal
            .iter()
            .fold(0u64, |sum, event| sum.saturating_add(octets_of(event)));
        let job = Job {
            reader,
            key,
            place,
            seen,
            journal,
            octets,
        };
        self.book.leave(rt, job)
    }

    /// Leaves a transaction to be recorded for whoever asks, and returns whether it did. If nobody at a control socket
    /// asks, the recording is printed.
    pub fn record_for<N: Names, R: Wait + Clock + Copy>(
        &mut self,
        rt: &R,
        entity: &Entity<N, R>,
        key: TxnKey,
        asker: Option<Asker>,
    ) -> bool {
        let reader = match asker {
            Some(asker) => Reader::Client(asker),
            None => Reader::Output(self.book.next_printed(rt)),
        };
        let is_left = match place_of_key(entity.config(), key) {
            Ok(place) => self.leave(rt, entity, reader, place, key),
            Err(_) => false,
        };
        if is_left && asker.is_none() {
            self.awaits = Some(moment(rt).saturating_add(PATIENCE_MS));
        }
        is_left
    }

    /// Whether a recording is to be printed before any other reply; adds its next piece, once that is there. One that
    /// isn't made within ten seconds is refused.
    pub fn print_recording<R: Wait + Clock>(
        &mut self,
        rt: &R,
        text: &mut String,
    ) -> Result<bool, AllocError> {
        let Some(until) = self.awaits else {
            return Ok(false);
        };
        match self.book.take_printed(rt, text)? {
            Piece::Part => self.awaits = Some(u64::MAX),
            Piece::Last => self.awaits = None,
            Piece::Awaited if moment(rt) < until => {}
            Piece::Awaited => {
                self.awaits = None;
                let _number = self.book.next_printed(rt);
                text.push_str(NO_SCRIPT)?;
            }
        }
        Ok(true)
    }
}
