//! The thread that records transactions beside the main thread, as they are left for it.
use crate::files::ServerFiles;
use crate::recording::{Book, Found, Job, NO_SCRIPT, PATIENCE_MS, Reader, count};
use cfdp_types::{EntityId, TxnKey};
use entity_config::Config;
use journal_recording::ScriptFault;
use program_desk::{Desk, moment};
use program_recorder::{Facts, Keeper, Recording, first_of, piece_length, recording_of};
use program_seats::{Asker, Seats};
use release::versioned;
use server_answers::push_no_memory;
use station_config::{RecordSettings, read_entity};
use std::alloc::{AllocError, Global};
use std::sync::Wait;
use std::time::Clock;
use txn_events::Event;

/// What a recorder works with: its entity's configuration, the text that has it, the book in which it finds what to
/// record, and the desk and the seats that it delivers to.
#[derive(Clone, Copy)]
pub struct Ties<'x> {
    pub config: &'x Config,
    /// The text of the file that the configuration was read from.
    pub text: &'x str,
    pub book: &'x Book,
    pub desk: &'x Desk,
    pub seats: Option<&'x Seats>,
}

/// The thread that records.
#[derive(Drop)]
pub struct Recorder<'x, R, F> {
    rt: &'x R,
    alloc: Global,
    files: &'x F,
    config: &'x Config,
    text: &'x str,
    book: &'x Book,
    desk: &'x Desk,
    seats: Option<&'x Seats>,
    keeper: Option<Keeper>,
    /// What is on its way to clients.
    deliveries: Vec<Delivery>,
}

// A recording on its way to a client, how much of its script was sent, and since when the client took nothing.
#[derive(Drop)]
struct Delivery {
    asker: Asker,
    recording: Recording,
    at: usize,
    has_begun: bool,
    since: u64,
}

// How a delivery stands.
#[derive(Clone, Copy, Debug, PartialEq, Eq)]
enum Way {
    GoesOn,
    Over,
}

impl<'x, R, F> Recorder<'x, R, F> {
    /// A recorder that has nothing to do so far, and keeps scripts as the settings say.
    pub fn new(
        rt: &'x R,
        alloc: Global,
        files: &'x F,
        settings: &RecordSettings,
        ties: Ties<'x>,
    ) -> Result<Recorder<'x, R, F>, AllocError> {
        let keeper = match &settings.folder {
            Some(folder) => Some(Keeper::new(
                String::from_str(alloc, folder.as_str())?,
                usize::try_from(settings.most).unwrap_or(usize::MAX),
            )),
            None => None,
        };
        Ok(Recorder {
            rt,
            alloc,
            files,
            config: ties.config,
            text: ties.text,
            book: ties.book,
            desk: ties.desk,
            seats: ties.seats,
            keeper,
            deliveries: Vec::new(alloc),
        })
    }
}

impl<'x, R: Wait + Clock, F: ServerFiles> Recorder<'x, R, F> {
    /// Records what the main thread leaves, until the book is closed.
    pub fn run(self) {
        let mut recorder = self;
        let rt = recorder.rt;
        for _ in rt.forever() {
            match recorder.book.next(rt, !recorder.deliveries.is_empty()) {
                Found::Job(job) => recorder.record(&job),
                Found::Nothing => {}
                Found::End => return,
            }
            recorder.deliver();
        }
    }

    // Records a transaction.
    fn record(&mut self, job: &Job) {
        let recorded = self.recording(job);
        match job.reader {
            Reader::Folder => self.keep(job.key, recorded),
            Reader::Client(asker) => self.begin(asker, recorded),
            Reader::Output(number) => {
                let recording = shown(self.alloc, recorded);
                self.book.leave_printed(self.rt, number, recording);
                self.desk.wake(self.rt);
            }
        }
    }

    // The recording of a transaction.
    fn recording(&self, job: &Job) -> Result<Recording, ScriptFault> {
        let Ok(config) = read_entity(self.alloc, self.text) else {
            return Err(ScriptFault::NoMemory);
        };
        let user = self.config.name_of(job.place.user).unwrap_or("");
        let local = self.config.entity().local;
        let facts = Facts {
            program: PROGRAM,
            entity: local,
            key: job.key,
            user,
            sends: job.key.source == local,
            peer: peer_of(job),
            begun: job.seen.begun,
            last: job.seen.last,
            end: job
                .seen
                .end_bundle(self.alloc, job.place.user, job.place.lane)?,
        };
        let first = first_of(self.config, job.key);
        recording_of(
            self.alloc,
            config,
            first,
            job.place,
            &facts,
            job.journal.as_slice(),
        )
    }

    // Keeps a recording in the folder, and counts it.
    fn keep(&mut self, key: TxnKey, recorded: Result<Recording, ScriptFault>) {
        let (Some(keeper), Ok(recording)) = (&mut self.keeper, recorded) else {
            count(&self.book.failed);
            return;
        };
        match self.files.keep(keeper, key, &recording) {
            Ok(()) => count(&self.book.kept),
            Err(_) => count(&self.book.failed),
        }
    }

    // Begins to send a recording to a client.
    fn begin(&mut self, asker: Asker, recorded: Result<Recording, ScriptFault>) {
        let delivery = Delivery {
            asker,
            recording: shown(self.alloc, recorded),
            at: 0,
            has_begun: false,
            since: moment(self.rt),
        };
        if self.deliveries.push(delivery).is_err()
            && let Some(seats) = self.seats
        {
            seats.cut(self.rt, asker);
        }
    }

    // Sends its next piece to each client for which no text waits.
    fn deliver(&mut self) {
        let Some(seats) = self.seats else {
            return;
        };
        let now = moment(self.rt);
        let rt = self.rt;
        self.deliveries
            .retain_mut(|delivery| delivery.go_on(rt, seats, now) == Way::GoesOn);
    }
}

impl Delivery {
    // Sends the next piece, if no text waits for the client.
    fn go_on<R: Wait>(&mut self, rt: &R, seats: &Seats, now: u64) -> Way {
        match seats.has_taken(rt, self.asker) {
            None => return Way::Over,
            Some(false) if now.saturating_sub(self.since) >= PATIENCE_MS => {
                seats.cut(rt, self.asker);
                return Way::Over;
            }
            Some(false) => return Way::GoesOn,
            Some(true) => self.since = now,
        }
        let asker = self.asker;
        if !self.has_begun {
            self.has_begun = true;
            seats.send(rt, asker, self.recording.heading.as_bytes());
        }
        let count = send_piece(rt, seats, asker, self.recording.script.as_bytes(), self.at);
        self.at = self.at.saturating_add(count);
        if self.at < self.recording.script.len() {
            return Way::GoesOn;
        }
        let _is_there = seats.answer(rt, asker, b".\n".as_slice());
        Way::Over
    }
}

// Sends the next piece of a script, from a place on; returns how many octets it has.
fn send_piece<R: Wait>(rt: &R, seats: &Seats, asker: Asker, script: &[u8], at: usize) -> usize {
    let rest = script.get(at..).unwrap_or(&[]);
    let count = piece_length(rest);
    let piece = rest.get(..count).unwrap_or(&[]);
    seats.send(rt, asker, piece);
    count
}

// The name and the version that recordings bear.
const PROGRAM: &str = versioned!("cfdp_server ", "");

// The entity at the other end of a transaction.
fn peer_of(job: &Job) -> EntityId {
    match job.journal.first() {
        Some(Event::Put(put, _)) => put.destination(),
        _ => job.key.source,
    }
}

// A recording as it is shown, or the line for why there is none.
fn shown(alloc: Global, recorded: Result<Recording, ScriptFault>) -> Recording {
    match recorded {
        Ok(recording) => recording,
        Err(fault) => Recording {
            heading: refusal_of(alloc, fault),
            script: String::new(alloc),
        },
    }
}

// The line that says why there is no recording; empty if memory runs out.
fn refusal_of(alloc: Global, fault: ScriptFault) -> String {
    let mut text = String::new(alloc);
    let pushed = match fault {
        ScriptFault::NoMemory => push_no_memory(&mut text),
        ScriptFault::NotPlain | ScriptFault::NotPlayed => text.push_str(NO_SCRIPT),
    };
    if pushed.is_err() {
        text.clear();
    }
    text
}
