//! All seats, each with its own lock.
ghost use Rattle.std.specs.Prelude.{◌≡◌};
ghost use Rattle.program_seats.specs.Seating.{is_spare_seat, is_watchers_seat};

use crate::asker::Asker;
use crate::outbox::Way;
use crate::seat::{Given, Seat};
use std::alloc::{AllocError, Global};
use std::os::unix::net::UnixStream;
use std::sync::atomic::{AtomicU64, AtomicUsize, Ordering};
use std::sync::{Condvar, CondvarTimeouts, Mutex, Wait};
use std::time::{Clock, Duration};

/// How many clients are served at once. One more gets the spare seat while all of these are taken.
pub const SEATS: usize = 16;

/// How many clients that only watch are served at once, besides those.
pub const WATCHERS: usize = 4;

/// How many places there are: the seats, a spare one, and those of clients that only watch.
pub const PLACES: usize = SEATS + 1 + WATCHERS;

/// How many octets may wait for one client.
pub const TEXT_OCTETS: usize = 8 * 1024 * 1024;

/// How many streams of events there are. A client that follows gets one of them. The caller decides which events each
/// stream has.
pub const STREAMS: usize = 4;

// A client that follows events is behind if more octets than this wait for it or are being written to it.
const BEHIND_OCTETS: u64 = 1024 * 1024;

/// How many milliseconds the clients have at the end to take what waits for them.
pub const LAST_MS: u64 = 200;

// A seat, and what wakes the threads that wait for a change of it.
#[derive(Drop)]
struct Place {
    seat: Mutex<Seat<TEXT_OCTETS>>,
    changed: Condvar,
    /// Which stream the client gets, if it follows events.
    stream: AtomicUsize,
}

/// The seats of clients. The thread that replies never waits for a client. Each change of a seat is made by a method of
/// `Seat`, under the seat's lock.
#[derive(Drop)]
pub struct Seats {
    places: Vec<Place>,
    dropped: AtomicU64,
}

impl Seats {
    /// `SEATS` free seats, a spare one, and `WATCHERS` for clients that only watch.
    pub fn new(alloc: Global) -> Result<Seats, AllocError> {
        let mut places = Vec::with_capacity(alloc, PLACES)?;
        for _ in 0..PLACES {
            let mut seat = Seat::new(alloc);
            seat.reserve()?;
            places.push(Place {
                seat: Mutex::new(seat),
                changed: Condvar::new(),
                stream: AtomicUsize::new(0),
            })?;
        }
        Ok(Seats {
            places,
            dropped: AtomicU64::new(0),
        })
    }

    /// How many clients were cut off because they didn't read.
    pub fn dropped(&self) -> u64 {
        self.dropped.load(Ordering::Relaxed)
    }

    /// How many seats are taken.
    pub fn taken<R: Wait>(&self, rt: &R) -> usize {
        let mut count = 0usize;
        for place in &self.places {
            if place.seat.lock(rt).is_taken() {
                count = count.saturating_add(1);
            }
        }
        count
    }

    fn note_dropped(&self) {
        let _before = self.dropped.fetch_add(1, Ordering::Relaxed);
    }

    /// Whether a client has the spare seat, so that it may give only one command.
    pub fn is_spare(asker: Asker) -> bool
        ensures { result ≡ is_spare_seat asker.seat }
    {
        asker.seat == SEATS
    }

    /// Whether a client has one of the seats for clients that only watch.
    pub fn is_watching(asker: Asker) -> bool
        ensures { result ≡ is_watchers_seat asker.seat }
    {
        is_watchers_seat(asker.seat)
    }

    /// Lets a client sit down, if a seat is free; the spare one comes last. The seat keeps a second handle of the
    /// stream. `None` also if that handle can't be made, or the seat's visit numbers are used up.
    pub fn sit<R: Wait>(&self, rt: &R, stream: &UnixStream) -> Option<Asker> {
        self.sit_among(rt, stream, false)
    }

    /// Lets a client that only watches sit down likewise, if one of the seats for such clients is free.
    pub fn sit_watching<R: Wait>(&self, rt: &R, stream: &UnixStream) -> Option<Asker> {
        self.sit_among(rt, stream, true)
    }

    // Lets a client sit down at a free seat: one for clients that only watch, or one of the others.
    fn sit_among<R: Wait>(&self, rt: &R, stream: &UnixStream, watches: bool) -> Option<Asker> {
        for (number, place) in self.places.iter().enumerate() {
            if is_watchers_seat(number) != watches {
                continue;
            }
            let mut seat = place.seat.lock(rt);
            if !seat.may_sit() {
                continue;
            }
            let other = stream.try_clone().ok()?;
            let visit = seat.sit(other)?;
            return Some(Asker {
                seat: number,
                visit,
            });
        }
        None
    }

    /// Frees the client's seat.
    pub fn leave<R: Wait>(&self, rt: &R, asker: Asker) {
        if let Some(place) = self.places.get(asker.seat) {
            let mut seat = place.seat.lock(rt);
            if seat.is_here(asker.visit) {
                seat.leave();
            }
            drop(seat);
            place.changed.notify_all();
        }
    }

    /// Notes that the client's command is about to be left at the desk. Returns false if the client has left or takes
    /// no more text.
    pub fn ask<R: Wait>(&self, rt: &R, asker: Asker) -> bool {
        match self.places.get(asker.seat) {
            Some(place) => {
                let mut seat = place.seat.lock(rt);
                seat.ask(asker.visit)
            }
            None => false,
        }
    }

    /// Waits until the client's command has its reply; returns whether more may be read from the client.
    pub fn wait_answer<R: Wait>(&self, rt: &R, asker: Asker) -> bool {
        let Some(place) = self.places.get(asker.seat) else {
            return false;
        };
        let mut seat = place.seat.lock(rt);
        for _ in rt.forever() {
            if !seat.is_here(asker.visit) || seat.way() != Way::Open {
                return false;
            }
            if !seat.is_asking() {
                return true;
            }
            seat = place.changed.wait(rt, seat);
        }
        false
    }

    // Wakes the thread that writes to a client, and counts a client that was cut off; returns whether the text was
    // taken.
    fn note_given(&self, place: &Place, given: Given) -> bool {
        match given {
            Given::Gone => return false,
            Given::Dropped => self.note_dropped(),
            Given::Taken => {}
        }
        place.changed.notify_all();
        given == Given::Taken
    }

    /// Replies to a client's command. Returns false if the client has left or takes no more text, or if it was cut off
    /// because there was no room or memory for the reply.
    pub fn answer<R: Wait>(&self, rt: &R, asker: Asker, text: &[u8]) -> bool {
        match self.places.get(asker.seat) {
            Some(place) => {
                let given = place.seat.lock(rt).answer(asker.visit, text);
                self.note_given(place, given)
            }
            None => false,
        }
    }

    /// Sends a stream of events to the client, too, from now on, in place of another that it followed.
    pub fn follow<R: Wait>(&self, rt: &R, asker: Asker, stream: usize) {
        if let Some(place) = self.places.get(asker.seat) {
            let mut seat = place.seat.lock(rt);
            if seat.is_here(asker.visit) {
                seat.follow(asker.visit);
                place.stream.store(stream, Ordering::SeqCst);
            }
        }
    }

    /// Which streams any client follows.
    pub fn followed<R: Wait>(&self, rt: &R) -> [bool; STREAMS] {
        let mut followed = [false; STREAMS];
        for place in &self.places {
            let seat = place.seat.lock(rt);
            let stream = place.stream.load(Ordering::SeqCst);
            if seat.follows() && stream < STREAMS {
                followed[stream] = true;
            }
        }
        followed
    }

    /// Sends a text, of whole lines, to all clients that follow a stream. A client without room for it is cut off.
    pub fn tell<R: Wait>(&self, rt: &R, stream: usize, text: &[u8]) {
        for place in &self.places {
            let mut seat = place.seat.lock(rt);
            if place.stream.load(Ordering::SeqCst) != stream {
                continue;
            }
            let given = seat.tell(text);
            drop(seat);
            let _is_taken = self.note_given(place, given);
        }
    }

    /// Sends a text, of whole lines, to one client, besides its replies. A client without room for it is cut off.
    pub fn send<R: Wait>(&self, rt: &R, asker: Asker, text: &[u8]) {
        if let Some(place) = self.places.get(asker.seat) {
            let given = place.seat.lock(rt).send(asker.visit, text);
            let _is_taken = self.note_given(place, given);
        }
    }

    /// Whether no text waits for a client; some may still be being written to it. `None` if it has left or takes no more.
    pub fn has_taken<R: Wait>(&self, rt: &R, asker: Asker) -> Option<bool> {
        let seat = self.places.get(asker.seat)?.seat.lock(rt);
        if seat.is_here(asker.visit) && seat.way() == Way::Open {
            Some(!seat.has_text())
        } else {
            None
        }
    }

    /// Waits for text to send, and moves it into `texts` in place of its content. Returns false if no more will come.
    pub fn take<R: Wait>(&self, rt: &R, asker: Asker, texts: &mut Vec<u8>) -> bool {
        let Some(place) = self.places.get(asker.seat) else {
            return false;
        };
        let mut seat = place.seat.lock(rt);
        for _ in rt.forever() {
            if !seat.is_here(asker.visit) || seat.way() == Way::Cut {
                return false;
            }
            if seat.has_text() {
                seat.take(texts);
                return true;
            }
            if seat.way() == Way::Ending {
                return false;
            }
            seat = place.changed.wait(rt, seat);
        }
        false
    }

    /// Notes that so many octets were written to the client.
    pub fn note_written<R: Wait>(&self, rt: &R, asker: Asker, octets: usize) {
        if let Some(place) = self.places.get(asker.seat) {
            let mut seat = place.seat.lock(rt);
            seat.note_written(asker.visit, octets as u64);
        }
    }

    /// How many octets were written so far to the clients of a seat, if the client there follows events and lacks more
    /// than `BEHIND_OCTETS`.
    pub fn written_if_behind<R: Wait>(&self, rt: &R, seat: usize) -> Option<u64> {
        let seat = self.places.get(seat)?.seat.lock(rt);
        if seat.behind() > BEHIND_OCTETS {
            Some(seat.written())
        } else {
            None
        }
    }

    /// Reads no more from the client; what waits for it is still sent.
    pub fn end<R: Wait>(&self, rt: &R, asker: Asker) {
        if let Some(place) = self.places.get(asker.seat) {
            let mut seat = place.seat.lock(rt);
            if seat.is_here(asker.visit) {
                seat.end();
            }
            drop(seat);
            place.changed.notify_all();
        }
    }

    /// Cuts off a client that can't be written to.
    pub fn cut<R: Wait>(&self, rt: &R, asker: Asker) {
        if let Some(place) = self.places.get(asker.seat) {
            let mut seat = place.seat.lock(rt);
            if seat.is_here(asker.visit) {
                seat.cut();
            }
            drop(seat);
            place.changed.notify_all();
        }
    }

    /// Whether nobody may sit down any more.
    pub fn is_closed<R: Wait>(&self, rt: &R) -> bool {
        for place in &self.places {
            if !place.seat.lock(rt).is_closed() {
                return false;
            }
        }
        true
    }

    /// Lets nobody sit down any more, and reads no more from the clients. What waits for them is still sent, until
    /// `finish` cuts them off.
    pub fn close<R: Wait>(&self, rt: &R) {
        for place in &self.places {
            place.seat.lock(rt).close();
            place.changed.notify_all();
        }
    }

    /// Gives the clients `LAST_MS` to take what waits for them, and then cuts them off. All streams are then shut down.
    pub fn finish<R: Wait + Clock>(&self, rt: &R) {
        let begun = rt.monotonic().unwrap_or(Duration::ZERO);
        let end = begun.saturating_add(Duration::from_millis(LAST_MS));
        for place in &self.places {
            let mut seat = place.seat.lock(rt);
            for _ in rt.forever() {
                let now = rt.monotonic().unwrap_or(Duration::MAX);
                if !seat.is_taken() || now >= end {
                    break;
                }
                let (again, _) = place
                    .changed
                    .wait_timeout(rt, seat, end.saturating_sub(now));
                seat = again;
            }
            seat.cut();
            drop(seat);
            place.changed.notify_all();
        }
    }
}

// Whether a seat is for a client that only watches.
fn is_watchers_seat(seat: usize) -> bool
    ensures { result ≡ is_watchers_seat seat }
{
    seat > SEATS
}
