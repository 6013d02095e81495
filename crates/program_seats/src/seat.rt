//! The state of one seat.
ghost use Rattle.std.specs.Prelude.{◌≡◌, ◌↔◌, ◌⊎◌, [], IfSome, IfNone, IsFalse, false, true};
ghost use Rattle.program_seats.specs.Seating.{IsAnswered, IsSent, IsSentTo, IsTold, after_writing, asked, behind, closing, cut, followed, free_seat, is_here, left, may_sit, sat, taken};

use crate::outbox::{Outbox, Way};
use std::alloc::{AllocError, Global};
use std::marker::Model;
use std::net::Shutdown;
use std::os::unix::net::UnixStream;

/// What became of a text for a client.
#[derive(Clone, Copy, Debug, PartialEq, Eq)]
pub enum Given {
    /// It waits to be sent.
    Taken,
    /// There was no room or no memory for it, and the client was cut off.
    Dropped,
    /// The client has left, takes no more text, or doesn't follow events. Nothing happened.
    Gone,
}

/// The state of one seat, under its lock. Contracts see all but the stream itself.
#[derive(Drop)]
pub struct Seat<const ROOM: usize> {
    /// How many clients have sat here.
    visits: u64,
    /// The client's stream, while a client sits here.
    stream: Option<UnixStream>,
    /// Whether events are sent to the client, too.
    follows: bool,
    /// Whether a command of the client awaits its reply.
    is_asking: bool,
    /// Whether nobody may sit down any more.
    is_closed: bool,
    outbox: Outbox<ROOM>,
    /// How many of the octets that were taken for the client aren't written yet.
    under_way: u64,
    /// How many octets were written to the clients of the seat.
    written: u64,
}

impl<const ROOM: usize> Model for Seat<ROOM> {
    ghost use Rattle.std.specs.Prelude.{is_some};
    ghost use Rattle.program_seats.specs.Seating.{SeatValue};

    ghost Value = { SeatValue };

    ghost view = { λ s. record {
      visits = s.visits;
      is_taken = is_some s.stream;
      follows = s.follows;
      is_asking = s.is_asking;
      is_closed = s.is_closed;
      outbox = s.outbox;
      under_way = s.under_way;
      written = s.written;
    } };
}

impl<const ROOM: usize> Seat<ROOM> {
    /// A free seat that nobody has used.
    pub fn new(alloc: Global) -> Seat<ROOM>
        ensures { result ≡ free_seat }
    {
        Seat {
            visits: 0,
            stream: None,
            follows: false,
            is_asking: false,
            is_closed: false,
            outbox: Outbox::new(alloc),
            under_way: 0,
            written: 0,
        }
    }

    /// Reserves memory for a short text.
    pub fn reserve(&mut self) -> Result<(), AllocError>
        ensures { self.new ≡ self.old }
    {
        self.outbox.reserve()
    }

    /// How many octets a client that follows events hasn't got: those being written to it, and unless it is leaving,
    /// those that wait for it. 0 for a client that doesn't follow, or is cut off.
    pub fn behind(&self) -> u64
        ensures { result ≡ behind self.now }
    {
        if !self.follows {
            return 0;
        }
        if self.outbox.way() == Way::Open {
            self.under_way.saturating_add(self.outbox.waiting() as u64)
        } else {
            self.under_way
        }
    }

    /// How many octets were written to the clients of the seat.
    pub fn written(&self) -> u64
        ensures { result ≡ self.now.written }
    {
        self.written
    }

    /// Whether a client sits here.
    pub fn is_taken(&self) -> bool
        ensures { result ≡ self.now.is_taken }
    {
        self.stream.is_some()
    }

    /// Whether events are sent to the client, too.
    pub fn follows(&self) -> bool
        ensures { result ≡ self.now.follows }
    {
        self.follows
    }

    /// Whether a command of the client awaits its reply.
    pub fn is_asking(&self) -> bool
        ensures { result ≡ self.now.is_asking }
    {
        self.is_asking
    }

    /// Whether nobody may sit down any more.
    pub fn is_closed(&self) -> bool
        ensures { result ≡ self.now.is_closed }
    {
        self.is_closed
    }

    /// Whether text can still be sent to the client.
    pub fn way(&self) -> Way
        ensures { result ≡ self.now.outbox.way }
    {
        self.outbox.way()
    }

    /// Whether this visit's client still sits here.
    pub fn is_here(&self, visit: u64) -> bool
        ensures { result ≡ is_here visit self.now }
    {
        self.stream.is_some() && self.visits == visit
    }

    /// Whether a client may sit down.
    pub fn may_sit(&self) -> bool
        ensures { result ≡ may_sit self.now }
    {
        !(self.is_closed || self.stream.is_some())
    }

    /// Lets a client sit down, with nothing left of the one before. Returns the visit's number, or `None` if the seat
    /// is taken or closed, or the visit numbers are used up.
    pub fn sit(&mut self, stream: UnixStream) -> Option<u64>
        ensures number { IfSome result (λ visit. visit ≡ self.new.visits) }
        ensures was_free { IfSome result (λ _. may_sit self.old ≡ true) }
        ensures seated { IfSome result (λ _. self.new ≡ sat self.old) }
        ensures none { IfNone result (self.new ≡ self.old) }
        ensures why { IfNone result ((may_sit self.old ≡ false) ⊎ (self.old.visits ≡ 18446744073709551615)) }
    {
        if !self.may_sit() {
            return None;
        }
        self.visits = self.visits.checked_add(1)?;
        self.stream = Some(stream);
        self.follows = false;
        self.is_asking = false;
        self.outbox.reopen();
        self.under_way = 0;
        Some(self.visits)
    }

    /// Notes that a visit's command will await its reply. Returns false if the client has left or takes no more text.
    pub fn ask(&mut self, visit: u64) -> bool
        ensures { asked visit self.old result self.new }
    {
        if !self.is_here(visit) || self.outbox.way() != Way::Open {
            return false;
        }
        self.is_asking = true;
        true
    }

    /// Replies to a visit's command; the client may then ask again. A reply after the visit changes nothing.
    pub fn answer(&mut self, visit: u64, text: &[u8]) -> Given
        ensures { IsAnswered ROOM text.now visit self.old result self.new }
    {
        if !self.is_here(visit) {
            return Given::Gone;
        }
        self.is_asking = false;
        self.put(text)
    }

    /// Sends a text to a visit, besides its replies.
    pub fn send(&mut self, visit: u64, text: &[u8]) -> Given
        ensures { IsSentTo ROOM text.now visit self.old result self.new }
    {
        if !self.is_here(visit) {
            return Given::Gone;
        }
        self.put(text)
    }

    /// Sends a text to the client if it follows events.
    pub fn tell(&mut self, text: &[u8]) -> Given
        ensures { IsTold ROOM text.now self.old result self.new }
    {
        if !self.follows {
            return Given::Gone;
        }
        self.put(text)
    }

    // Appends a text to what waits. A client without room for it is cut off.
    fn put(&mut self, text: &[u8]) -> Given
        ensures { IsSent ROOM text.now self.old result self.new }
    {
        if self.outbox.way() != Way::Open {
            return Given::Gone;
        }
        if self.outbox.put(text) {
            return Given::Taken;
        }
        self.cut();
        Given::Dropped
    }

    /// Sends events to the client, too, from now on, if the visit lasts.
    pub fn follow(&mut self, visit: u64)
        ensures { self.new ≡ followed visit self.old }
    {
        if self.is_here(visit) {
            self.follows = true;
        }
    }

    /// Moves what waits into `texts`, in place of its content, to be written. What was taken before is no longer under
    /// way.
    pub fn take(&mut self, texts: &mut Vec<u8>)
        ensures given { texts.new.items ≡ self.old.outbox.waiting }
        ensures rest { self.new ≡ taken self.old }
    {
        self.outbox.take(texts);
        self.under_way = texts.len() as u64;
    }

    /// Notes that so many of the octets that were taken for a visit are written.
    pub fn note_written(&mut self, visit: u64, octets: u64)
        ensures { self.new ≡ after_writing visit octets self.old }
    {
        if self.is_here(visit) {
            self.under_way = self.under_way.saturating_sub(octets);
            self.written = self.written.saturating_add(octets);
        }
    }

    /// Whether something waits to be sent.
    pub fn has_text(&self) -> bool
        ensures { IsFalse result ↔ (self.now.outbox.waiting ≡ []) }
    {
        !self.outbox.is_empty()
    }

    /// Cuts the client off: nothing more is sent to it or read from it.
    pub fn cut(&mut self)
        ensures { self.new ≡ cut self.old }
    {
        self.outbox.cut();
        self.is_asking = false;
        self.under_way = 0;
        self.shut(Shutdown::Both);
    }

    /// Reads no more from the client; what waits is still sent.
    pub fn end(&mut self)
        ensures { self.new ≡ closing self.old }
    {
        self.outbox.end();
        self.is_asking = false;
    }

    /// Closes the seat: nobody may sit down any more, no more is read from the client, and what waits is still sent.
    pub fn close(&mut self)
        ensures { self.new ≡ record (closing self.old) { is_closed = true } }
    {
        self.is_closed = true;
        self.end();
        self.shut(Shutdown::Read);
    }

    fn shut(&self, how: Shutdown) {
        if let Some(stream) = &self.stream {
            let _as_it_may = stream.shutdown(how);
        }
    }

    /// Frees the seat: the client has left, and the next one may sit down.
    pub fn leave(&mut self)
        ensures { self.new ≡ left self.old }
    {
        self.outbox.cut();
        self.stream = None;
        self.follows = false;
        self.is_asking = false;
        self.under_way = 0;
    }
}
