//! Text on its way to one client.
ghost use Rattle.std.specs.Prelude.{◌≡◌, ◌≤◌, [], IsTrue, ◌↔◌, length, vec_len};

use std::alloc::{AllocError, Global};
use std::marker::Model;
use std::mem;

/// How many octets of memory are reserved for text to one client, so that a short reply needs no more.
pub const RESERVED_OCTETS: usize = 4_096;

/// Whether text can still be sent to a client.
#[derive(Clone, Copy, Debug, PartialEq, Eq)]
pub enum Way {
    /// Takes more text.
    Open,
    /// Takes no more text. What waits is still sent.
    Ending,
    /// Sends nothing more.
    Cut,
}

/// Text on its way to one client; at most `ROOM` octets wait. Contracts see what waits and the way.
#[derive(Debug, Drop)]
pub struct Outbox<const ROOM: usize> {
    pending: Vec<u8>,
    way: Way,
}

impl<const ROOM: usize> Model for Outbox<ROOM> {
    ghost use Rattle.std.specs.Prelude.{◌≤◌, vec_len};
    ghost use Rattle.program_seats.specs.Outboxes.{OutboxValue};

    ghost Value = { OutboxValue };

    ghost view = { λ o. record { waiting = o.pending.items; way = o.way } };

    ghost invariant = { λ o. vec_len o.pending ≤ ROOM };
}

impl<const ROOM: usize> Outbox<ROOM> {
    ghost use Rattle.program_seats.specs.Outboxes.{empty, cut_off, ended, IsPut};

    /// An empty outbox, whose way is open.
    pub fn new(alloc: Global) -> Outbox<ROOM>
        ensures { result ≡ empty }
    {
        Outbox {
            pending: Vec::new(alloc),
            way: Way::Open,
        }
    }

    /// Reserves memory for `RESERVED_OCTETS` more octets.
    pub fn reserve(&mut self) -> Result<(), AllocError>
        ensures { self.new ≡ self.old }
    {
        self.pending.reserve(RESERVED_OCTETS)
    }

    /// Drops what waited, and opens the way again. The reserved memory stays.
    pub fn reopen(&mut self)
        ensures { self.new ≡ empty }
    {
        self.pending.clear();
        self.pending.shrink_to(RESERVED_OCTETS);
        self.way = Way::Open;
    }

    /// How many octets wait.
    pub fn waiting(&self) -> usize
        ensures { result ≡ length self.now.waiting }
    {
        self.pending.len()
    }

    /// Whether text can still be sent.
    pub fn way(&self) -> Way
        ensures way { result ≡ self.now.way }
        ensures within { length self.now.waiting ≤ ROOM }
    {
        self.way
    }

    /// Whether nothing waits.
    pub fn is_empty(&self) -> bool
        ensures { IsTrue result ↔ (self.now.waiting ≡ []) }
    {
        self.pending.is_empty()
    }

    /// Appends a text to what waits, and returns whether it was taken. If an open way has no room or memory for it, the
    /// way is cut and what waited is dropped.
    pub fn put(&mut self, text: &[u8]) -> bool
        ensures { IsPut ROOM text.now self.old result self.new }
    {
        if self.way != Way::Open {
            return false;
        }
        if text.len() <= ROOM - self.pending.len() && self.pending.extend_from_slice(text).is_ok() {
            return true;
        }
        self.cut();
        false
    }

    /// Moves what waits into `texts`, in place of its content, and reuses the memory of `texts`.
    pub fn take(&mut self, texts: &mut Vec<u8>)
        ensures given { texts.new.items ≡ self.old.waiting }
        ensures rest { self.new ≡ record { waiting = []; way = self.old.way } }
    {
        texts.clear();
        mem::swap(&mut self.pending, texts);
    }

    /// Takes no more text. What waits is still sent, and a way that was cut stays cut.
    pub fn end(&mut self)
        ensures { self.new ≡ ended self.old }
    {
        if self.way == Way::Open {
            self.way = Way::Ending;
        }
    }

    /// Sends nothing more, and drops what waited.
    pub fn cut(&mut self)
        ensures { self.new ≡ cut_off }
    {
        self.pending.clear();
        self.way = Way::Cut;
    }
}
