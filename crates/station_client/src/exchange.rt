//! The reply of one command, and the events that came with it.
ghost use Rattle.std.specs.Prelude.{◌≡◌, ◌≤◌, [], drop, length, option_map, slice_get, true, OnOk, OnErr};
ghost use Rattle.station_client.specs.Exchanges.{has_room, with_line};

use crate::fault::StationFault;
use crate::lines::LineKind;
use std::alloc::Global;
use std::collections::VecDeque;
use std::marker::Model;
use std::mem;

/// The most octets of a reply.
pub const ANSWER_OCTETS: usize = 256 * 1024 * 1024;

/// The most events that are kept until somebody takes them.
pub const KEPT_EVENTS: usize = 65_536;

// How many octets the word `event` and its space have.
const EVENT_WORD_OCTETS: usize = 6;

/// The reply so far, and the events that nobody has taken yet.
#[derive(Debug, Drop)]
pub struct Exchange {
    answer: Vec<u8>,
    events: VecDeque<Vec<u8>>,
}

impl Model for Exchange {
    ghost use Rattle.std.specs.Prelude.{map};
    ghost use Rattle.station_client.specs.Exchanges.{ExchangeValue};

    ghost Value = { ExchangeValue };

    ghost view = { λ e. record { answer = e.answer.items; events = map (λ event. event.items) e.events.items } };
}

impl Exchange {
    /// An exchange without any line yet.
    pub fn new(alloc: Global) -> Exchange
        ensures { result ≡ record { answer = []; events = [] } }
    {
        Exchange {
            answer: Vec::new(alloc),
            events: VecDeque::new(alloc),
        }
    }

    /// Adds a line of this kind.
    pub fn add(&mut self, alloc: Global, kind: LineKind, line: &[u8]) -> Result<(), StationFault>
        ensures ok { OnOk result (self.new ≡ with_line kind line.now self.old) }
        ensures room { OnOk result (has_room kind self.old ≡ true) }
        ensures err { OnErr result (self.new ≡ self.old) }
    {
        match kind {
            LineKind::Answer => self.add_answer(line),
            LineKind::Event => self.add_event(alloc, line),
            LineKind::End | LineKind::Busy => Ok(()),
        }
    }

    // Adds a line of the reply.
    fn add_answer(&mut self, line: &[u8]) -> Result<(), StationFault>
        ensures ok { OnOk result (self.new ≡ with_line LineKind.Answer line.now self.old) }
        ensures err { OnErr result (self.new ≡ self.old) }
    {
        if self.answer.len() > ANSWER_OCTETS || line.len() >= ANSWER_OCTETS {
            return Err(StationFault::TooLong);
        }
        self.answer.try_reserve(line.len() + 1)?;
        self.answer.extend_from_slice(line)?;
        self.answer.extend_from_slice(b"\n".as_slice())?;
        Ok(())
    }

    // Adds an event.
    fn add_event(&mut self, alloc: Global, line: &[u8]) -> Result<(), StationFault>
        ensures ok { OnOk result (self.new ≡ with_line LineKind.Event line.now self.old) }
        ensures room { OnOk result (has_room LineKind.Event self.old ≡ true) }
        ensures err { OnErr result (self.new ≡ self.old) }
    {
        if self.events.len() >= KEPT_EVENTS {
            return Err(StationFault::TooManyEvents);
        }
        let text = line.get(EVENT_WORD_OCTETS..).unwrap_or(b"".as_slice());
        let kept = Vec::from_slice(alloc, text)?;
        if self.events.push_back(kept).is_err() {
            return Err(StationFault::NoMemory);
        }
        Ok(())
    }

    /// Takes the reply.
    pub fn take_answer(&mut self, alloc: Global) -> Vec<u8>
        ensures answer { result.items ≡ self.old.answer }
        ensures left { self.new ≡ record self.old { answer = [] } }
    {
        mem::replace(&mut self.answer, Vec::new(alloc))
    }

    /// Takes the oldest event, if there is one.
    pub fn take_event(&mut self) -> Option<Vec<u8>>
        ensures event { option_map (λ event. event.items) result ≡ slice_get self.old.events 0 }
        ensures left { self.new ≡ record self.old { events = drop 1 self.old.events } }
    {
        self.events.pop_front()
    }
}
