//! The work of the main thread that needs no event from outside, and when it is due.
use crate::link_book::{Departure, LinkBook};
use cfdp_types::{EntityId, TimerOp, TxnKey};
use entity_config::Config;
use program_agenda::{Agenda, Expiry, Fate, Pace, expiry_of};
use program_tallies::Tallies;
use std::alloc::{AllocError, Global};
use timer_list::Armed;

// While a limit holds back octets, a turn waits at least this many milliseconds, so that several PDUs leave in the next
// one. It is less than the slack of a pace, so the limit is still reached.
const GATHERING_MS: u64 = 5;

/// Which limit the octets of a file count toward.
#[derive(Clone, Copy, Debug, PartialEq, Eq)]
pub enum Payer {
    /// The one that all links without a limit of their own share.
    All,
    /// The one of the file's own link.
    Link,
}

/// What is to be done for the files under way.
#[derive(Clone, Copy, Debug, PartialEq, Eq)]
pub enum Choice {
    /// No file has its turn, or the limit that all share holds them back.
    Nothing,
    /// The file whose turn it was rests, because of its link.
    Rests,
    /// The next PDU of this file is to be sent.
    Sends(TxnKey, Payer),
}

/// The timers, the files under way, and the links.
#[derive(Drop)]
pub struct Timetable<'a> {
    agenda: Agenda,
    /// How fast octets may be sent over the links without a limit of their own.
    pace: Pace,
    links: LinkBook<'a>,
}

impl<'a> Timetable<'a> {
    /// Nothing is due. All links are open, and share `octets_a_second`, if that is a limit. Memory is reserved for so
    /// many timers.
    pub fn new(
        alloc: Global,
        config: &'a Config,
        tallies: &'a Tallies,
        timers: usize,
        octets_a_second: Option<u64>,
    ) -> Result<Timetable<'a>, AllocError> {
        let mut agenda = Agenda::new(alloc);
        agenda.reserve_timers(timers)?;
        Ok(Timetable {
            agenda,
            pace: Pace::new(octets_a_second),
            links: LinkBook::new(alloc, config, tallies)?,
        })
    }

    /// Gives a remote entity its own limit in octets a second for files from a moment on, or takes it away; whatever
    /// else is sent to it counts, too. Returns whether the configuration has the entity.
    pub fn limit(&mut self, remote: EntityId, octets_a_second: Option<u64>, now: u64) -> bool {
        let Some(place) = self.links.place_of(remote) else {
            return false;
        };
        self.links.limit(place, octets_a_second, now);
        self.agenda.wake_all();
        true
    }

    /// Limits the octets a second for files over all links without a limit of their own from a moment on, or lifts that
    /// limit.
    pub fn limit_rest(&mut self, octets_a_second: Option<u64>, now: u64) {
        self.pace = self.pace.limited(octets_a_second, now);
        self.agenda.wake_all();
    }

    /// The limit in octets a second that all links without a limit of their own share, if there is one.
    pub fn rate_of_rest(&self) -> Option<u64> {
        self.pace.limit
    }

    /// Holds the link to a remote entity from a moment on, in milliseconds since 1970: nothing is sent to it, its files
    /// rest, and its timers rest once they expire. Returns whether the configuration has the entity.
    pub fn hold(&mut self, remote: EntityId, at: u64) -> bool {
        let Some(place) = self.links.place_of(remote) else {
            return false;
        };
        self.links.hold(place, at);
        true
    }

    /// Opens the link to a remote entity again, at a moment of the runtime's clock. Returns whether the configuration
    /// has the entity.
    pub fn release(&mut self, remote: EntityId, now: u64) -> bool {
        let Some(place) = self.links.place_of(remote) else {
            return false;
        };
        if self.links.release(place, now) {
            self.agenda.wake_all();
        }
        true
    }

    /// Whether the configuration has a remote entity.
    pub fn is_known(&self, remote: EntityId) -> bool {
        self.links.place_of(remote).is_some()
    }

    /// Whether the link to a remote entity is held.
    pub fn is_held(&self, remote: EntityId) -> bool {
        match self.links.place_of(remote) {
            Some(place) => self.links.is_held(place),
            None => false,
        }
    }

    /// Reserves memory for one more file.
    pub fn reserve(&mut self) -> Result<(), AllocError> {
        self.agenda.reserve()
    }

    /// Begins to send a file to a remote entity, for which memory is reserved.
    pub fn begin(&mut self, key: TxnKey, destination: EntityId) {
        self.links.begin(key, destination);
        let _room_was_made = self.agenda.begin(key);
    }

    /// Lets a transaction's file rest no longer, because of a step.
    pub fn wake(&mut self, key: TxnKey) {
        self.agenda.rest(key, 0);
    }

    /// Carries out a timer operation of a step that was made at a moment.
    pub fn apply(&mut self, operation: TimerOp, at: u64) -> Result<(), AllocError> {
        self.agenda.apply(operation, at)
    }

    /// Lets a timer run again, or gives it back if memory runs out.
    pub fn put_back(&mut self, timer: Armed) -> Result<(), Armed> {
        self.agenda.put_back(timer)
    }

    /// Lets a timer rest while the link to the remote entity at a place is held, or gives it back if memory runs out.
    pub fn lay_by(&mut self, remote: usize, timer: Armed) -> Result<(), Armed> {
        self.agenda.lay_by(remote, timer)
    }

    /// The place of a remote entity whose link was released, and whose timers have yet to run again.
    pub fn going_on(&mut self) -> Option<usize> {
        self.links.going_on()
    }

    /// Takes the next timer that rests for a remote entity; if there is none, all its timers run again.
    pub fn next_resting(&mut self, place: usize) -> Option<Armed> {
        let timer = self.agenda.next_resting(place);
        if timer.is_none() {
            self.links.has_gone_on(place);
        }
        timer
    }

    /// Takes a timer that has expired, if there is one, and says what becomes of it. On a held link it rests, and after
    /// a release silence counts anew.
    pub fn next_expired(&mut self, now: u64) -> Option<(Armed, Expiry)> {
        let timer = self.agenda.due(now)?;
        let expiry = expiry_of(timer, self.links.timed_link(timer.key), now);
        Some((timer, expiry))
    }

    /// Chooses what is to be done for the files under way: the next one in turn sends if its link and the limits allow,
    /// and rests if they don't.
    pub fn choose(&mut self, now: u64) -> Choice {
        if self.is_held_back(now) {
            return Choice::Nothing;
        }
        let Some(key) = self.agenda.next_sending(now) else {
            return Choice::Nothing;
        };
        let until = match self.links.departure(key, now) {
            Departure::Shared if self.pace.is_free(now) => return Choice::Sends(key, Payer::All),
            Departure::Shared => self.pace.free_moment(),
            Departure::Now => return Choice::Sends(key, Payer::Link),
            Departure::From(moment) => moment,
            Departure::Held => u64::MAX,
        };
        self.agenda.rest(key, until);
        Choice::Rests
    }

    // Whether nothing may be sent at a moment, because all links share one limit.
    fn is_held_back(&self, now: u64) -> bool {
        !self.links.has_paces() && !self.pace.is_free(now)
    }

    /// Notes that octets of a file were sent at a moment.
    pub fn note_sent(&mut self, key: TxnKey, payer: Payer, octets: u64, now: u64) {
        match payer {
            Payer::All => self.pace = self.pace.spend(octets, now),
            Payer::Link => self.links.note_sent(key, octets, now),
        }
    }

    /// What becomes of a file whose next PDU was refused; if it is tried again, after `rest` milliseconds.
    pub fn put_off(&mut self, key: TxnKey, fate: Fate, now: u64, rest: u64) {
        match fate {
            Fate::Again => self.agenda.rest(key, now.saturating_add(rest)),
            Fate::Awaits => self.agenda.rest(key, u64::MAX),
            Fate::Over => self.agenda.forget(key),
        }
    }

    /// The first moment at which a timer expires or a file may send, or the greatest of 64 bits.
    pub fn next_moment(&self, now: u64) -> u64 {
        let mut sending = self.agenda.soonest_sending();
        if self.is_held_back(now) {
            let free = self.pace.free_moment();
            sending = sending.max(free.max(now.saturating_add(GATHERING_MS)));
        }
        self.agenda.soonest_timer().min(sending)
    }
}
