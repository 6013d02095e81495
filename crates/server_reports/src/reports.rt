//! What a server reports: to clients that follow, and to its log.
use cfdp_types::{EntityId, TxnKey};
use entity_config::Config;
use event_levels::Level;
use indications::Bundle;
use program_desk::wall_moment;
use program_lot::Lot;
use program_outbox::Waiting;
use program_seats::Asker;
use program_start::Unread;
use program_status::{Events, LaneNotes};
use program_tallies::Tallies;
use release::VERSION;
use server_lines::PutCommand;
use station_lines::{CommandEvent, LogStatus, Moment, PutEvent, SkippedEvent, UnsentEvent};
use std::alloc::{AllocError, Global};
use std::sync::Wait;
use std::time::Clock;

// How long refusals gather before they are reported, in milliseconds.
const REFUSALS_MS: u64 = 1_000;

/// What a server has noted of its lanes, and what it reports, if clients or a log may read it.
#[derive(Drop)]
pub struct Reports<'a, R> {
    rt: &'a R,
    alloc: Global,
    pub(crate) config: &'a Config,
    tallies: &'a Tallies,
    pub notes: LaneNotes,
    events: Option<Events<'a>>,
    /// The moment of a turn by the wall clock, once it was looked at.
    turn_moment: Option<Moment>,
    /// When refusals are reported next, by the runtime's clock.
    refusals_due: u64,
    /// How many refusals there were at the last report.
    refusals_seen: u64,
    /// Where datagrams are parked, and how many were dropped there by the last report.
    lot: &'a Lot,
    unparked_seen: u64,
}

impl<'a, R: Wait + Clock> Reports<'a, R> {
    /// Nothing was noted so far.
    pub fn new(
        rt: &'a R,
        alloc: Global,
        config: &'a Config,
        tallies: &'a Tallies,
        events: Option<Events<'a>>,
        lot: &'a Lot,
    ) -> Result<Reports<'a, R>, AllocError> {
        Ok(Reports {
            rt,
            alloc,
            config,
            tallies,
            notes: LaneNotes::new(alloc, config)?,
            events,
            turn_moment: None,
            refusals_due: 0,
            refusals_seen: 0,
            lot,
            unparked_seen: 0,
        })
    }

    // The moment by the wall clock.
    fn now(&self) -> Moment {
        Moment(wall_moment(self.rt))
    }

    // The moment of this turn by the wall clock, which is looked at once a turn.
    fn now_of_turn(&mut self) -> Moment {
        match self.turn_moment {
            Some(moment) => moment,
            None => {
                let moment = self.now();
                self.turn_moment = Some(moment);
                moment
            }
        }
    }

    /// Whether anybody may read events.
    pub fn has_readers(&self) -> bool {
        self.events.is_some()
    }

    /// How many octets of events came in this turn.
    pub fn octets(&self) -> usize {
        match &self.events {
            Some(events) => events.octets(),
            None => 0,
        }
    }

    /// The number of the last event.
    pub fn number(&self) -> u64 {
        match &self.events {
            Some(events) => events.number(),
            None => 0,
        }
    }

    /// The state of the log, if there is one.
    pub fn log_status(&self) -> Option<LogStatus> {
        match &self.events {
            Some(events) => events.log_status(self.rt),
            None => None,
        }
    }

    /// Has the log opened anew, if there is one; returns whether that worked within half a second.
    pub fn reopen_log(&self) -> Option<bool> {
        match &self.events {
            Some(events) => events.reopen_log(self.rt),
            None => None,
        }
    }

    /// Reports that the server has started.
    pub fn start(&mut self) {
        let at = self.now();
        if let Some(events) = &mut self.events {
            events.start(at, self.config.entity().local, VERSION);
        }
    }

    /// Reports what was refused last and that the server ends, and lets its last events leave.
    pub fn end(&mut self) {
        self.refusals();
        let at = self.now();
        if let Some(events) = &mut self.events {
            events.end(at);
            events.end_turn(self.rt);
        }
    }

    /// Reports a Put that opened a transaction.
    pub fn put(&mut self, put: &PutCommand, size: u64, queued: Option<u64>, key: TxnKey) {
        let at = self.now();
        let event = PutEvent {
            user: self.config.name_of(put.user).unwrap_or(""),
            key,
            peer: put.destination,
            class: put.class,
            file: put.source.as_slice(),
            to: put.destination_name.as_slice(),
            size,
            queued,
        };
        if let Some(events) = &mut self.events {
            events.put(at, &event);
        }
    }

    /// Reports a command, by its words as it was understood, with the first line of its reply, the seat of the client
    /// that gave it, if one did, and why its file can't be read, if that is to be said.
    pub fn command<'w>(
        &mut self,
        words: &'w str,
        answer: &'w str,
        seat: Option<u64>,
        unread: Option<Unread>,
    ) {
        let at = self.now();
        let given = CommandEvent {
            words,
            answer: first_line(answer),
            seat,
            reason: words_of(unread),
        };
        if let Some(events) = &mut self.events {
            events.command(at, &given);
        }
    }

    /// Reports a file of the outbox that was not sent, and why, by the first line of `why`; also why it can't be read,
    /// if that is to be said.
    pub fn fail(&mut self, waiting: &Waiting, why: &str, unread: Option<Unread>) {
        let at = self.now();
        let unsent = UnsentEvent {
            queued: waiting.number,
            user: self.config.name_of(waiting.user).unwrap_or(""),
            destination: waiting.file.destination,
            file: waiting.file.source.as_slice(),
            why: first_line(why),
            reason: words_of(unread),
        };
        if let Some(events) = &mut self.events {
            events.fail(at, &unsent);
        }
    }

    /// Reports that numbers of a user's lane were used up, because they lagged behind those used toward an entity;
    /// `next` is the lane's next number.
    pub fn skip(&mut self, user: usize, destination: EntityId, count: u64, next: u64) {
        let at = self.now();
        let skipped = SkippedEvent {
            user: self.config.name_of(user).unwrap_or(""),
            destination,
            count,
            next,
        };
        if let Some(events) = &mut self.events {
            events.skip(at, &skipped);
        }
    }

    /// Reports that a user's transaction was abandoned because its journal is full.
    pub fn end_full(&mut self, user: usize, key: TxnKey) {
        let at = self.now();
        let name = self.config.name_of(user).unwrap_or("");
        if let Some(events) = &mut self.events {
            events.end_full(at, name, key);
        }
    }

    /// Reports that nothing leaves for a remote entity from a moment on.
    pub fn hold(&mut self, at: Moment, remote: EntityId) {
        if let Some(events) = &mut self.events {
            events.hold(at, remote);
        }
    }

    /// Reports that nothing leaves for a remote entity from a moment on, because the time for which its link was open
    /// is over.
    pub fn hold_planned(&mut self, at: Moment, remote: EntityId) {
        if let Some(events) = &mut self.events {
            events.hold_planned(at, remote);
        }
    }

    /// Reports that the link to a remote entity is open again.
    pub fn release(&mut self, remote: EntityId) {
        let at = self.now();
        if let Some(events) = &mut self.events {
            events.release(at, remote);
        }
    }

    /// Begins a turn.
    pub fn begin_turn(&mut self) {
        self.turn_moment = None;
        if let Some(events) = &mut self.events {
            events.begin_turn(self.rt);
        }
    }

    /// Notes and reports a bundle that a user received in this turn, and returns at which moment.
    pub fn receive(&mut self, bundle: &Bundle) -> Moment {
        let at = self.now_of_turn();
        self.notes.note(bundle, at);
        let config = self.config;
        let name = config.name_of(bundle.user).unwrap_or("");
        if let Some(events) = &mut self.events {
            events.receive(self.rt, at, name, bundle);
        }
        at
    }

    /// Reports what became of a file that the store was given, and where it was kept, if that is to be shown, or why it
    /// was not kept.
    pub fn store(&mut self, key: TxnKey, is_kept: bool, detail: Option<&str>) {
        let at = self.now();
        if let Some(events) = &mut self.events {
            events.store(at, key, is_kept, detail);
        }
    }

    /// Ends a turn: what was refused or had no room is reported once a second, and events leave.
    pub fn end_turn(&mut self, now: u64) {
        if now >= self.refusals_due {
            self.refusals_due = now.saturating_add(REFUSALS_MS);
            self.refusals();
        }
        if let Some(events) = &mut self.events {
            events.end_turn(self.rt);
        }
    }

    // Reports what was refused since the last report, and how many parked datagrams were dropped. If there is no memory
    // for that, it is reported later.
    fn refusals(&mut self) {
        let at = self.now();
        let unparked = self.lot.dropped(self.rt);
        let Some(events) = &mut self.events else {
            return;
        };
        let total = self.tallies.ledger.total();
        if total != self.refusals_seen
            && let Ok(unreported) = self.tallies.ledger.take_unreported(self.rt, self.alloc)
        {
            for case in &unreported {
                events.refuse(at, case);
            }
            self.refusals_seen = total;
        }
        if unparked != self.unparked_seen {
            events.unpark(at, unparked.saturating_sub(self.unparked_seen));
            self.unparked_seen = unparked;
        }
    }

    /// Sends a client the last events, at most so many, and all that come from now on, from a level on if one is asked
    /// for.
    pub fn follow(
        &mut self,
        asker: Asker,
        most: u64,
        least: Option<Level>,
    ) -> Result<(), AllocError> {
        match &mut self.events {
            Some(events) => events.follow(self.rt, asker, most, least),
            None => Ok(()),
        }
    }
}

// Why a file can't be read, in words.
fn words_of(unread: Option<Unread>) -> Option<&'static str> {
    match unread {
        Some(unread) => Some(unread.words()),
        None => None,
    }
}

// The first line of a reply.
fn first_line(answer: &str) -> &str {
    answer.lines().next().unwrap_or("")
}
