//! The events that a server reports.
use crate::refused::{origin_of, refused_case};
use crate::streams::{Streams, WORD, form_of, stream_of};
use cfdp_types::{EntityId, TxnKey};
use event_levels::{EventKind, Level};
use event_log::LogLines;
use indications::{Bundle, Indication};
use kept_events::{KeptEvents, SegmentEvent};
use program_seats::{Asker, Seats};
use program_tallies::RefusalCase;
use station_lines::{
    CommandEvent, EventHead, IndicationEvent, LogStatus, Moment, PutEvent, SkippedEvent,
    UnsentEvent, push_command_event, push_end_event, push_hold_event, push_indication_event,
    push_journal_full_event, push_planned_hold_event, push_put_event, push_refused_event,
    push_release_event, push_skipped_event, push_start_event, push_stored_event,
    push_unparked_event, push_unsent_event,
};
use std::alloc::{AllocError, Global};
use std::sync::Wait;
use std::time::Clock;

/// The events that a server reports: to the clients that follow, to the log, and to clients that follow later. The
/// events of a turn are sent at its end. An event for which memory runs out is lost, and its number is missing.
#[derive(Drop)]
pub struct Events<'a> {
    alloc: Global,
    seats: Option<&'a Seats>,
    log: Option<LogLines<'a>>,
    kept: KeptEvents<'a>,
    number: u64,
    /// What is sent to the clients that follow at the end of the turn.
    streams: Streams,
    /// How many octets of events this turn has had.
    octets: usize,
}

impl<'a> Events<'a> {
    /// Without any event so far.
    pub fn new(
        alloc: Global,
        seats: Option<&'a Seats>,
        log: Option<LogLines<'a>>,
    ) -> Result<Events<'a>, AllocError> {
        Ok(Events {
            alloc,
            seats,
            log,
            kept: KeptEvents::new(alloc)?,
            number: 0,
            streams: Streams::new(alloc)?,
            octets: 0,
        })
    }

    /// The number of the last event.
    pub fn number(&self) -> u64 {
        self.number
    }

    /// How many octets of events this turn has had.
    pub fn octets(&self) -> usize {
        self.octets
    }

    /// The state of the log, if there is one.
    pub fn log_status<R: Clock>(&self, rt: &R) -> Option<LogStatus> {
        let Some(log) = &self.log else {
            return None;
        };
        let state = log.queue().state(rt);
        Some(LogStatus {
            failing: state.is_failing,
            written: state.written,
            lost: state.lost,
        })
    }

    /// Has the log opened anew, if there is one; returns whether that worked within half a second.
    pub fn reopen_log<R: Wait + Clock>(&self, rt: &R) -> Option<bool> {
        match &self.log {
            Some(log) => Some(log.queue().reopen(rt)),
            None => None,
        }
    }

    /// Begins a turn.
    pub fn begin_turn<R: Wait>(&mut self, rt: &R) {
        self.octets = 0;
        if let Some(seats) = self.seats {
            self.streams.look(rt, seats);
        }
    }

    /// Ends a turn: its events leave for the clients that follow and for the log.
    pub fn end_turn<R: Wait>(&mut self, rt: &R) {
        if let Some(seats) = self.seats {
            self.streams.tell(rt, seats);
        }
        if let Some(log) = &mut self.log {
            log.leave(rt);
        }
    }

    /// Sends a client the last events, at most `most`, and all events from now on: those of a level and above with
    /// their levels, or all as they are.
    pub fn follow<R: Wait>(
        &mut self,
        rt: &R,
        asker: Asker,
        most: u64,
        least: Option<Level>,
    ) -> Result<(), AllocError> {
        let Some(seats) = self.seats else {
            return Ok(());
        };
        let mut text = Vec::new(self.alloc);
        let most = usize::try_from(most).unwrap_or(usize::MAX);
        let level = least.unwrap_or(Level::Detail);
        self.kept
            .push_last(&mut text, WORD.as_bytes(), level, most, form_of(least))?;
        self.streams.tell(rt, seats);
        if !text.is_empty() {
            seats.send(rt, asker, text.as_slice());
        }
        seats.follow(rt, asker, stream_of(least));
        self.streams.look(rt, seats);
        Ok(())
    }

    // The moment and the number of the next event.
    fn next_head(&mut self, at: Moment) -> EventHead {
        self.number = self.number.saturating_add(1);
        EventHead {
            at,
            number: self.number,
        }
    }

    // Reports an event, unless memory for its line ran out.
    fn add(&mut self, kind: EventKind<'_>, line: Result<String, AllocError>) {
        let Ok(line) = line else {
            return;
        };
        let level = kind.level();
        self.octets = self.octets.saturating_add(line.len());
        if let Some(log) = &mut self.log {
            log.push(level, line.as_bytes());
        }
        self.streams.add(level, line.as_bytes());
        let _kept_where_there_is_memory = self.kept.push(level, line.as_bytes());
    }

    /// Reports that the server has started.
    pub fn start(&mut self, at: Moment, id: EntityId, version: &str) {
        let head = self.next_head(at);
        let line = start_line(self.alloc, head, id, version);
        self.add(EventKind::Start, line);
    }

    /// Reports that the server ends.
    pub fn end(&mut self, at: Moment) {
        let head = self.next_head(at);
        let line = end_line(self.alloc, head);
        self.add(EventKind::End, line);
    }

    /// Reports a bundle's indications to the user of this name. Those of a large bundle are written to the log in
    /// pieces. The line of a segment is written only if somebody reads it.
    pub fn receive<R: Wait>(&mut self, rt: &R, at: Moment, user: &'a str, bundle: &Bundle) {
        for indication in bundle.inds.as_slice() {
            let head = self.next_head(at);
            match indication {
                Indication::FileSegmentRecv { offset, length } if !self.is_read(Level::Detail) => {
                    self.kept.push_segment(SegmentEvent {
                        head,
                        user,
                        key: bundle.key,
                        offset: *offset,
                        length: *length,
                    });
                }
                _ => {
                    let event = IndicationEvent {
                        user,
                        key: bundle.key,
                        indication,
                    };
                    let line = indication_line(self.alloc, head, &event);
                    self.add(EventKind::Indication(indication), line);
                }
            }
            if let Some(log) = &mut self.log {
                log.relieve(rt);
            }
        }
    }

    // Whether a client that follows, or the log, gets the events of a level.
    fn is_read(&self, level: Level) -> bool {
        let is_logged = match &self.log {
            Some(log) => log.takes(level),
            None => false,
        };
        is_logged || self.streams.is_followed(level)
    }

    /// Reports that a Put opened a transaction.
    pub fn put(&mut self, at: Moment, put: &PutEvent<'_>) {
        let head = self.next_head(at);
        let line = put_line(self.alloc, head, put);
        self.add(EventKind::Put, line);
    }

    /// Reports that a file of the outbox was not sent.
    pub fn fail(&mut self, at: Moment, unsent: &UnsentEvent<'_>) {
        let head = self.next_head(at);
        let line = unsent_line(self.alloc, head, unsent);
        self.add(EventKind::Unsent, line);
    }

    /// Reports that the link to a remote entity is held.
    pub fn hold(&mut self, at: Moment, id: EntityId) {
        let head = self.next_head(at);
        let line = hold_line(self.alloc, head, id);
        self.add(EventKind::Hold, line);
    }

    /// Reports that the link to a remote entity is held, because the time for which it was open is over.
    pub fn hold_planned(&mut self, at: Moment, id: EntityId) {
        let head = self.next_head(at);
        let line = planned_hold_line(self.alloc, head, id);
        self.add(EventKind::Hold, line);
    }

    /// Reports that the link to a remote entity is open again.
    pub fn release(&mut self, at: Moment, id: EntityId) {
        let head = self.next_head(at);
        let line = release_line(self.alloc, head, id);
        self.add(EventKind::Release, line);
    }

    /// Reports whether the store kept a received file, and its path below the store's folder, or why it did not.
    pub fn store(&mut self, at: Moment, key: TxnKey, is_kept: bool, detail: Option<&str>) {
        let head = self.next_head(at);
        let line = stored_line(self.alloc, head, key, is_kept, detail);
        self.add(EventKind::Stored(is_kept), line);
    }

    /// Reports the refusals of a kind since the last such event.
    pub fn refuse(&mut self, at: Moment, case: &RefusalCase) {
        let head = self.next_head(at);
        let line = refused_line(self.alloc, head, case);
        self.add(EventKind::Refused, line);
    }

    /// Reports how many parked datagrams were dropped for want of room or memory since the last such event.
    pub fn unpark(&mut self, at: Moment, count: u64) {
        let head = self.next_head(at);
        let line = unparked_line(self.alloc, head, count);
        self.add(EventKind::Unparked, line);
    }

    /// Reports that a user's transaction was abandoned because its journal is full.
    pub fn end_full(&mut self, at: Moment, user: &str, key: TxnKey) {
        let head = self.next_head(at);
        let line = journal_full_line(self.alloc, head, user, key);
        self.add(EventKind::JournalFull, line);
    }

    /// Reports a command, and what came of it.
    pub fn command(&mut self, at: Moment, given: &CommandEvent<'_>) {
        let head = self.next_head(at);
        let line = command_line(self.alloc, head, given);
        self.add(EventKind::Command, line);
    }

    /// Reports that transaction numbers were used up without a file.
    pub fn skip(&mut self, at: Moment, skipped: &SkippedEvent<'_>) {
        let head = self.next_head(at);
        let line = skipped_line(self.alloc, head, skipped);
        self.add(EventKind::Skipped, line);
    }
}

fn start_line(
    alloc: Global,
    head: EventHead,
    id: EntityId,
    version: &str,
) -> Result<String, AllocError> {
    let mut line = String::new(alloc);
    push_start_event(alloc, &mut line, head, id, version)?;
    Ok(line)
}

fn end_line(alloc: Global, head: EventHead) -> Result<String, AllocError> {
    let mut line = String::new(alloc);
    push_end_event(alloc, &mut line, head)?;
    Ok(line)
}

fn indication_line(
    alloc: Global,
    head: EventHead,
    event: &IndicationEvent<'_>,
) -> Result<String, AllocError> {
    let mut line = String::new(alloc);
    push_indication_event(alloc, &mut line, head, event)?;
    Ok(line)
}

fn put_line(alloc: Global, head: EventHead, put: &PutEvent<'_>) -> Result<String, AllocError> {
    let mut line = String::new(alloc);
    push_put_event(alloc, &mut line, head, put)?;
    Ok(line)
}

fn unsent_line(
    alloc: Global,
    head: EventHead,
    unsent: &UnsentEvent<'_>,
) -> Result<String, AllocError> {
    let mut line = String::new(alloc);
    push_unsent_event(alloc, &mut line, head, unsent)?;
    Ok(line)
}

fn hold_line(alloc: Global, head: EventHead, id: EntityId) -> Result<String, AllocError> {
    let mut line = String::new(alloc);
    push_hold_event(alloc, &mut line, head, id)?;
    Ok(line)
}

fn planned_hold_line(alloc: Global, head: EventHead, id: EntityId) -> Result<String, AllocError> {
    let mut line = String::new(alloc);
    push_planned_hold_event(alloc, &mut line, head, id)?;
    Ok(line)
}

fn release_line(alloc: Global, head: EventHead, id: EntityId) -> Result<String, AllocError> {
    let mut line = String::new(alloc);
    push_release_event(alloc, &mut line, head, id)?;
    Ok(line)
}

fn stored_line(
    alloc: Global,
    head: EventHead,
    key: TxnKey,
    is_kept: bool,
    detail: Option<&str>,
) -> Result<String, AllocError> {
    let mut line = String::new(alloc);
    push_stored_event(alloc, &mut line, head, key, is_kept, detail)?;
    Ok(line)
}

fn refused_line(alloc: Global, head: EventHead, case: &RefusalCase) -> Result<String, AllocError> {
    let origin = origin_of(alloc, case)?;
    let shown = refused_case(case, &origin, case.unreported());
    let mut line = String::new(alloc);
    push_refused_event(alloc, &mut line, head, &shown)?;
    Ok(line)
}

fn unparked_line(alloc: Global, head: EventHead, count: u64) -> Result<String, AllocError> {
    let mut line = String::new(alloc);
    push_unparked_event(alloc, &mut line, head, count)?;
    Ok(line)
}

fn journal_full_line(
    alloc: Global,
    head: EventHead,
    user: &str,
    key: TxnKey,
) -> Result<String, AllocError> {
    let mut line = String::new(alloc);
    push_journal_full_event(alloc, &mut line, head, user, key)?;
    Ok(line)
}

fn command_line(
    alloc: Global,
    head: EventHead,
    given: &CommandEvent<'_>,
) -> Result<String, AllocError> {
    let mut line = String::new(alloc);
    push_command_event(alloc, &mut line, head, given)?;
    Ok(line)
}

fn skipped_line(
    alloc: Global,
    head: EventHead,
    skipped: &SkippedEvent<'_>,
) -> Result<String, AllocError> {
    let mut line = String::new(alloc);
    push_skipped_event(alloc, &mut line, head, skipped)?;
    Ok(line)
}
