//! Uses up numbers that lag behind those used toward an entity, so that files can go to it.
use crate::working::Working;
use cfdp_types::{Class, EntityId, PutFault, PutRequest, TxnKey};
use entity_routing::Request;
use program_status::StationCounts;
use server_lanes::Skip;
use shared_entity::EntityRefusal;
use shared_lanes::{Names, NoGate};
use std::alloc::{AllocError, Global};
use std::rt::Files;
use std::sync::Wait;
use std::time::Clock;

// How many numbers are used up in a turn at most.
const SKIPS: usize = 32;

// The names of what is put and never sent.
const NOTHING: &[u8] = b"nothing";

/// A transaction that was opened to use up its number, and has to be abandoned.
#[derive(Clone, Copy, Debug, PartialEq, Eq)]
pub struct Opened {
    user: usize,
    key: TxnKey,
}

// How a request that no user made is refused.
#[derive(Clone, Copy, Debug, PartialEq, Eq)]
pub(crate) enum Refused {
    /// Memory, or room in the user's queue, ran out.
    ForNow,
    ForGood,
}

impl Refused {
    /// Whether it may be asked for again.
    pub(crate) fn is_for_now(self) -> bool {
        self == Refused::ForNow
    }
}

impl<'s, 'a, N: Names, R: Wait + Clock + Files + AllocGlobal + Copy + Drop> Working<'s, 'a, N, R> {
    /// Uses up numbers of a lane, up to the next one that may go, if a file waits for nothing else; returns whether it
    /// used any.
    pub(crate) fn skip_some(&mut self, now: u64) -> bool {
        let Some(skip) = self.readiness.skip() else {
            return false;
        };
        if self.opened.is_some() {
            return false;
        }
        let mut count = 0u64;
        for _ in 0..SKIPS {
            if self.opened.is_some() || !self.readiness.is_lagging(skip) || !self.skip_one(skip) {
                break;
            }
            count = count.saturating_add(1);
            self.look_at_lanes(now);
        }
        if count == 0 {
            return false;
        }
        let next = self.readiness.next_of(skip.user, skip.lane);
        self.audience
            .reports
            .skip(skip.user, skip.destination, count, next);
        self.outbox.outgoing.try_from(now);
        true
    }

    // Opens a transaction in a lane and abandons it, before anything of it is sent. Returns whether it opened one. If
    // it can't be abandoned yet, that is tried again.
    fn skip_one(&mut self, skip: Skip) -> bool {
        if !self.numbers.covers() {
            return false;
        }
        let Ok(nothing) = nothing_to(self.alloc, skip.destination) else {
            return false;
        };
        let Ok(key) = self.ask_quietly(skip.user, Request::Put(skip.lane, nothing)) else {
            return false;
        };
        self.numbers.note_put(key);
        self.readiness.note_skipped(skip.user, skip.lane, key.seq);
        self.audience.watched.skip(key);
        skip_counts(&mut self.audience.counts, key);
        *self.opened = Some(Opened {
            user: skip.user,
            key,
        });
        self.abandon_opened();
        true
    }

    /// Abandons the transaction that was opened to use up its number, if it wasn't abandoned yet. It stays if memory or
    /// room in its user's queue ran out.
    pub(crate) fn abandon_opened(&mut self) {
        let opened = *self.opened;
        if let Some(Opened { user, key }) = opened
            && self.ask_quietly(user, Request::Abandon(key)) != Err(Refused::ForNow)
        {
            *self.opened = None;
        }
    }

    /// Asks the entity for something that no user asked for.
    pub(crate) fn ask_quietly(&mut self, user: usize, request: Request) -> Result<TxnKey, Refused> {
        let entity = self.station.entity();
        if !entity.may_request(user, &request) {
            return Err(Refused::ForGood);
        }
        let is_passing = match entity.request(self.rt, &NoGate, user, request) {
            Ok(Ok(done)) => {
                let key = done.key;
                self.station.settle_own(done);
                return Ok(key);
            }
            Ok(Err(refused)) => EntityRefusal::Lane(refused).is_passing(),
            Err(refusal) => refusal.is_passing(),
        };
        if is_passing {
            Err(Refused::ForNow)
        } else {
            Err(Refused::ForGood)
        }
    }
}

// Leaves out a transaction that is opened for its number alone, if anything is counted.
fn skip_counts(counts: &mut Option<StationCounts>, key: TxnKey) {
    if let Some(counts) = counts {
        counts.skip(key);
    }
}

// A Put of nothing.
fn nothing_to(alloc: Global, destination: EntityId) -> Result<PutRequest, PutFault> {
    PutRequest::new(alloc, destination, Class::One, NOTHING, NOTHING, &[], &[])
}
