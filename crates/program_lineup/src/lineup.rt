ghost use Rattle.std.specs.Prelude.{◌≡◌, ◌<◌, ◌%◌, IfOk, OnOk, OnErr, length, slice_get};
ghost use Rattle.std.specs.List.{list_any};
ghost use Rattle.program_lineup.specs.Lineups.{choice, has_remainder, highest, is_above_used, is_awaiting, is_idle, is_open, is_open_with, lowest, rises, standing, stands, unused, used, used_at};

use crate::choice::{Choice, Standing, chosen, least, most};
use crate::sending_lane::{Running, SendingLane};
use cfdp_types::EntityId;
use std::alloc::{AllocError, Global};
use std::marker::Model;

/// The numbers that were used toward an entity, by their remainders, and so which number may be used next. Contracts
/// see the entity and, for each remainder, the greatest number.
#[derive(Drop)]
pub struct Lineup {
    peer: EntityId,
    greatest: Vec<Option<u64>>,
}

impl Model for Lineup {
    ghost use Rattle.program_lineup.specs.Lineups.{Numbers};

    ghost Value = { Numbers };

    ghost view = { λ l. record { peer = l.peer; greatest = l.greatest.items } };
}

impl Lineup {
    /// No number was used toward an entity. It has so many receiving lanes for the numbers of this one; with 0 it takes
    /// any numbers.
    pub fn new(alloc: Global, peer: EntityId, lanes: usize) -> Result<Lineup, AllocError>
        ensures { IfOk result (λ l. l ≡ record { peer = peer; greatest = unused lanes }) }
    {
        Ok(Lineup {
            peer,
            greatest: Vec::from_elem(alloc, None, lanes)?,
        })
    }

    /// The entity.
    pub fn peer(&self) -> EntityId
        ensures { result ≡ self.now.peer }
    {
        self.peer
    }

    /// How many receiving lanes it has for this entity, 0 if it takes any numbers.
    pub fn lanes(&self) -> usize
        ensures { result ≡ length self.now.greatest }
    {
        self.greatest.len()
    }

    /// Notes that a number was used.
    pub fn note(&mut self, number: u64)
        ensures { self.new ≡ used number self.old }
    {
        if self.greatest.is_empty() {
            return;
        }
        let place = remainder(number, self.greatest.len());
        note_at(&mut self.greatest, place, number);
    }

    /// What can be done for a file of a user to this entity.
    pub fn choice(&self, user: usize, lanes: &[SendingLane]) -> Choice
        ensures { result ≡ choice user self.now lanes.now }
    {
        chosen(
            self.lowest(user, lanes),
            self.is_awaiting(user, lanes),
            self.highest(user, lanes),
        )
    }

    /// How a number stands.
    pub fn standing(&self, lanes: &[SendingLane], number: u64) -> Standing
        ensures { result ≡ standing self.now lanes.now number }
    {
        if self.greatest.is_empty() {
            Standing::Free
        } else if !self.rises(number) {
            Standing::Lags
        } else if self.is_open(number, lanes) {
            Standing::Awaits
        } else {
            Standing::Free
        }
    }

    // Whether the number is above all that were used with its remainder.
    fn rises(&self, number: u64) -> bool
        ensures { result ≡ rises self.now number }
    {
        if self.greatest.is_empty() {
            return true;
        }
        match self.greatest.get(remainder(number, self.greatest.len())) {
            Some(Some(used)) => *used < number,
            _ => true,
        }
    }

    // Whether a transaction is open whose number has the same remainder.
    fn is_open(&self, number: u64, lanes: &[SendingLane]) -> bool
        ensures { result ≡ is_open self.now number lanes.now }
    {
        lanes
            .iter()
            .any(|lane| self.is_open_with(number, lane.running))
    }

    // Whether a lane runs such a transaction.
    fn is_open_with(&self, number: u64, running: Option<Running>) -> bool
        ensures { result ≡ is_open_with self.now number running }
    {
        let count = self.greatest.len();
        match running {
            Some(running) => running.peer.0 == self.peer.0
                && has_remainder(running.number, number, count),
            None => false,
        }
    }

    // Whether a lane of the user is idle, and its next number stands so.
    fn stands(
        &self,
        wanted: Standing,
        user: usize,
        lanes: &[SendingLane],
        lane: &SendingLane,
    ) -> bool
        ensures { result ≡ stands wanted user self.now lanes.now lane.now }
    {
        is_idle(user, lane) && wanted.is(self.standing(lanes, lane.next))
    }

    // The lowest next number of a lane that may begin.
    fn lowest(&self, user: usize, lanes: &[SendingLane]) -> Option<u64>
        ensures { result ≡ lowest user self.now lanes.now }
    {
        lanes.iter().fold(None, |best, lane| {
            if self.stands(Standing::Free, user, lanes, lane) {
                least(best, lane.next)
            } else {
                best
            }
        })
    }

    // The highest next number of a lane that lags.
    fn highest(&self, user: usize, lanes: &[SendingLane]) -> Option<u64>
        ensures { result ≡ highest user self.now lanes.now }
    {
        lanes.iter().fold(None, |best, lane| {
            if self.stands(Standing::Lags, user, lanes, lane) {
                most(best, lane.next)
            } else {
                best
            }
        })
    }

    // Whether an idle lane waits for a transaction to end.
    fn is_awaiting(&self, user: usize, lanes: &[SendingLane]) -> bool
        ensures { result ≡ is_awaiting user self.now lanes.now }
    {
        lanes
            .iter()
            .any(|lane| self.stands(Standing::Awaits, user, lanes, lane))
    }
}

// Whether a lane is one of the user's, and runs nothing.
fn is_idle(user: usize, lane: &SendingLane) -> bool
    ensures { result ≡ is_idle user lane.now }
{
    lane.user == user && lane.running.is_none()
}

// The remainder of a number by a number of lanes, which isn't 0.
fn remainder(number: u64, lanes: usize) -> usize
    requires { 0 < lanes }
    ensures { result ≡ number % lanes }
{
    (number % lanes as u64) as usize
}

// Whether two numbers have the same remainder by a number of lanes; without lanes, whether they are the same.
fn has_remainder(one: u64, other: u64, lanes: usize) -> bool
    ensures { result ≡ has_remainder one other lanes }
{
    if lanes == 0 {
        one == other
    } else {
        remainder(one, lanes) == remainder(other, lanes)
    }
}

// Notes that a number was used, at the place of its remainder.
fn note_at(greatest: &mut Vec<Option<u64>>, place: usize, number: u64)
    requires { place < length greatest.old.items }
    ensures { greatest.new.items ≡ used_at place number (slice_get greatest.old.items place) greatest.old.items }
{
    greatest[place] = most(greatest[place], number);
}
