//! Which files of the outbox can leave, and in which lanes.
use cfdp_types::{Class, EntityId};
use entity_config::Config;
use entity_routing::Place;
use lane_table::{Glance, Numbers};
use program_lineup::{Choice, Lineup, Running, SendingLane};
use program_outbox::{Outgoing, Stop, Waiting};
use program_tallies::Links;
use shared_entity::Entity;
use shared_lanes::Names;
use station_config::PeerLanes;
use std::alloc::{AllocError, Global};
use std::sync::Wait;

// How many milliseconds after a file of class 1 left the next one with its remainder may leave. A receiver with several
// workers could let a few PDUs of the first one be overtaken otherwise.
const REST_MS: u64 = 5;

/// A lane whose next number can't go to an entity any more: it is used up.
#[derive(Clone, Copy, Debug, PartialEq, Eq)]
pub struct Skip {
    pub user: usize,
    pub lane: usize,
    pub destination: EntityId,
}

/// A user with files for an entity, by the entity's place in the configuration.
#[derive(Clone, Copy, Debug, PartialEq, Eq)]
struct Pair {
    user: usize,
    place: usize,
}

// The last end that was seen of a lane's transactions, by its number, and until when the lane rests because of it.
#[derive(Clone, Copy, Debug, PartialEq, Eq)]
struct Ended {
    number: Option<u64>,
    until: u64,
}

/// The sending lanes and the remote entities, as they were looked at last.
#[derive(Drop)]
pub struct Readiness {
    local: EntityId,
    /// How many receiving lanes remote entities have; others have as many as this one.
    peers: Vec<PeerLanes>,
    numbers: Numbers,
    /// The greatest number that the sequence numbers' octets hold.
    greatest: u64,
    put_lanes: usize,
    /// Each user's sending lanes, in order. One without a number left counts as running.
    lanes: Vec<SendingLane>,
    /// For each of them whether it has no number left, and runs nothing; and its last end.
    spent: Vec<bool>,
    ended: Vec<Ended>,
    /// For each remote entity the numbers that were used toward it.
    lineups: Vec<Lineup>,
    /// Whether the last look saw all lanes.
    has_seen_all: bool,
    idle: Vec<bool>,
    stops: Vec<Stop>,
    pairs: Vec<Pair>,
    skip: Option<Skip>,
}

impl Readiness {
    /// No lane is idle, and no number was used. `peers` says how many receiving lanes remote entities have; others have
    /// as many as this one.
    pub fn new(
        alloc: Global,
        config: &Config,
        peers: &[PeerLanes],
    ) -> Result<Readiness, AllocError> {
        let entity = config.entity();
        let (users, remotes) = (config.users(), config.remotes());
        let pairs = users.saturating_mul(remotes);
        let all = users.saturating_mul(entity.put_lanes);
        Ok(Readiness {
            local: entity.local,
            peers: copied(alloc, peers)?,
            numbers: Numbers {
                first: entity.first,
                lanes: entity.put_lanes as u64,
                users: users as u64,
            },
            greatest: greatest_of(entity.lengths.sequence_octets),
            put_lanes: entity.put_lanes,
            lanes: Vec::with_capacity(alloc, all)?,
            spent: Vec::with_capacity(alloc, all)?,
            ended: Vec::from_elem(
                alloc,
                Ended {
                    number: None,
                    until: 0,
                },
                all,
            )?,
            lineups: lineups_of(alloc, config, peers)?,
            has_seen_all: false,
            idle: Vec::from_elem(alloc, false, users)?,
            stops: Vec::with_capacity(alloc, pairs)?,
            pairs: Vec::with_capacity(alloc, pairs)?,
            skip: None,
        })
    }

    /// How many receiving lanes remote entities have; others have as many as this one.
    pub fn peers(&self) -> &[PeerLanes] {
        self.peers.as_slice()
    }

    /// For each user whether it has an idle lane.
    pub fn idle(&self) -> &[bool] {
        self.idle.as_slice()
    }

    /// From which users nothing goes to which entities.
    pub fn stops(&self) -> &[Stop] {
        self.stops.as_slice()
    }

    /// A lane whose numbers are used up for a file that waits for nothing else, if there is one.
    pub fn skip(&self) -> Option<Skip> {
        self.skip
    }

    /// Notes that a number was used toward an entity.
    pub fn note(&mut self, destination: EntityId, number: u64) {
        for lineup in self.lineups.iter_mut() {
            if lineup.peer() == destination {
                lineup.note(number);
            }
        }
    }

    /// Notes that a lane used up a number, so that it doesn't rest after it.
    pub fn note_skipped(&mut self, user: usize, lane: usize, number: u64) {
        let index = self.index_of(user, lane);
        if let Some(ended) = self.ended.get_mut(index) {
            *ended = Ended {
                number: Some(number),
                until: 0,
            };
        }
    }

    /// The first moment after `now` at which a lane no longer rests, or the greatest of 64 bits.
    pub fn end_of_rest(&self, now: u64) -> u64 {
        self.ended.iter().fold(u64::MAX, |soonest, ended| {
            if ended.until > now {
                soonest.min(ended.until)
            } else {
                soonest
            }
        })
    }

    /// Looks at all sending lanes, at a moment of the runtime's clock. If memory for that runs out, no lane counts as
    /// idle.
    pub fn look<N: Names, R: Wait + Copy>(&mut self, rt: &R, entity: &Entity<N, R>, now: u64) {
        self.lanes.clear();
        self.spent.clear();
        self.has_seen_all = true;
        for user in 0..self.idle.len() {
            for lane in 0..self.put_lanes {
                let (seen, is_spent) = match entity.glance(rt, Place { user, lane }) {
                    Ok(glance) => self.lane_of(user, lane, glance, now),
                    Err(_) => {
                        self.has_seen_all = false;
                        (self.busy(user), false)
                    }
                };
                let _there_is_room = self.lanes.push(seen);
                let _there_is_room = self.spent.push(is_spent);
            }
        }
        for user in 0..self.idle.len() {
            let is_idle = self.has_seen_all && (self.has_idle(user) || self.is_spent(user));
            if let Some(word) = self.idle.get_mut(user) {
                *word = is_idle;
            }
        }
    }

    // A lane by a glance at its transaction, and whether it has no number left and runs nothing.
    fn lane_of(
        &mut self,
        user: usize,
        lane: usize,
        glance: Option<Glance>,
        now: u64,
    ) -> (SendingLane, bool) {
        let (last, running) = match glance {
            None => (None, None),
            Some(glance) => {
                let rests = self.rests(self.index_of(user, lane), &glance, now);
                (Some(glance.key.seq), running_of(&glance, rests))
            }
        };
        match self.next_number(user, lane, last) {
            Some(next) => (
                SendingLane {
                    user,
                    next,
                    running,
                },
                false,
            ),
            None if running.is_none() => (self.busy(user), true),
            None => (
                SendingLane {
                    user,
                    next: u64::MAX,
                    running,
                },
                false,
            ),
        }
    }

    // Whether a lane rests after its last transaction, whose end is noted.
    fn rests(&mut self, index: usize, glance: &Glance, now: u64) -> bool {
        let Some(ended) = self.ended.get_mut(index) else {
            return false;
        };
        if glance.has_ended && ended.number != Some(glance.key.seq) {
            let is_first_class = glance.class == Class::One;
            *ended = Ended {
                number: Some(glance.key.seq),
                until: if is_first_class {
                    now.saturating_add(REST_MS)
                } else {
                    0
                },
            };
        }
        now < ended.until
    }

    // A lane that no file can have.
    fn busy(&self, user: usize) -> SendingLane {
        SendingLane {
            user,
            next: u64::MAX,
            running: Some(Running {
                peer: self.local,
                number: u64::MAX,
            }),
        }
    }

    // The number that a lane's next transaction gets, after its last one.
    fn next_number(&self, user: usize, lane: usize, last: Option<u64>) -> Option<u64> {
        if self.numbers.users == 0 {
            return None;
        }
        self.numbers.up_to(self.greatest, user, lane, last)
    }

    // Whether a user has a lane that runs nothing and has a number left.
    fn has_idle(&self, user: usize) -> bool {
        self.lanes
            .iter()
            .any(|lane| lane.user == user && lane.running.is_none())
    }

    // Whether each of a user's lanes runs nothing and has no number left.
    fn is_spent(&self, user: usize) -> bool {
        for lane in 0..self.put_lanes {
            let index = self.index_of(user, lane);
            if !self.spent.get(index).copied().unwrap_or(false) {
                return false;
            }
        }
        true
    }

    // The index of a user's lane.
    fn index_of(&self, user: usize, lane: usize) -> usize {
        user.saturating_mul(self.put_lanes).saturating_add(lane)
    }

    /// Notes for the files that wait which of them can't go, by the lanes as they were looked at last, and which lane's
    /// numbers have to be used up.
    pub fn note_files(&mut self, links: &Links, outgoing: &Outgoing) {
        self.pairs.clear();
        self.stops.clear();
        self.skip = None;
        for file in outgoing.returned() {
            self.note_pair(file);
        }
        for file in outgoing.waiting() {
            self.note_pair(file);
        }
        for index in 0..self.pairs.len() {
            if let Some(pair) = self.pairs.get(index).copied() {
                self.note_stop(pair, links.is_held(pair.place));
            }
        }
    }

    // Notes that a file waits for a user's lane toward an entity.
    fn note_pair(&mut self, file: &Waiting) {
        let destination = file.file.destination;
        if let Some(place) = self.place_of(destination) {
            let pair = Pair {
                user: file.user,
                place,
            };
            if !self.pairs.iter().any(|other| *other == pair) {
                let _there_is_room = self.pairs.push(pair);
            }
        }
    }

    // The place of a remote entity.
    fn place_of(&self, id: EntityId) -> Option<usize> {
        self.lineups.iter().position(|lineup| lineup.peer() == id)
    }

    // Notes whether nothing goes from a user to an entity, and which lane's number has to be used up before something
    // can.
    fn note_stop(&mut self, pair: Pair, is_held: bool) {
        let Some(lineup) = self.lineups.get(pair.place) else {
            return;
        };
        let destination = lineup.peer();
        let choice = lineup.choice(pair.user, self.lanes.as_slice());
        if let (false, Choice::Skips(number)) = (is_held, choice)
            && let Some(lane) = self.lane_with(pair.user, number)
        {
            self.skip = Some(Skip {
                user: pair.user,
                lane,
                destination,
            });
        }
        let goes = matches!(choice, Choice::Goes(_)) || self.is_spent(pair.user);
        if is_held || !goes {
            let _there_is_room = self.stops.push(Stop {
                user: pair.user,
                destination,
            });
        }
    }

    // The lane of a user that runs nothing and has this next number.
    fn lane_with(&self, user: usize, number: u64) -> Option<usize> {
        for lane in 0..self.put_lanes {
            if let Some(seen) = self.lanes.get(self.index_of(user, lane))
                && seen.running.is_none()
                && seen.next == number
            {
                return Some(lane);
            }
        }
        None
    }

    /// The lane of a user that takes a file to an entity, by the lanes as they were looked at last. A file that no lane
    /// can ever take goes to the first one, which refuses it.
    pub fn lane_for(&self, user: usize, destination: EntityId) -> Option<usize> {
        if !self.has_seen_all {
            return None;
        }
        match self.choice(user, destination) {
            _ if self.is_spent(user) => Some(0),
            Some(Choice::Goes(number)) => self.lane_with(user, number),
            Some(_) => None,
            None => Some(0),
        }
    }

    /// Whether the next number of the lane of a skip is to be used up, by the lanes as they were looked at last.
    pub fn is_lagging(&self, skip: Skip) -> bool {
        match self.choice(skip.user, skip.destination) {
            Some(Choice::Skips(number)) if self.has_seen_all => self.lane_with(skip.user, number)
                == Some(skip.lane),
            _ => false,
        }
    }

    // What can be done for a file of a user to an entity that the configuration has.
    fn choice(&self, user: usize, destination: EntityId) -> Option<Choice> {
        let place = self.place_of(destination)?;
        let lineup = self.lineups.get(place)?;
        Some(lineup.choice(user, self.lanes.as_slice()))
    }

    /// The next number of a user's lane, as it was looked at last.
    pub fn next_of(&self, user: usize, lane: usize) -> u64 {
        match self.lanes.get(self.index_of(user, lane)) {
            Some(seen) => seen.next,
            None => 0,
        }
    }
}

// The transaction that a lane runs, by a glance at its last one. One after which the lane rests counts.
fn running_of(glance: &Glance, rests: bool) -> Option<Running> {
    if glance.has_ended && !rests {
        return None;
    }
    Some(Running {
        peer: glance.peer,
        number: glance.key.seq,
    })
}

// The greatest number of so many octets.
fn greatest_of(octets: u8) -> u64 {
    match 256u64.checked_pow(u32::from(octets)) {
        Some(numbers) => numbers.saturating_sub(1),
        None => u64::MAX,
    }
}

// A copy of the lanes of remote entities.
fn copied(alloc: Global, peers: &[PeerLanes]) -> Result<Vec<PeerLanes>, AllocError> {
    let mut all = Vec::with_capacity(alloc, peers.len())?;
    for peer in peers {
        all.push(*peer)?;
    }
    Ok(all)
}

// No number was used toward any remote entity.
fn lineups_of(
    alloc: Global,
    config: &Config,
    peers: &[PeerLanes],
) -> Result<Vec<Lineup>, AllocError> {
    let mut lineups = Vec::with_capacity(alloc, config.remotes())?;
    for place in 0..config.remotes() {
        if let Some(remote) = config.remote_at(place) {
            let lanes = lanes_toward(config, peers, remote.id);
            lineups.push(Lineup::new(alloc, remote.id, lanes)?)?;
        }
    }
    Ok(lineups)
}

/// How many receiving lanes a remote entity has for this one, 0 if it takes any numbers.
pub fn lanes_toward(config: &Config, peers: &[PeerLanes], remote: EntityId) -> usize {
    for peer in peers {
        if peer.remote == remote {
            return peer.lanes.unwrap_or(0) as usize;
        }
    }
    config.entity().receive_lanes
}
