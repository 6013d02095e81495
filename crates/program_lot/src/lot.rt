//! The lot that threads share.
use crate::address::LotAddress;
use crate::handed::{Handed, ParkEnd};
use crate::report::ParkedLane;
use crate::settled::Settled;
use entity_config::Config;
use entity_routing::{Place, lanes_of};
use program_parking::{LaneParking, Outcome, Parking};
use std::alloc::{AllocError, Global};
use std::sync::atomic::{AtomicBool, Ordering};
use std::sync::{Mutex, Wait};

/// After how many milliseconds a datagram that was refused again is tried again, if nothing was heard of its lane.
const RETRY_MS: u64 = 5;

// When a lane's first datagram is tried next, whether it waits for room in its user's queue, and how many of the lane's
// datagrams were dropped.
#[derive(Clone, Copy)]
struct Turn {
    due: u64,
    wants_room: bool,
    dropped: u64,
}

// What waits, and when it is tried.
#[derive(Drop)]
struct Lanes {
    parking: Parking,
    turns: Vec<Turn>,
    /// The lane looked at first.
    first: usize,
}

/// Datagrams that wait until their lanes can take them. Each lane's are handed in one at a time, so they reach the lane
/// in order. All threads share it. A thread that waits for its lock holds no other meanwhile.
#[derive(Drop)]
pub struct Lot {
    lanes: Mutex<Lanes>,
    /// For each user the index of the first lane.
    first_of: Vec<usize>,
    /// Whether anything waits, and whether some of it may be handed in at once; for threads that look often.
    is_occupied: AtomicBool,
    is_ready: AtomicBool,
    /// Whether the station takes from its users' queues.
    takes: bool,
}

impl Lot {
    /// An empty lot for the lanes of a configuration, with room for so many octets. `takes` says whether the station
    /// itself takes from its users' queues.
    pub fn new(alloc: Global, config: &Config, room: u64, takes: bool) -> Result<Lot, AllocError> {
        let mut first_of = Vec::with_capacity(alloc, config.users())?;
        let mut count = 0usize;
        for user in 0..config.users() {
            first_of.push(count)?;
            count = count.saturating_add(lanes_of(config, user));
        }
        let turns = Vec::from_elem(
            alloc,
            Turn {
                due: 0,
                wants_room: false,
                dropped: 0,
            },
            count,
        )?;
        Ok(Lot {
            lanes: Mutex::new(Lanes {
                parking: Parking::new(alloc, sources_of(alloc, config)?, config.remotes(), room)?,
                turns,
                first: 0,
            }),
            first_of,
            is_occupied: AtomicBool::new(false),
            is_ready: AtomicBool::new(false),
            takes,
        })
    }

    /// Whether the station takes from its users' queues.
    pub fn takes(&self) -> bool {
        self.takes
    }

    /// Whether anything waits. Takes no lock.
    pub fn is_occupied(&self) -> bool {
        self.is_occupied.load(Ordering::SeqCst)
    }

    /// Whether something may be handed in at once. Takes no lock.
    pub fn is_ready(&self) -> bool {
        self.is_ready.load(Ordering::SeqCst)
    }

    // The index of a lane, over all users.
    fn index_of(&self, place: Place) -> usize {
        match self.first_of.get(place.user) {
            Some(first) => first.saturating_add(place.lane),
            None => usize::MAX,
        }
    }

    /// Whether a datagram has to wait behind others of its lane: one waits whose number isn't above its own.
    pub fn is_crowded<R: Wait>(&self, rt: &R, address: LotAddress) -> bool {
        let index = self.index_of(address.place);
        let lanes = self.lanes.lock(rt);
        match lanes.parking.lanes().get(index) {
            Some(lane) => lane.is_crowded(address.number),
            None => false,
        }
    }

    /// Parks a datagram that came at `since`, in milliseconds since 1970; `now` is the moment by the runtime's clock.
    /// If there is no room or memory, it or others are dropped: without memory, first the later half of what waits for
    /// each lane.
    pub fn park<R: Wait>(
        &self,
        rt: &R,
        address: LotAddress,
        octets: &[u8],
        since: u64,
        now: u64,
    ) -> ParkEnd {
        let index = self.index_of(address.place);
        let mut lanes = self.lanes.lock(rt);
        let was_empty = !self.is_occupied();
        let dropped = park_in(&mut lanes, index, address.number, octets, since, now);
        self.note(&lanes);
        drop(lanes);
        ParkEnd {
            wakes: was_empty,
            dropped,
        }
    }

    /// Takes a datagram to be handed in, from a lane whose turn it is at a moment; at 0 only from a lane that was heard
    /// of since its last try, or whose last datagram was taken. `None` if there is none, or no memory.
    pub fn lend<R: Wait>(&self, rt: &R, now: u64) -> Option<Handed> {
        let mut lanes = self.lanes.lock(rt);
        let handed = lend_from(&mut lanes, now);
        self.note(&lanes);
        handed
    }

    /// Settles a datagram that was handed in. One that waits is tried again from `now` + 5 milliseconds on.
    pub fn settle<R: Wait>(&self, rt: &R, handed: Handed, settled: Settled, now: u64) {
        let mut lanes = self.lanes.lock(rt);
        settle_in(&mut lanes, &handed, settled, now);
        self.note(&lanes);
    }

    /// Memory ran out somewhere: drops the later half of what waits for each lane, and returns how many datagrams that
    /// was.
    pub fn give_way<R: Wait>(&self, rt: &R) -> usize {
        if !self.is_occupied() {
            return 0;
        }
        let mut lanes = self.lanes.lock(rt);
        let dropped = give_way_in(&mut lanes);
        self.note(&lanes);
        dropped
    }

    /// A lane was heard of: what waits for it may be handed in.
    pub fn poke<R: Wait>(&self, rt: &R, place: Place) {
        let index = self.index_of(place);
        let mut lanes = self.lanes.lock(rt);
        if let Some(turn) = lanes.turns.get_mut(index) {
            turn.due = 0;
        }
        self.note(&lanes);
    }

    /// There is room in queues again: what waits for that may be handed in.
    pub fn poke_wanting_room<R: Wait>(&self, rt: &R) {
        let mut lanes = self.lanes.lock(rt);
        for turn in lanes.turns.iter_mut() {
            if turn.wants_room {
                turn.due = 0;
            }
        }
        self.note(&lanes);
    }

    /// Drops what waits of a transaction, and returns how many datagrams that was.
    pub fn forget<R: Wait>(&self, rt: &R, address: LotAddress) -> usize {
        let index = self.index_of(address.place);
        let mut lanes = self.lanes.lock(rt);
        let before = count_in(&lanes, index);
        lanes.parking.forget(index, address.number);
        let dropped = before.saturating_sub(count_in(&lanes, index));
        self.note(&lanes);
        dropped
    }

    /// The first moment at which something is to be handed in, or the greatest of 64 bits.
    pub fn soonest<R: Wait>(&self, rt: &R) -> u64 {
        if !self.is_occupied() {
            return u64::MAX;
        }
        let lanes = self.lanes.lock(rt);
        soonest_of(&lanes)
    }

    /// How many datagrams were dropped for want of room or memory.
    pub fn dropped<R: Wait>(&self, rt: &R) -> u64 {
        let lanes = self.lanes.lock(rt);
        lanes
            .turns
            .iter()
            .fold(0u64, |sum, turn| sum.saturating_add(turn.dropped))
    }

    /// The lanes for which datagrams wait or were dropped.
    pub fn report<R: Wait>(&self, rt: &R, alloc: Global) -> Result<Vec<ParkedLane>, AllocError> {
        let mut found = Vec::new(alloc);
        let lanes = self.lanes.lock(rt);
        for user in 0..self.first_of.len() {
            let first = self.first_of.get(user).copied().unwrap_or(0);
            for index in first..self.end_of(user, lanes.turns.len()) {
                let place = Place {
                    user,
                    lane: index.saturating_sub(first),
                };
                if let Some(lane) = report_of(&lanes, index, place) {
                    found.push(lane)?;
                }
            }
        }
        Ok(found)
    }

    // The index after a user's last lane, of so many in all.
    fn end_of(&self, user: usize, count: usize) -> usize {
        self.first_of
            .get(user.saturating_add(1))
            .copied()
            .unwrap_or(count)
    }

    // Notes what waits, for those who take no lock.
    fn note(&self, lanes: &Lanes) {
        self.is_occupied
            .store(lanes.parking.used() > 0, Ordering::SeqCst);
        self.is_ready
            .store(soonest_of(lanes) == 0, Ordering::SeqCst);
    }
}

// Each lane's source, over all users: a number for each remote entity, and one more for the entity itself.
fn sources_of(alloc: Global, config: &Config) -> Result<Vec<usize>, AllocError> {
    let entity = config.entity();
    let mut sources = Vec::new(alloc);
    let mut first = 0usize;
    for user in 0..config.users() {
        for _lane in 0..entity.put_lanes {
            sources.push(config.remotes())?;
        }
        for place in 0..config.sources(user) {
            for _lane in 0..entity.receive_lanes {
                sources.push(first.saturating_add(place))?;
            }
        }
        first = first.saturating_add(config.sources(user));
    }
    Ok(sources)
}

// How many datagrams wait for a lane.
fn count_in(lanes: &Lanes, index: usize) -> usize {
    match lanes.parking.lanes().get(index) {
        Some(lane) => lane.len(),
        None => 0,
    }
}

// Parks a datagram. Counts what is dropped for it, and returns how many datagrams that was.
fn park_in(
    lanes: &mut Lanes,
    index: usize,
    number: u64,
    octets: &[u8],
    since: u64,
    now: u64,
) -> usize {
    if count_in(lanes, index) == 0
        && let Some(turn) = lanes.turns.get_mut(index)
    {
        turn.due = now.saturating_add(RETRY_MS);
    }
    let made = make_room_in(lanes, index, number, octets.len());
    let before = count_in(lanes, index);
    if lanes.parking.park(index, number, since, octets).is_ok() {
        return made.saturating_add(note_dropped(lanes, index, before.saturating_add(1)));
    }
    let given_up = made.saturating_add(give_way_in(lanes));
    let left = count_in(lanes, index);
    let _has_memory = lanes.parking.park(index, number, since, octets);
    given_up.saturating_add(note_dropped(lanes, index, left.saturating_add(1)))
}

// Makes room for a datagram of so many octets, where another lane gives way to it. Counts what is dropped there, and
// returns how many datagrams that was.
fn make_room_in(lanes: &mut Lanes, index: usize, number: u64, octets: usize) -> usize {
    let Some(holder) = lanes.parking.giving(index, number, octets) else {
        return 0;
    };
    let before = count_in(lanes, holder.place);
    lanes.parking.shorten(holder);
    note_dropped(lanes, holder.place, before)
}

// Counts what was dropped of a lane that had so many datagrams, and returns how many datagrams that was.
fn note_dropped(lanes: &mut Lanes, index: usize, before: usize) -> usize {
    let dropped = before.saturating_sub(count_in(lanes, index));
    if let Some(turn) = lanes.turns.get_mut(index) {
        turn.dropped = turn.dropped.saturating_add(dropped as u64);
    }
    dropped
}

// Drops the later half of what waits for each lane. Counts it, and returns how many datagrams that was.
fn give_way_in(lanes: &mut Lanes) -> usize {
    let mut dropped = 0usize;
    for index in 0..lanes.turns.len() {
        let before = count_in(lanes, index);
        lanes.parking.give_way(index);
        dropped = dropped.saturating_add(note_dropped(lanes, index, before));
    }
    dropped
}

// Whether something of a lane may be handed in.
fn is_lendable(lane: &LaneParking) -> bool {
    lane.len() > 0 && !lane.is_lent()
}

// The first moment at which something is to be handed in.
fn soonest_of(lanes: &Lanes) -> u64 {
    let mut soonest = u64::MAX;
    for index in 0..lanes.turns.len() {
        if let (Some(turn), Some(lane)) = (lanes.turns.get(index), lanes.parking.lanes().get(index))
            && is_lendable(lane)
        {
            soonest = soonest.min(turn.due);
        }
    }
    soonest
}

// Whether it is a lane's turn at a moment.
fn is_due(lanes: &Lanes, index: usize, now: u64) -> bool {
    match (lanes.turns.get(index), lanes.parking.lanes().get(index)) {
        (Some(turn), Some(lane)) => turn.due <= now && is_lendable(lane),
        _ => false,
    }
}

// Takes a datagram of the next lane in turn. Without memory for that, drops the later half of what waits for each lane.
fn lend_from(lanes: &mut Lanes, now: u64) -> Option<Handed> {
    let count = lanes.turns.len();
    for step in 0..count {
        let index = lanes.first.saturating_add(step) % count;
        if !is_due(lanes, index, now) {
            continue;
        }
        lanes.first = index.saturating_add(1) % count;
        let Ok(lent) = lanes.parking.lend(index) else {
            let _dropped = give_way_in(lanes);
            return None;
        };
        let lent = lent?;
        return Some(Handed {
            index,
            number: lent.number,
            arrival: lent.arrival,
            octets: lent.octets,
        });
    }
    None
}

// Settles a datagram that was handed in. Counts those before one that was taken as dropped, because they came too late.
fn settle_in(lanes: &mut Lanes, handed: &Handed, settled: Settled, now: u64) {
    let outcome = settled.outcome();
    let mut before = count_in(lanes, handed.index);
    if outcome != Outcome::Waits && waits_in(lanes, handed) {
        before = before.saturating_sub(1);
    }
    lanes
        .parking
        .settle(handed.index, handed.number, handed.arrival, outcome);
    let _late = note_dropped(lanes, handed.index, before);
    if let Some(turn) = lanes.turns.get_mut(handed.index) {
        turn.wants_room = settled == Settled::WantsRoom;
        turn.due = if outcome == Outcome::Waits {
            now.saturating_add(RETRY_MS)
        } else {
            0
        };
    }
}

// Whether a datagram that was handed in still waits, and wasn't dropped meanwhile.
fn waits_in(lanes: &Lanes, handed: &Handed) -> bool {
    match lanes.parking.lanes().get(handed.index) {
        Some(lane) => lane.has(handed.number, handed.arrival),
        None => false,
    }
}

// What is reported of a lane, if anything waits for it or was dropped.
fn report_of(lanes: &Lanes, index: usize, place: Place) -> Option<ParkedLane> {
    let turn = lanes.turns.get(index)?;
    let lane = lanes.parking.lanes().get(index)?;
    let datagrams = lane.len() as u64;
    if datagrams == 0 && turn.dropped == 0 {
        return None;
    }
    let since = if datagrams == 0 {
        None
    } else {
        Some(lane.oldest())
    };
    Some(ParkedLane {
        place,
        datagrams,
        octets: lane.octets(),
        transactions: lane.transactions(),
        dropped: turn.dropped,
        since,
    })
}
