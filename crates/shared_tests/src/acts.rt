//! Events for lanes, as data.

use crate::said::{Said, told};
use crate::watch::{TURNS, Watch, pause};
use cfdp_types::{Class, EntityId, PutRequest, TxnKey};
use entity_routing::{Place, Request};
use shared_entity::Entity;
use shared_lanes::Names;
use std::alloc::Global;
use std::sync::Wait;

/// The entity whose lanes receive the events.
pub(crate) const LOCAL: u8 = 2;

/// An event. A transaction is named by its source and its number.
#[derive(Clone, Copy)]
pub(crate) enum Act {
    /// A user puts the file `abc` from a lane, for an entity.
    Put(Place, u8),
    /// The Metadata and the EOF of an empty file in class 1.
    Metadata(u8, u8),
    Eof(u8, u8),
    Pump(u8, u8),
    Stored(u8, u8, u32),
}

/// The transaction ID of a source and a number.
pub(crate) fn key(source: u8, seq: u8) -> TxnKey {
    TxnKey {
        source: EntityId(u64::from(source)),
        seq: u64::from(seq),
    }
}

/// The Metadata of an empty file.
pub(crate) fn metadata(source: u8, seq: u8) -> [u8; 17] {
    [
        0x24, 0, 10, 0, source, seq, LOCAL, 7, 0, 0, 0, 0, 0, 1, b'a', 1, b'b',
    ]
}

/// The EOF of an empty file.
pub(crate) fn eof(source: u8, seq: u8) -> [u8; 17] {
    [
        0x24, 0, 10, 0, source, seq, LOCAL, 4, 0, 0, 0, 0, 0, 0, 0, 0, 0,
    ]
}

/// Passes an event to its lane.
pub(crate) fn tell<N: Names, R: Wait + Copy>(
    rt: &R,
    alloc: Global,
    entity: &Entity<N, R>,
    gate: &Watch<R>,
    act: Act,
) -> Said {
    match act {
        Act::Put(place, to) => put(rt, alloc, entity, gate, place, to),
        Act::Metadata(source, seq) => deliver(rt, entity, gate, &metadata(source, seq)),
        Act::Eof(source, seq) => deliver(rt, entity, gate, &eof(source, seq)),
        Act::Pump(source, seq) => told(entity.pump(rt, gate, key(source, seq))),
        Act::Stored(source, seq, stamp) => {
            told(entity.stored(rt, gate, key(source, seq), stamp, true))
        }
    }
}

fn deliver<N: Names, R: Wait + Copy>(
    rt: &R,
    entity: &Entity<N, R>,
    gate: &Watch<R>,
    octets: &[u8],
) -> Said {
    told(entity.deliver(rt, gate, octets))
}

// No entity refuses an event with this number: it means that no request was made.
const NOT_ASKED: Said = Said::Refused(0);

fn put<N: Names, R: Wait + Copy>(
    rt: &R,
    alloc: Global,
    entity: &Entity<N, R>,
    gate: &Watch<R>,
    place: Place,
    to: u8,
) -> Said {
    if place.user >= entity.users() || place.lane >= entity.put_lanes() {
        return NOT_ASKED;
    }
    let to = EntityId(u64::from(to));
    match PutRequest::new(alloc, to, Class::One, b"a", b"b", &[], b"abc") {
        Ok(file) => told(entity.request(rt, gate, place.user, Request::Put(place.lane, file))),
        Err(_) => NOT_ASKED,
    }
}

// The refusals of an event that comes too early: its transaction was not opened, its lane runs another, no deposit
// waits, or the user's queue is full.
const EARLY: [u8; 4] = [1, 3, 6, 13];

/// Passes an event to its lane, again and again while it comes too early. Returns whether the lane accepted it.
pub(crate) fn tell_in_time<N: Names, R: Wait + Copy>(
    rt: &R,
    alloc: Global,
    entity: &Entity<N, R>,
    gate: &Watch<R>,
    act: Act,
) -> bool {
    for _ in 0..TURNS {
        match tell(rt, alloc, entity, gate, act) {
            Said::Done { .. } => return true,
            Said::Refused(number) if EARLY.contains(&number) => pause(rt),
            Said::Refused(_) => return false,
        }
    }
    false
}
