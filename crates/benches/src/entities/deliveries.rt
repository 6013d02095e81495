//! Threads that deliver, each to its own lane.
ghost use Rattle.shared_entity.specs.Opening.{AreQueuesFor};

use crate::entities::datagrams::{given_up, metadata, part};
use crate::fault::Fault;
use entity_config::{Config, read_config};
use shared_entity::{Entity, queues_of};
use shared_lanes::{Names, NoGate};
use std::alloc::{AllocError, Global};
use std::marker::Brand;
use std::sync::Wait;
use std::thread;
use std::thread::Threads;
use test_configs::{EntityText, REFERENCE, text_of};
use user_queues::Queues;

/// How many threads deliver, and how many files come in the lane of each.
#[derive(Clone, Copy)]
pub(crate) struct Size {
    pub(crate) threads: u8,
    pub(crate) files: u8,
}

// Entity 2, which has eight lanes for the files of entity 1: the last three bits of a sequence number determine the
// lane.
const EIGHT_LANES: EntityText<'static> = EntityText {
    put_lanes: 1,
    receive_lanes: 8,
    capacity: 1024,
    users: &["alice"],
    ..REFERENCE
};

// How often the part of a file is delivered: all but the first bring nothing new, so nothing is indicated.
const REPEATS: u32 = 20_000;

// Delivers a datagram, and returns whether a lane accepted it.
fn is_taken<N: Names, R: Wait + Copy>(rt: &R, entity: &Entity<N, R>, octets: &[u8]) -> bool {
    matches!(entity.deliver(rt, &NoGate, octets), Ok(Ok(_)))
}

// Delivers a file's Metadata, its part again and again, and the EOF that gives it up. Returns how many datagrams were
// accepted; None if one wasn't.
fn file<N: Names, R: Wait + Copy>(
    rt: &R,
    alloc: Global,
    entity: &Entity<N, R>,
    sequence: u8,
) -> Result<Option<u64>, AllocError> {
    let part = part(alloc, sequence)?;
    if !is_taken(rt, entity, &metadata(sequence)) {
        return Ok(None);
    }
    for _ in 0..REPEATS {
        if !is_taken(rt, entity, part.as_slice()) {
            return Ok(None);
        }
    }
    if !is_taken(rt, entity, &given_up(sequence)) {
        return Ok(None);
    }
    Ok(Some(u64::from(REPEATS) + 2))
}

// Delivers this many files in a lane, one after the other. Returns how many datagrams were accepted; None if one
// wasn't.
fn files<N: Names, R: Wait + Copy>(
    rt: &R,
    alloc: Global,
    entity: &Entity<N, R>,
    lane: u8,
    count: u8,
) -> Result<Option<u64>, AllocError> {
    let mut taken = 0u64;
    for number in 0..count {
        let sequence = number.wrapping_mul(8).wrapping_add(lane);
        match file(rt, alloc, entity, sequence)? {
            Some(more) => taken = taken.saturating_add(more),
            None => return Ok(None),
        }
    }
    Ok(Some(taken))
}

// The lanes: one for each thread.
fn lanes_of(alloc: Global, threads: u8) -> Result<Vec<u8>, AllocError> {
    let mut lanes = Vec::new(alloc);
    for lane in 0..threads {
        lanes.push(lane)?;
    }
    Ok(lanes)
}

// How many datagrams were accepted in all lanes.
fn sum_of(all: &[Result<Option<u64>, AllocError>]) -> Result<u64, Fault> {
    let mut taken = 0u64;
    for came in all {
        match came {
            Ok(Some(more)) => taken = taken.saturating_add(*more),
            Ok(None) => return Err(Fault::NotTaken),
            Err(AllocError) => return Err(Fault::NoMemory),
        }
    }
    Ok(taken)
}

// Each thread delivers in a lane of its own. Returns how many datagrams were accepted.
fn deliver_all<N: Names + Send + Sync, R: Threads + Wait + Copy + Send + Sync>(
    rt: &R,
    alloc: Global,
    entity: &Entity<N, R>,
    size: Size,
) -> Result<u64, Fault> {
    let all = thread::map_vec(
        rt,
        lanes_of(alloc, size.threads)?,
        &|lane: u8| { files(rt, alloc, entity, lane, size.files) },
    )?;
    sum_of(all.as_slice())
}

/// Delivers, and returns how many datagrams were accepted.
pub(crate) fn come<R: Threads + Wait + Copy + Send + Sync>(
    rt: R,
    alloc: Global,
    size: Size,
) -> Result<u64, Fault> {
    let text = text_of(alloc, &EIGHT_LANES)?;
    let config = read_config(alloc, text.as_str())?;
    let queues = queues_of(rt, alloc, &config)?;
    come_named::<Brand, R>(rt, alloc, config, queues, size)
}

// Delivers over queues that `N` names: the proofs about an entity refer to its queues by that name, so it is a
// parameter.
fn come_named<N: Names + Send + Sync, R: Threads + Wait + Copy + Send + Sync>(
    rt: R,
    alloc: Global,
    config: Config,
    queues: Queues<R>,
    size: Size,
) -> Result<u64, Fault>
    requires { AreQueuesFor N.queue N.lanes config queues }
{
    let (entity, _ports) = Entity::<N, R>::open(alloc, config, queues)?;
    deliver_all(&rt, alloc, &entity, size)
}
