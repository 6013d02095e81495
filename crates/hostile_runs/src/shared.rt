//! Files for a shared entity: two in one thread, event by event, then one through a worker.
ghost use Rattle.shared_entity.specs.Opening.{AreQueuesFor};

use crate::reference;
use crate::transcript::Transcript;
use crate::working::{carry, note_intake};
use cfdp_types::{EntityId, TxnKey};
use entity_config::Config;
use indications::{Bundle, IndicationKind};
use lane_table::{Done, Refused};
use shared_entity::{Entity, EntityRefusal, queues_of};
use shared_lanes::{Names, NoGate};
use std::alloc::{AllocError, Global};
use std::marker::Brand;
use std::sync::Wait;
use std::thread::Threads;
use user_queues::{Queues, UserPort};

/// The answer of an entity whose gate has the lane step.
pub(crate) type Answered = Result<Result<Done, Refused>, EntityRefusal>;

// The Metadata and the EOF of an empty file in class 1, with two numbers: each file has a lane of its own.
const EMPTY_FILES: [&[u8]; 4] = [
    b"\x24\x00\x0a\x00\x01\x05\x02\x07\x00\x00\x00\x00\x00\x01a\x01b",
    b"\x24\x00\x0a\x00\x01\x05\x02\x04\x00\x00\x00\x00\x00\x00\x00\x00\x00",
    b"\x24\x00\x0a\x00\x01\x06\x02\x07\x00\x00\x00\x00\x00\x01a\x01b",
    b"\x24\x00\x0a\x00\x01\x06\x02\x04\x00\x00\x00\x00\x00\x00\x00\x00\x00",
];

// One more than the bundles that the first user may take.
const TAKES: u32 = 8;

/// Opens queues, and an entity with them, and delivers files to it.
pub(crate) fn play<R: Threads + Wait + Copy + Send + Sync>(
    rt: R,
    alloc: Global,
    transcript: &mut Transcript,
) -> Result<(), AllocError> {
    let config = reference(alloc)?;
    if !transcript.note_made("queues_of", queues_of(rt, alloc, &config).is_ok())? {
        transcript.note_made("queues_of", queues_of(rt, alloc, &config).is_ok())?;
    }
    if !note_intake(&rt, alloc, transcript)? {
        note_intake(&rt, alloc, transcript)?;
    }
    if !open_once(rt, alloc, transcript)? {
        open_once(rt, alloc, transcript)?;
    }
    Ok(())
}

// Opens an entity with the queues of the reference configuration, and returns whether there was memory for both.
fn open_once<R: Threads + Wait + Copy + Send + Sync>(
    rt: R,
    alloc: Global,
    transcript: &mut Transcript,
) -> Result<bool, AllocError> {
    let config = reference(alloc)?;
    let Ok(queues) = queues_of(rt, alloc, &config) else {
        return Ok(false);
    };
    play_named::<Brand, R>(rt, alloc, transcript, config, queues)
}

// Opens an entity with named queues, and plays. Returns whether there was memory. The entity is closed and not dropped,
// since the proof of what drops one is expensive.
fn play_named<N: Names + Send + Sync, R: Threads + Wait + Copy + Send + Sync>(
    rt: R,
    alloc: Global,
    transcript: &mut Transcript,
    config: Config,
    queues: Queues<R>,
) -> Result<bool, AllocError>
    requires { AreQueuesFor N.queue N.lanes config queues }
{
    match Entity::<N, R>::open(alloc, config, queues) {
        Ok((entity, ports)) => {
            let played = play_open(&rt, alloc, transcript, &entity, ports);
            entity.into_lanes();
            played?;
            Ok(true)
        }
        Err(AllocError) => transcript.note_made("Entity::open", false),
    }
}

// Delivers both files, of which the first is kept, and a datagram through a worker. Then the first user takes.
fn play_open<N: Names + Send + Sync, R: Threads + Wait + Copy + Send + Sync>(
    rt: &R,
    alloc: Global,
    transcript: &mut Transcript,
    entity: &Entity<N, R>,
    ports: Vec<UserPort>,
) -> Result<(), AllocError> {
    transcript.note_made("Entity::open", true)?;
    for octets in EMPTY_FILES {
        if !deliver(rt, transcript, entity, octets)? {
            deliver(rt, transcript, entity, octets)?;
        }
    }
    if !note_image(rt, transcript, entity)? {
        note_image(rt, transcript, entity)?;
    }
    if !note_stored(rt, transcript, entity)? {
        note_stored(rt, transcript, entity)?;
    }
    if !carry(rt, alloc, transcript, entity)? {
        carry(rt, alloc, transcript, entity)?;
    }
    take_all(rt, transcript, ports)
}

fn deliver<N: Names, R: Wait + Copy>(
    rt: &R,
    transcript: &mut Transcript,
    entity: &Entity<N, R>,
    octets: &[u8],
) -> Result<bool, AllocError> {
    let code = code_of(&entity.deliver(rt, &NoGate, octets));
    note_code(transcript, "deliver", code)
}

// The transaction of the first file.
const FIRST: TxnKey = TxnKey {
    source: EntityId(1),
    seq: 5,
};

fn note_image<N: Names, R: Wait + Copy>(
    rt: &R,
    transcript: &mut Transcript,
    entity: &Entity<N, R>,
) -> Result<bool, AllocError> {
    match &entity.image(rt, FIRST, 1) {
        Ok(image) => {
            let is_right = image.destination_name.as_slice() == b"b".as_slice()
                && image.octets.as_slice().is_empty();
            transcript.note("image", if is_right { "ok" } else { "another file" })?;
            Ok(true)
        }
        Err(refusal) => note_code(transcript, "image", u64::from(refusal.number())),
    }
}

fn note_stored<N: Names, R: Wait + Copy>(
    rt: &R,
    transcript: &mut Transcript,
    entity: &Entity<N, R>,
) -> Result<bool, AllocError> {
    let code = code_of(&entity.stored(rt, &NoGate, FIRST, 1, true));
    note_code(transcript, "stored", code)
}

/// An answer as a number. For a step it has the number of its transaction, and a digit each for the number of PDUs, the
/// number of timer operations, and the stamp of its deposit. A refusal has its own number.
pub(crate) fn code_of(answer: &Answered) -> u64 {
    match answer {
        Ok(Ok(done)) => {
            let pdus = done.pdus.as_slice().len() as u64;
            let timers = done.timers.as_slice().len() as u64;
            let stamp = match done.deposit {
                Some(deposit) => u64::from(deposit.stamp),
                None => 0,
            };
            let mut code = 0u64;
            for number in [done.key.seq, pdus, timers, stamp] {
                code = code.wrapping_mul(10).wrapping_add(number);
            }
            code
        }
        Ok(Err(refused)) => u64::from(refused.why.number()),
        Err(refusal) => u64::from(refusal.number()),
    }
}

// The number of the refusal that memory ran out.
const NO_MEMORY: u64 = 12;

/// Notes an answer that is a number; returns whether there was memory.
pub(crate) fn note_code(
    transcript: &mut Transcript,
    title: &str,
    code: u64,
) -> Result<bool, AllocError> {
    if code == NO_MEMORY {
        return transcript.note_made(title, false);
    }
    transcript.note_number(title, code)?;
    Ok(true)
}

// Has the first user take all bundles that wait.
fn take_all<R: Wait>(
    rt: &R,
    transcript: &mut Transcript,
    ports: Vec<UserPort>,
) -> Result<(), AllocError> {
    let Some(mut port) = ports.into_iter().next() else {
        return Ok(());
    };
    for _ in 0..TAKES {
        note_taken(transcript, &port.take(rt))?;
    }
    Ok(())
}

// Notes a bundle as a number: that of its transaction, and a digit for its last indication.
fn note_taken(transcript: &mut Transcript, taken: &Option<Bundle>) -> Result<(), AllocError> {
    let Some(bundle) = taken else {
        return transcript.note("take", "none");
    };
    let digit = match bundle.inds.as_slice().last() {
        Some(told) => digit_of(told.kind()),
        None => 0,
    };
    transcript.note_number("take", bundle.key.seq.wrapping_mul(10).wrapping_add(digit))
}

fn digit_of(kind: IndicationKind) -> u64 {
    match kind {
        IndicationKind::Metadata => 1,
        IndicationKind::EofRecv => 2,
        IndicationKind::End(_) => 3,
        _ => 9,
    }
}
