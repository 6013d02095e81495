//! A datagram that goes through an intake and a worker.
ghost use Rattle.std.specs.Prelude.{◌≡◌};

use crate::shared::{Answered, code_of, note_code};
use crate::transcript::Transcript;
use entity_workers::{
    Carrier, Intake, IntakeEnd, IntakeFault, IntakeSend, WorkersFault, run_workers,
};
use lane_table::{Done, Refused};
use shared_entity::{Entity, EntityRefusal};
use shared_lanes::{Names, NoGate};
use std::alloc::{AllocError, Global};
use std::sync::Wait;
use std::thread::Threads;

// The Metadata of a file of three octets in class 1, for the lane of the file that was kept before.
const METADATA: &[u8] = b"\x24\x00\x0a\x00\x01\x07\x02\x07\x00\x00\x00\x00\x03\x01\x61\x01\x62";

/// Keeps the answer to the last datagram, as a number.
#[derive(Drop)]
struct Slot {
    code: u64,
}

impl Carrier<Result<Done, Refused>> for Slot {
    ghost accepts = { λ slot answer. Unit {0} };

    fn carry(&mut self, answer: Answered)
        requires { Unit {0} }
    {
        self.code = code_of(&answer);
    }
}

// One carrier.
fn one_slot(alloc: Global) -> Result<Vec<Slot>, AllocError> {
    let made = Vec::with_capacity(alloc, 1);
    let mut slots = made.or_else(|_error| Vec::with_capacity(alloc, 1))?;
    slots.push(Slot { code: 0 })?;
    Ok(slots)
}

/// Notes whether an intake takes a datagram: one that waits for a worker, and one that no worker can receive any more.
/// Returns whether there was memory for the intake.
pub(crate) fn note_intake<R: Wait>(
    rt: &R,
    alloc: Global,
    transcript: &mut Transcript,
) -> Result<bool, AllocError> {
    match Intake::new(alloc, 1) {
        Ok((send, end)) => {
            transcript.note_made("Intake::new", true)?;
            note_sent(rt, transcript, &send)?;
            drop(end);
            note_sent(rt, transcript, &send)?;
            Ok(true)
        }
        Err(AllocError) => transcript.note_made("Intake::new", false),
    }
}

// Sends a datagram.
fn note_sent<R: Wait>(
    rt: &R,
    transcript: &mut Transcript,
    send: &IntakeSend,
) -> Result<(), AllocError> {
    if !note_send(transcript, send.send(rt, METADATA))? {
        note_send(transcript, send.send(rt, METADATA))?;
    }
    Ok(())
}

fn note_send(
    transcript: &mut Transcript,
    sent: Result<(), IntakeFault>,
) -> Result<bool, AllocError> {
    match sent {
        Ok(()) => transcript.note_made("Intake::send", true),
        Err(IntakeFault::NoMemory) => transcript.note_made("Intake::send", false),
        Err(IntakeFault::Closed) => {
            transcript.note("Intake::send", "closed")?;
            Ok(true)
        }
        Err(IntakeFault::Decode(_)) => {
            transcript.note("Intake::send", "no PDU")?;
            Ok(true)
        }
    }
}

// An intake in which the datagram waits, and to which no other can be sent.
fn filled<R: Wait>(rt: &R, alloc: Global) -> Result<IntakeEnd, AllocError> {
    let made = Intake::new(alloc, 1);
    let (send, end) = made.or_else(|_error| Intake::new(alloc, 1))?;
    if send.send(rt, METADATA).is_err() && send.send(rt, METADATA).is_err() {
        return Err(AllocError);
    }
    Ok(end)
}

/// Has a worker bring the datagram to its lane, and returns whether there was memory. A thread that can't be started
/// because memory ran out is reported as such.
pub(crate) fn carry<N: Names + Send + Sync, R: Threads + Wait + Copy + Send + Sync>(
    rt: &R,
    alloc: Global,
    transcript: &mut Transcript,
    entity: &Entity<N, R>,
) -> Result<bool, AllocError> {
    let end = filled(rt, alloc)?;
    let slots = one_slot(alloc)?;
    match run_workers(rt, alloc, entity, &end, slots, &NoGate) {
        Ok(back) => note_back(transcript, back),
        Err(WorkersFault::NoMemory) => transcript.note_made("run_workers", false),
        Err(WorkersFault::Start) => {
            transcript.note("run_workers", "no thread")?;
            Ok(false)
        }
    }
}

// Notes the answer of the worker's lane.
fn note_back(transcript: &mut Transcript, back: Vec<Slot>) -> Result<bool, AllocError> {
    for slot in back {
        return note_code(transcript, "run_workers", slot.code);
    }
    transcript.note("run_workers", "no answer")?;
    Ok(true)
}
