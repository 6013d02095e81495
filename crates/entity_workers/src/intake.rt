//! The intake: datagrams are decoded, and wait for the workers.
ghost use Rattle.std.specs.Prelude.{◌≡◌, ◌⊎◌, ◌<◌, IfErr, IsErr};
ghost use Rattle.pdu_reading.specs.Reading.{reading};
ghost use Rattle.entity_workers.specs.Faults.{IsNotTaken};

use crate::fault::IntakeFault;
use crate::message::Message;
use crossbeam_channel::{Receiver, SendError, Sender, bounded};
use pdu_codec::DecodeFault;
use std::alloc::{AllocError, Global};
use std::sync::Wait;

/// A bounded queue of decoded datagrams, from the threads that receive them to the workers.
pub struct Intake;

/// The sending end of an intake, for datagrams.
#[derive(Drop)]
pub struct IntakeSend {
    to: Sender<Message>,
    alloc: Global,
}

/// The receiving end of an intake, for workers.
#[derive(Drop)]
pub struct IntakeEnd {
    from: Receiver<Message>,
}

impl Intake {
    /// Both ends of an intake with room for `capacity` datagrams.
    pub fn new(alloc: Global, capacity: usize) -> Result<(IntakeSend, IntakeEnd), AllocError>
        requires { 0 < capacity }
    {
        let (to, from) = bounded(alloc, capacity)?;
        Ok((IntakeSend { to, alloc }, IntakeEnd { from }))
    }
}

impl IntakeSend {
    /// Decodes a datagram and queues it, waiting for room. Of several faults the first is reported: the octets are not
    /// a PDU, memory ran out, no worker is left to receive it.
    pub fn send<R: Wait>(&self, rt: &R, octets: &[u8]) -> Result<(), IntakeFault>
        ensures why { IfErr result (IsNotTaken (reading octets.now)) }
        ensures unread { IsErr (reading octets.now) → IsErr result }
    {
        match Message::new(self.alloc, octets) {
            Ok(message) => self.queue(rt, octets, message),
            Err(DecodeFault::NoMemory) => Err(IntakeFault::NoMemory),
            Err(fault) => Err(IntakeFault::Decode(fault)),
        }
    }

    // Queues the message of a datagram, and no other.
    fn queue<R: Wait>(&self, rt: &R, _octets: &[u8], message: Message) -> Result<(), IntakeFault>
        requires { message.octets ≡ _octets.now }
        ensures { IfErr result (λ fault. (fault ≡ IntakeFault.NoMemory) ⊎ (fault ≡ IntakeFault.Closed)) }
    {
        match self.to.send(rt, message) {
            Ok(()) => Ok(()),
            Err(SendError::OutOfMemory(_)) => Err(IntakeFault::NoMemory),
            Err(SendError::Disconnected(_)) => Err(IntakeFault::Closed),
        }
    }
}

impl IntakeEnd {
    /// Returns the next message, and waits for one. None once no sender is left and no message is waiting.
    pub fn receive<R: Wait>(&self, rt: &R) -> Option<Message> {
        self.from.recv(rt).ok()
    }
}
