use cfdp_types::Octets;
use pdu_codec::{DecodeFault, Pdu, decode};
use std::alloc::{AllocError, Global};
use std::marker::Model;

/// A datagram that waits in an intake: its octets, and the PDU that they are.
#[derive(Drop)]
pub struct Message {
    octets: Octets,
    pdu: Pdu,
}

impl Model for Message {
    ghost use Rattle.entity_workers.specs.Messages.{IsDecoded, MessageValue};

    ghost Value = { MessageValue };

    ghost view = { λ m. record { octets = m.octets; pdu = m.pdu } };

    ghost invariant = { λ m. IsDecoded (record { octets = m.octets; pdu = m.pdu }) };
}

impl Message {
    ghost use Rattle.std.specs.Prelude.{◌≡◌, Err, IsOk, Ok};
    ghost use Rattle.pdu_reading.specs.Reading.{reading};
    ghost use Rattle.entity_workers.specs.Messages.{IsMessageOf};

    /// Decodes a datagram, and keeps a copy of its octets.
    pub fn new(alloc: Global, octets: &[u8]) -> Result<Message, DecodeFault>
        ensures exact { IsMessageOf octets.now result }
        ensures memory { result ≡ Err DecodeFault.NoMemory → IsOk (reading octets.now) }
    {
        let pdu = decode(alloc, octets)?;
        match Octets::from_slice(alloc, octets) {
            Ok(octets) => Ok(Message { octets, pdu }),
            Err(AllocError) => Err(DecodeFault::NoMemory),
        }
    }

    /// The octets of the datagram.
    pub fn octets(&self) -> &Octets
        ensures { result.now ≡ self.now.octets }
    {
        &self.octets
    }

    /// Takes the PDU out of the message.
    pub fn into_pdu(self) -> Pdu
        ensures pdu { result ≡ self.pdu }
        ensures decoded { reading self.octets ≡ Ok result }
    {
        let Message { pdu, .. } = self;
        pdu
    }
}
