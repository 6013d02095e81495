ghost use Rattle.std.specs.Prelude.{◌≡◌, IfOk};

use crate::bodies::{Ack, Acknowledged, Eof, FileData, Finished, KeepAlive, Metadata, Nak, Prompt};
use cfdp_types::{Boxed, Class, EntityId};
use std::alloc::AllocError;
use std::marker::Model;

/// The end of the transaction that a PDU goes to.
#[derive(Clone, Copy, Debug, PartialEq, Eq)]
pub enum Direction {
    TowardReceiver,
    TowardSender,
}

/// The header of a PDU (CCSDS 727.0-B-5, 5.1). The other fields of the fixed header follow from the body, or have
/// one value here.
#[derive(Clone, Copy, Debug, PartialEq, Eq)]
pub struct Header {
    pub direction: Direction,
    /// The transmission mode: class 1 is unacknowledged, class 2 acknowledged.
    pub class: Class,
    /// The large file flag: sizes and offsets have eight octets instead of four.
    pub large: bool,
    /// Octets of an entity ID, 1 to 8.
    pub entity_octets: u8,
    /// Octets of the transaction sequence number, 1 to 8.
    pub sequence_octets: u8,
    pub source: EntityId,
    pub sequence: u64,
    pub destination: EntityId,
}

/// The body of a PDU, by kind.
#[derive(Clone, Debug, Drop, PartialEq, Eq)]
pub enum Body {
    Eof(Eof),
    Finished(Finished),
    Ack(Ack),
    Metadata(Boxed<Metadata>),
    Nak(Nak),
    Prompt(Prompt),
    KeepAlive(KeepAlive),
    FileData(FileData),
}

/// A protocol data unit that can be written: each number fits its field, and so does the data field's length.
/// Contracts see the header and the body.
#[derive(Debug, Drop)]
pub struct Pdu {
    header: Header,
    body: Body,
}

impl Model for Pdu {
    ghost use Rattle.pdu_values.specs.Pdu.{PduValue};
    ghost use Rattle.pdu_values.specs.Spelling.{Fits};

    ghost Value = { PduValue };

    ghost view = { λ p. record { header = p.header; body = p.body } };

    ghost invariant = { λ p. Fits (record { header = p.header; body = p.body }) };
}

impl Pdu {
    ghost use Rattle.std.specs.Prelude.{◌≡◌};
    ghost use Rattle.pdu_values.specs.Pdu.{is_toward_sender};
    ghost use Rattle.pdu_values.specs.Spelling.{Fits};

    /// The PDU with this header and body, which must fit.
    pub fn new(header: Header, body: Body) -> Pdu
        requires { Fits (record { header = header; body = body }) }
        ensures { result ≡ record { header = header; body = body } }
    {
        Pdu { header, body }
    }

    /// The header.
    pub fn header(&self) -> &Header
        ensures { result.now ≡ self.now.header }
    {
        &self.header
    }

    /// The body.
    pub fn body(&self) -> &Body
        ensures { result.now ≡ self.now.body }
    {
        &self.body
    }

    /// The header and the body; the contract adds that they fit their fields.
    pub fn parts(&self) -> (&Header, &Body)
        ensures header { result.0.now ≡ self.now.header }
        ensures body { result.1.now ≡ self.now.body }
        ensures fits { Fits self.now }
    {
        (&self.header, &self.body)
    }

    /// Whether this kind of PDU goes toward the sender of the file.
    pub fn is_toward_sender(&self) -> bool
        ensures { result ≡ is_toward_sender self.now.body }
    {
        match &self.body {
            Body::Finished(_) | Body::Nak(_) | Body::KeepAlive(_) => true,
            Body::Ack(ack) => matches!(ack.of, Acknowledged::Eof),
            Body::Eof(_) | Body::Metadata(_) | Body::Prompt(_) | Body::FileData(_) => false,
        }
    }
}

impl Clone for Pdu {
    ghost is_clone = { λ pdu copy. copy ≡ pdu };

    fn clone(&self) -> Result<Pdu, AllocError> {
        let body = copy_of(&self.body)?;
        Ok(Pdu {
            header: self.header,
            body,
        })
    }
}

fn copy_of(body: &Body) -> Result<Body, AllocError>
    ensures { IfOk result (λ copy. copy ≡ body.now) }
{
    body.clone()
}
