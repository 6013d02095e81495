//! What the first octets of a datagram say of its PDU, where the rest may be missing.
ghost use Rattle.std.specs.Prelude.{◌≡◌};
ghost use Rattle.pdu_codec.specs.Heads.{head_of, head_with, kind_name, kind_of, kind_with};

use crate::fields::octet_at;
use crate::fixed_header::fixed_header_at;
use cfdp_types::{EntityId, TxnKey};
use pdu_reading::FixedHeader;
use pdu_values::Directive;

/// The kind of a PDU.
#[derive(Clone, Copy, Debug, PartialEq, Eq)]
pub enum PduKind {
    FileData,
    Directive(Directive),
    /// A directive whose code is missing or unknown.
    Unknown,
}

impl PduKind {
    /// Its name, as the standard writes it.
    pub fn name(self) -> &'static str
        ensures { result.now ≡ kind_name self }
    {
        match self {
            PduKind::FileData => "File Data",
            PduKind::Directive(Directive::Eof) => "EOF",
            PduKind::Directive(Directive::Finished) => "Finished",
            PduKind::Directive(Directive::Ack) => "ACK",
            PduKind::Directive(Directive::Metadata) => "Metadata",
            PduKind::Directive(Directive::Nak) => "NAK",
            PduKind::Directive(Directive::Prompt) => "Prompt",
            PduKind::Directive(Directive::KeepAlive) => "Keep Alive",
            PduKind::Unknown => "unknown directive",
        }
    }
}

/// The transaction of a PDU, and its kind.
#[derive(Clone, Copy, Debug, PartialEq, Eq)]
pub struct PduHead {
    pub key: TxnKey,
    pub kind: PduKind,
}

/// What the first octets of a datagram say of its PDU; `None` where they are not a fixed header of version 1.
pub fn head_of(octets: &[u8]) -> Option<PduHead>
    ensures { result ≡ head_of octets.now }
{
    match fixed_header_at(octets) {
        Some((fixed_header, field)) => head_with(&fixed_header, field),
        None => None,
    }
}

// The same, by the numbers of the header and the octets after it.
fn head_with(fixed_header: &FixedHeader, field: &[u8]) -> Option<PduHead>
    ensures { result ≡ head_with fixed_header.now field.now }
{
    if fixed_header.first / 32 != 1 {
        return None;
    }
    Some(PduHead {
        key: TxnKey {
            source: EntityId(fixed_header.source),
            seq: fixed_header.sequence,
        },
        kind: kind_of(fixed_header, field),
    })
}

// The kind of a PDU.
fn kind_of(fixed_header: &FixedHeader, field: &[u8]) -> PduKind
    ensures { result ≡ kind_of fixed_header.now field.now }
{
    if fixed_header.is_file_data() {
        return PduKind::FileData;
    }
    match octet_at(field) {
        Some((code, _)) => kind_with(Directive::with_code(code)),
        None => PduKind::Unknown,
    }
}

// The kind of a directive, where it is known.
fn kind_with(directive: Option<Directive>) -> PduKind
    ensures { result ≡ kind_with directive }
{
    match directive {
        Some(directive) => PduKind::Directive(directive),
        None => PduKind::Unknown,
    }
}
