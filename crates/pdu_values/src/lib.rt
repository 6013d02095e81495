//! Protocol data units as values: what each kind holds, how it is spelled in octets, and what fits the fields.
#![tactic(auto)]

mod bodies;
mod constructors;
mod directive;
mod pdu;
mod requests;
mod sizes;
mod widths;

pub use bodies::{
    Ack, Acknowledged, Eof, FileData, Finished, KeepAlive, Metadata, Nak, Prompt, TransactionStatus,
};
pub use directive::Directive;
pub use pdu::{Body, Direction, Header, Pdu};
pub use requests::{SegmentRequest, SegmentRequests};
pub use widths::octets_for;
