//! Encoding and decoding protocol data units.
#![tactic(auto)]

mod decoding;
mod encoding;
mod fields;
mod fixed_header;
mod head;
pub mod laws;
mod options;
mod parts;
mod writing;

pub use decoding::decode;
pub use encoding::encode;
pub use head::{PduHead, PduKind, head_of};
pub use pdu_reading::DecodeFault;
pub use pdu_values::{
    Ack, Acknowledged, Body, Direction, Eof, FileData, Finished, Header, KeepAlive, Metadata, Nak,
    Pdu, Prompt, SegmentRequest, SegmentRequests, TransactionStatus,
};
