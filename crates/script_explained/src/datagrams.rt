//! Datagrams in words. Each function appends to `text`; after an `Err` the text is not to be used.
use crate::{push_pdu_words, push_transaction_words, push_way_words};
use pdu_codec::{DecodeFault, decode};
use std::alloc::{AllocError, Global};

/// Adds what a datagram says: a line for its header and one for its body, or one for the fault of decoding it. Returns
/// whether it is a PDU.
pub fn push_datagram(alloc: Global, text: &mut String, octets: &[u8]) -> Result<bool, AllocError> {
    match decode(alloc, octets) {
        Ok(pdu) => {
            push_transaction_words(text, pdu.header())?;
            text.push_str(", ")?;
            push_way_words(text, pdu.header())?;
            text.push_str("\n")?;
            push_pdu_words(alloc, text, &pdu)?;
            text.push_str("\n")?;
            Ok(true)
        }
        Err(DecodeFault::NoMemory) => Err(AllocError),
        Err(fault) => {
            let number = fault.number();
            let words = fault_words(fault);
            writeln!(text, "decode fault {number}, {words}")?;
            Ok(false)
        }
    }
}

/// Adds a line of comment for what a datagram says, or why it is not a PDU.
pub(crate) fn push_pdu_comment(
    alloc: Global,
    text: &mut String,
    octets: &[u8],
) -> Result<(), AllocError> {
    match decode(alloc, octets) {
        Ok(pdu) => {
            text.push_str("# ")?;
            push_pdu_words(alloc, text, &pdu)?;
            text.push_str("\n")
        }
        Err(DecodeFault::NoMemory) => Err(AllocError),
        Err(fault) => {
            let words = fault_words(fault);
            writeln!(text, "# no PDU: {words}")
        }
    }
}

// What a fault of decoding means.
fn fault_words(fault: DecodeFault) -> &'static str {
    match fault {
        DecodeFault::TooShort => "the datagram is too short for a header",
        DecodeFault::BadVersion => "the version is not 001",
        DecodeFault::CrcPresent => "the CRC flag is set",
        DecodeFault::LengthMismatch => "the length is not that of the header and the data field",
        DecodeFault::UnknownDirective => "the directive is unknown",
        DecodeFault::FieldCut => "the data field ends within a field or goes on after the last",
        DecodeFault::NoFileName => "a file name is empty",
        DecodeFault::NoMemory => "no memory",
    }
}
