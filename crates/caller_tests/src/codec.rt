use pdu_codec::{DecodeFault, decode, encode};
use std::alloc::Global;

/// Reads a datagram, and writes its PDU again.
fn written_again(alloc: Global, datagram: &[u8]) -> Result<Vec<u8>, DecodeFault> {
    let pdu = decode(alloc, datagram)?;
    let mut octets = Vec::new(alloc);
    encode(&pdu, &mut octets)?;
    Ok(octets)
}

// ---- the test

use std::test::*;

// An ACK of an EOF without a fault.
const ACK: &[u8] = &[0x28, 0, 3, 0, 1, 5, 2, 6, 0x40, 1];

#[test]
fn a_pdu_is_written_as_it_was_read(rt: HostRuntime) -> Result<(), Fail> {
    match written_again(rt.alloc(), ACK) {
        Err(_) => Err(Fail::from("an ACK is read")),
        Ok(octets) => {
            assert_eq!(rt; octets.as_slice(), ACK);
            Ok(())
        }
    }
}
