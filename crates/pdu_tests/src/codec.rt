use pdu_codec::{DecodeFault, Pdu, decode, encode, head_of};
use std::alloc::{AllocError, Global};
use std::test::*;

// The PDUs that are sent for two received files, one in each class, and for one that is put; a Prompt, a Keep Alive,
// and Metadata with messages.
const SENT: [&[u8]; 19] = [
    b"\x24\x00\x0a\x00\x01\x05\x02\x07\x00\x00\x00\x00\x03\x01\x61\x01\x62",
    b"\x34\x00\x07\x00\x01\x05\x02\x00\x00\x00\x00\x61\x62\x63",
    b"\x24\x00\x0a\x00\x01\x05\x02\x04\x00\x61\x62\x63\x00\x00\x00\x00\x03",
    b"\x20\x00\x0a\x00\x01\x05\x02\x07\x00\x00\x00\x00\x03\x01\x61\x01\x62",
    b"\x30\x00\x07\x00\x01\x05\x02\x00\x00\x00\x00\x61\x62\x63",
    b"\x20\x00\x0a\x00\x01\x05\x02\x04\x00\x61\x62\x63\x00\x00\x00\x00\x03",
    b"\x28\x00\x03\x00\x01\x05\x02\x06\x40\x01",
    b"\x28\x00\x02\x00\x01\x05\x02\x05\x02",
    b"\x20\x00\x0a\x00\x02\x04\x01\x07\x00\x00\x00\x00\x03\x01\x61\x01\x62",
    b"\x30\x00\x07\x00\x02\x04\x01\x00\x00\x00\x00\x61\x62\x63",
    b"\x20\x00\x0a\x00\x02\x04\x01\x04\x00\x61\x62\x63\x00\x00\x00\x00\x03",
    b"\x28\x00\x11\x00\x02\x04\x01\x08\x00\x00\x00\x00\x00\x00\x00\x03\x00\x00\x00\x01\x00\x00\x00\x02",
    b"\x30\x00\x05\x00\x02\x04\x01\x00\x00\x00\x01\x62",
    b"\x28\x00\x03\x00\x02\x04\x01\x06\x40\x01",
    b"\x28\x00\x02\x00\x02\x04\x01\x05\x02",
    b"\x20\x00\x03\x00\x02\x04\x01\x06\x51\x02",
    b"\x20\x00\x02\x00\x01\x05\x02\x09\x80",
    b"\x28\x00\x05\x00\x01\x05\x02\x0c\x00\x00\x00\x03",
    b"\x24\x00\x10\x00\x01\x05\x02\x07\x40\x00\x00\x00\x03\x01\x61\x01\x62\x02\x02\x68\x69\x02\x00",
];

fn write_copy(pdu: &Pdu, out: &mut Vec<u8>) -> Result<(), AllocError> {
    let copy = pdu.clone()?;
    encode(&copy, out)
}

// Writes a copy of the PDU that octets are read as.
fn write_again(alloc: Global, octets: &[u8], out: &mut Vec<u8>) -> Result<(), DecodeFault> {
    let pdu = decode(alloc, octets)?;
    write_copy(&pdu, out)?;
    Ok(())
}

// Whether octets are read as a PDU whose copy is written as the same octets.
fn is_read(alloc: Global, octets: &[u8]) -> bool {
    let mut out = Vec::new(alloc);
    write_again(alloc, octets, &mut out).is_ok() && out.as_slice() == octets
}

// How many octets their fixed header has.
const HEADER: usize = 7;

// Whether octets, cut at any place, are too short for their header or have another length than it says.
fn is_refused_cut(alloc: Global, octets: &[u8]) -> bool {
    for length in 0..octets.len() {
        let fault = if length < HEADER {
            DecodeFault::TooShort
        } else {
            DecodeFault::LengthMismatch
        };
        if decode(alloc, &octets[..length]).err() != Some(fault) {
            return false;
        }
    }
    true
}

// Whether the front of a datagram says as much of its PDU as the whole.
fn is_known_by_front(octets: &[u8]) -> bool {
    let front = &octets[..octets.len().min(HEADER + 1)];
    match (head_of(octets), head_of(front)) {
        (Some(whole), Some(cut)) => whole == cut && whole.kind.name() != "unknown directive",
        _ => false,
    }
}

#[test]
fn fronts_of_datagrams(rt: HostRuntime) {
    for octets in SENT {
        assert!(rt; is_known_by_front(octets), "{octets:?}");
    }
}

#[test]
fn datagrams_and_their_fronts(rt: HostRuntime) {
    for octets in SENT {
        assert!(rt; is_read(rt.alloc(), octets), "{octets:?}");
        assert!(rt; is_refused_cut(rt.alloc(), octets), "{octets:?}");
    }
}
