use cfdp_types::{Class, Condition, EntityId, PutRequest};
use std::alloc::Global;
use std::test::*;

const CODES: [(Condition, u8); 14] = [
    (Condition::NO_ERROR, 0),
    (Condition::POSITIVE_ACK_LIMIT, 1),
    (Condition::KEEP_ALIVE_LIMIT, 2),
    (Condition::INVALID_TRANSMISSION_MODE, 3),
    (Condition::FILESTORE_REJECTION, 4),
    (Condition::FILE_CHECKSUM_FAILURE, 5),
    (Condition::FILE_SIZE_ERROR, 6),
    (Condition::NAK_LIMIT, 7),
    (Condition::INACTIVITY, 8),
    (Condition::INVALID_FILE_STRUCTURE, 9),
    (Condition::CHECK_LIMIT, 10),
    (Condition::UNSUPPORTED_CHECKSUM_TYPE, 11),
    (Condition::SUSPEND_REQUEST, 14),
    (Condition::CANCEL_REQUEST, 15),
];

#[test]
fn codes(rt: HostRuntime) {
    for (condition, code) in CODES {
        assert!(rt; condition.code() == code, "{code}");
    }
}

// Whether a Put with two messages is made and copied.
fn is_copied(alloc: Global) -> bool {
    let messages: [&[u8]; 2] = [b"m", b"n"];
    match PutRequest::new(
        alloc,
        EntityId(1),
        Class::Two,
        b"a",
        b"b",
        &messages,
        b"abc",
    ) {
        Ok(put) => put.copy().is_ok(),
        Err(_) => false,
    }
}

#[test]
fn puts_with_messages(rt: HostRuntime) {
    assert!(rt; is_copied(rt.alloc()));
}
