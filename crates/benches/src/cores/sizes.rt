//! Sizes of the values passed on for each datagram.
use indications::Indication;
use lane_table::Refused;
use pdu_codec::Pdu;
use receiver_core::Plan;
use std::mem::size_of;
use txn_events::Event;

/// A type whose size is measured.
#[derive(Clone, Copy)]
pub(crate) enum Sized {
    Event,
    Pdu,
    Indication,
    Refused,
    Plan,
}

/// The octets that a value of the type takes, without what it has elsewhere in memory.
pub(crate) fn size_in_octets(sized: Sized) -> u64 {
    let octets = match sized {
        Sized::Event => size_of::<Event>(),
        Sized::Pdu => size_of::<Pdu>(),
        Sized::Indication => size_of::<Indication>(),
        Sized::Refused => size_of::<Refused>(),
        Sized::Plan => size_of::<Plan>(),
    };
    octets as u64
}
