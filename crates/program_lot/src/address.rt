//! Which lane a datagram is for.
use entity_config::Config;
use entity_routing::{Place, key_of_pdu, place_of_pdu};
use pdu_codec::decode;
use std::alloc::Global;

/// The lane that a datagram is for, and the number of its transaction.
#[derive(Clone, Copy, Debug, PartialEq, Eq)]
pub struct LotAddress {
    pub place: Place,
    pub number: u64,
}

/// Where a datagram goes; `None` if it isn't a PDU for any lane, or if memory runs out.
pub fn address_of(alloc: Global, config: &Config, octets: &[u8]) -> Option<LotAddress> {
    let pdu = decode(alloc, octets).ok()?;
    let place = place_of_pdu(config, &pdu).ok()?;
    Some(LotAddress {
        place,
        number: key_of_pdu(&pdu).seq,
    })
}
