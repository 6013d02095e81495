ghost use Rattle.std.specs.Prelude.{◌≡◌, IfSome};
ghost use Rattle.program_udp.specs.Peers.{near_end_of, other_end_of, ListensAt};

use cfdp_types::EntityId;
use entity_config::Config;
use pdu_values::Pdu;
use std::net::SocketAddr;

/// The entity that a PDU goes to: the one at the other end of its transaction.
pub fn other_end_of(pdu: &Pdu) -> EntityId
    ensures { result ≡ other_end_of pdu.now }
{
    let header = pdu.header();
    if pdu.is_toward_sender() {
        header.source
    } else {
        header.destination
    }
}

/// The entity that a PDU comes from, if it goes the way that it says.
pub fn near_end_of(pdu: &Pdu) -> EntityId
    ensures { result ≡ near_end_of pdu.now }
{
    let header = pdu.header();
    if pdu.is_toward_sender() {
        header.destination
    } else {
        header.source
    }
}

/// The address of an entity by the configuration; `None` for an entity that isn't in it.
pub fn address_of(config: &Config, id: EntityId) -> Option<SocketAddr>
    ensures { IfSome result (ListensAt config.now id) }
{
    let text = config.address_of(id)?;
    text.parse().ok()
}
