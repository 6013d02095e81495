//! The addresses of remote entities, looked up once.
ghost use Rattle.std.specs.Prelude.{◌≡◌, ◌↔◌, All, IfOk, IfSome, IsTrue};
ghost use Rattle.config_reading.specs.Values.{ConfigValue};
ghost use Rattle.program_udp.specs.Peers.{FirstAt, Fits, IsAt, ListensAt, StandsAt, peer_among};

use crate::peers::address_of;
use cfdp_types::EntityId;
use entity_config::Config;
use std::alloc::{AllocError, Global};
use std::net::SocketAddr;

/// A remote entity and its address.
#[derive(Clone, Copy, Debug, Drop)]
pub struct PeerAddress {
    pub id: EntityId,
    /// Its number among the remote entities of the configuration.
    pub place: usize,
    pub address: SocketAddr,
}

/// What of a source address is compared with an entity's address.
#[derive(Clone, Copy, Debug, PartialEq, Eq)]
pub enum Compared {
    Whole,
    /// The host alone, whatever the port.
    Host,
}

/// The remote entities of a configuration whose address can be read, with their addresses.
pub fn addresses_of(alloc: Global, config: &Config) -> Result<Vec<PeerAddress>, AllocError>
    ensures listens { IfOk result (λ peers. All (λ peer. ListensAt config.now peer.id peer.address) peers.items) }
    ensures stands { IfOk result (λ peers. All (λ peer. StandsAt config.now peer) peers.items) }
{
    let mut peers = Vec::with_capacity(alloc, config.remotes())?;
    for place in 0..config.remotes() {
        if let Some(peer) = peer_at(config, place) {
            peers.push(peer)?;
        }
    }
    Ok(peers)
}

// The remote entity with this number in a configuration, if its address can be read.
fn peer_at(config: &Config, place: usize) -> Option<PeerAddress>
    ensures listens { IfSome result (λ peer. ListensAt config.now peer.id peer.address) }
    ensures stands { IfSome result (λ peer. StandsAt config.now peer) }
{
    let id = config.remote_at(place)?.id;
    let address = address_of(config, id)?;
    Some(PeerAddress { id, place, address })
}

/// The first entity with this ID, if there is one.
pub fn peer_among(peers: &[PeerAddress], id: EntityId) -> Option<PeerAddress>
    ensures found { result ≡ peer_among peers.now id }
    ensures listens { (config : ConfigValue) → All (λ peer. ListensAt config peer.id peer.address) peers.now
        → IfSome result (λ peer. ListensAt config id peer.address) }
{
    match peers {
        [] => None,
        [first, rest @ ..] => {
            if first.id == id {
                Some(*first)
            } else {
                peer_among(rest, id)
            }
        }
    }
}

/// The number in the configuration of the first entity whose address fits this one.
pub fn place_of_address(
    peers: &[PeerAddress],
    address: SocketAddr,
    compared: Compared,
) -> Option<usize>
    ensures { FirstAt compared peers.now address result }
{
    match peers {
        [] => None,
        [first, rest @ ..] => {
            if fits(first, address, compared) {
                Some(first.place)
            } else {
                place_of_address(rest, address, compared)
            }
        }
    }
}

/// Whether the first entity with this ID has this address.
pub fn is_at(peers: &[PeerAddress], id: EntityId, address: SocketAddr) -> bool
    ensures { IsTrue result ↔ IsAt (peer_among peers.now id) address }
{
    match peer_among(peers, id) {
        Some(peer) => fits(&peer, address, Compared::Whole),
        None => false,
    }
}

// Whether an entity's address fits this one.
fn fits(peer: &PeerAddress, address: SocketAddr, compared: Compared) -> bool
    ensures { IsTrue result ↔ Fits compared peer.now.address address }
{
    match compared {
        Compared::Whole => peer.address == address,
        Compared::Host => peer.address.ip() == address.ip(),
    }
}
