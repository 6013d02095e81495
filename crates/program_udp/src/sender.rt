use crate::addresses::{Compared, PeerAddress, addresses_of, is_at, peer_among, place_of_address};
use crate::peers::{near_end_of, other_end_of};
use crate::room::has_room;
use entity_config::Config;
use lane_table::Done;
use pdu_codec::encode;
use pdu_values::Pdu;
use program_tallies::{Links, Traffic};
use shared_entity::EntityRefusal;
use std::alloc::{AllocError, Global};
use std::net::{SocketAddr, UdpSocket};

// Enough for each PDU that an entity sends: its File Data have at most 1,400 octets of file, its Metadata two names and
// four messages of at most 255 octets each, its NAKs at most 64 requests, and a header has at most 28 octets.
const PDU_OCTETS: usize = 2_048;

/// Sends PDUs through a socket and counts them, without allocating. A PDU that can't be sent, or whose link is held, is
/// lost, as any PDU may be on its way.
#[derive(Drop)]
pub struct PduSender<'a> {
    socket: &'a UdpSocket,
    traffic: &'a Traffic,
    links: &'a Links,
    peers: Vec<PeerAddress>,
    octets: Vec<u8>,
}

impl<'a> PduSender<'a> {
    /// A sender over a socket to the remote entities of a configuration, whose addresses are looked up once. It counts
    /// in `traffic`, and sends nothing over a link that `links` holds.
    pub fn new(
        alloc: Global,
        socket: &'a UdpSocket,
        config: &Config,
        traffic: &'a Traffic,
        links: &'a Links,
    ) -> Result<PduSender<'a>, AllocError> {
        Ok(PduSender {
            socket,
            traffic,
            links,
            peers: addresses_of(alloc, config)?,
            octets: Vec::with_capacity(alloc, PDU_OCTETS)?,
        })
    }

    /// The number in the configuration of the first remote entity whose address fits this one.
    pub fn place_of(&self, address: SocketAddr, compared: Compared) -> Option<usize> {
        place_of_address(self.peers.as_slice(), address, compared)
    }

    /// Whether the entity from which a PDU says it comes has this address.
    pub fn comes_from(&self, pdu: &Pdu, address: SocketAddr) -> bool {
        is_at(self.peers.as_slice(), near_end_of(pdu), address)
    }

    /// Whether the system has room for some datagrams, so that none of them waits. If it can't be asked, it has.
    pub fn has_room(&self) -> bool {
        has_room(self.socket)
    }

    /// Sends a PDU to the entity at the other end; returns how many octets were sent.
    pub fn send(&mut self, pdu: &Pdu) -> usize {
        self.send_as(pdu, None)
    }

    // Sends a PDU. A reply, at a moment by the runtime's clock, may have to be left out, and then counts as not sent.
    fn send_as(&mut self, pdu: &Pdu, reply_at: Option<u64>) -> usize {
        let Some(peer) = peer_among(self.peers.as_slice(), other_end_of(pdu)) else {
            self.traffic.note_unaddressed();
            return 0;
        };
        if self.links.is_held(peer.place) {
            return 0;
        }
        self.octets.clear();
        if encode(pdu, &mut self.octets).is_err() {
            self.traffic.note_departure(peer.place, None);
            return 0;
        }
        if let Some(now) = reply_at
            && !self
                .links
                .may_reply(peer.place, self.octets.len() as u64, now)
        {
            self.traffic.note_departure(peer.place, None);
            return 0;
        }
        let sent = self.socket.send_to(self.octets.as_slice(), peer.address);
        let octets = sent.ok();
        self.traffic.note_departure(peer.place, octets);
        octets.unwrap_or(0)
    }

    /// Sends the PDUs of a step, in order; returns how many octets were sent.
    pub fn send_done(&mut self, done: &Done) -> usize {
        let mut octets = 0usize;
        for pdu in done.pdus.as_slice() {
            octets = octets.saturating_add(self.send(pdu));
        }
        octets
    }

    /// Sends the PDUs of a step that responds to a Prompt, at a moment by the runtime's clock. A peer may ask for them
    /// at will, so what `Links::may_reply` doesn't allow is left out.
    pub fn send_prompted(&mut self, done: &Done, now: u64) {
        for pdu in done.pdus.as_slice() {
            self.send_as(pdu, Some(now));
        }
    }

    /// Sends the PDU with which a refusal responds to a PDU of an old transaction, if there is one, at a moment by the
    /// runtime's clock. It is left out like a response to a Prompt.
    pub fn send_echo(&mut self, refusal: &EntityRefusal, now: u64) {
        if let EntityRefusal::Lane(refused) = refusal {
            if let Some(echo) = &refused.echo {
                self.send_as(&echo.pdu(), Some(now));
            }
        }
    }
}

/// Wakes a thread that waits for a datagram at the socket, by sending an empty datagram to the socket's own address.
pub fn wake_reader(socket: &UdpSocket) {
    if let Ok(address) = socket.local_addr() {
        let _lost = socket.send_to(&[], address);
    }
}
