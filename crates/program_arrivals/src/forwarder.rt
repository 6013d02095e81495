//! Handles what the entity returns to a worker.
use crate::arrivals::Arrivals;
use crate::turns::{Early, Turn};
use cfdp_types::EntityId;
use entity_config::Config;
use entity_routing::RouteRefusal;
use entity_workers::{Carrier, WorkersFault, run_workers_from};
use lane_table::{Done, Refused};
use pdu_reading::DecodeFault;
use pdu_values::{Body, Pdu};
use program_common::{Common, Crowd, WorkersLot};
use program_desk::{Desk, Step, Urgency, moment, wall_moment};
use program_lot::{Lot, Settled, lacks_memory};
use program_tallies::{Ledger, RefusalKind, Tallies, Traffic};
use program_udp::{Compared, PduSender};
use shared_entity::{Entity, EntityRefusal};
use shared_lanes::{Names, NoGate};
use std::alloc::{AllocError, Global};
use std::net::{SocketAddr, UdpSocket};
use std::sync::Wait;
use std::thread::Threads;
use std::time::Clock;
use txn_events::Refusal;

// Room for the longest datagram, and one octet more.
const DATAGRAM_OCTETS: usize = 65_536;

/// Sends the PDUs of a worker's steps, and leaves the rest of each step at the desk. A datagram that its lane can't
/// take yet is parked, if there is a lot.
#[derive(Drop)]
pub struct Forwarder<'a, R> {
    rt: &'a R,
    sender: PduSender<'a>,
    desk: &'a Desk,
    local: EntityId,
    /// How soon the main thread has to handle a step for which no client waits.
    others: Urgency,
    pub(crate) traffic: &'a Traffic,
    ledger: &'a Ledger,
    /// Where datagrams are parked, and the one that was taken from there to be handed in.
    lot: WorkersLot<'a>,
    /// Memory for the datagram that the worker reads.
    pub(crate) datagram: Vec<u8>,
    /// The turn of the datagram that was handed in last, until it is over.
    pub(crate) turn: Option<Turn>,
    /// The number of octets of the last datagram, and its source address.
    last: Option<(usize, SocketAddr)>,
    /// Whether the PDU that was handed over last is a Prompt.
    is_prompted: bool,
    /// The source address that was looked up last, and the position of its remote entity in the configuration, from 0.
    known: Option<(SocketAddr, Option<usize>)>,
}

impl<'a, R: Wait + Clock> Forwarder<'a, R> {
    /// Counts the datagram that was read; returns whether its source address is in the configuration.
    pub(crate) fn note_arrival(
        &mut self,
        octets: usize,
        from: SocketAddr,
        compared: Compared,
    ) -> bool {
        let place = self.look_up(octets, from, compared);
        self.traffic.note_arrival(octets, place);
        place.is_some()
    }

    /// Takes a datagram that was read before its turn as the one that was read. Returns how many octets it has, and
    /// whether its source address is in the configuration.
    pub(crate) fn recall(&mut self, early: &Early, compared: Compared) -> (usize, bool) {
        let octets = early.octets.as_slice();
        let count = octets.len();
        let room = self.datagram.as_mut_slice();
        if count <= room.len() {
            room[..count].copy_from_slice(octets);
        }
        self.turn = Some(early.turn);
        let place = self.look_up(count, early.from, compared);
        (count, place.is_some())
    }

    /// The source address that was looked up last, if the configuration doesn't have it and not all are taken.
    pub(crate) fn stranger(&self, takes_all: bool) -> Option<SocketAddr> {
        match self.known {
            Some((address, None)) if !takes_all => Some(address),
            _ => None,
        }
    }

    // Notes which datagram was read last; returns the position of its remote entity in the configuration, from 0.
    fn look_up(&mut self, octets: usize, from: SocketAddr, compared: Compared) -> Option<usize> {
        self.last = Some((octets, from));
        let known = self.known;
        match known {
            Some((address, place)) if address == from => place,
            _ => {
                let place = self.sender.place_of(from, compared);
                self.known = Some((from, place));
                place
            }
        }
    }

    /// Notes that the datagram that was read is a PDU of a remote entity with its address, if that is wanted.
    pub(crate) fn note_heard(&self) {
        if self.traffic.hears()
            && let Some((_, Some(place))) = self.known
        {
            self.traffic.note_heard(place, wall_moment(self.rt));
        }
    }

    /// Whether the datagram that was read comes from the address of the entity that its PDU says it comes from.
    pub(crate) fn comes_from_its_own(&self, pdu: &Pdu) -> bool {
        match self.last {
            Some((_, from)) => self.sender.comes_from(pdu, from),
            None => false,
        }
    }

    /// Counts a datagram that isn't a PDU, or for which memory ran out.
    pub(crate) fn note_decode_fault(&self, fault: DecodeFault) {
        if fault == DecodeFault::NoMemory {
            self.note_refusal(RefusalKind::Lane(Refusal::NoMemory));
        } else {
            self.traffic.note_decode_fault();
            self.note_refusal(RefusalKind::Route(RouteRefusal::DecodeFault(fault)));
        }
    }

    /// Takes a parked datagram that may be handed in at once, if there is one. If memory for its PDU runs out, the main
    /// thread is woken: it may have looked while the datagram was out.
    pub(crate) fn next_parked(&mut self) -> Option<Pdu> {
        match self.lot.next_pdu(self.rt) {
            Ok(pdu) => pdu,
            Err(AllocError) => {
                self.desk.wake(self.rt);
                None
            }
        }
    }

    /// Parks the datagram that was read, from its first `count` octets, if others of its lane wait before it; returns
    /// whether it did.
    pub(crate) fn parks_behind(&mut self, count: usize) -> bool {
        self.lot.is_occupied() && self.parks(count, Crowd::Wanted)
    }

    // Parks the datagram that was read, unless it is a Prompt: the peer asks again. If something was dropped for it,
    // that counts as a refusal.
    fn parks(&self, count: usize, crowd: Crowd) -> bool {
        if self.is_prompted {
            return false;
        }
        let octets = self.datagram.get(..count).unwrap_or(&[]);
        let Some(end) = self.lot.park(self.rt, octets, crowd) else {
            return false;
        };
        if end.dropped > 0 {
            self.note_refusal(RefusalKind::Lane(Refusal::LaneBusy));
        }
        if end.wakes {
            self.desk.wake(self.rt);
        }
        true
    }

    // Settles the parked datagram that was handed in, if there is one; returns whether there was one. The main thread
    // may have looked while it was out, so it is woken if anything waits.
    fn settle_handed(&mut self, settled: Settled) -> bool {
        let was_handed = self.lot.settle(self.rt, settled);
        if was_handed && self.lot.is_occupied() {
            self.desk.wake(self.rt);
        }
        was_handed
    }

    /// For a caller that ran out of memory: drops the later half of what is parked for each lane. Returns whether
    /// anything was dropped, and counts that as a refusal.
    pub(crate) fn gives_way(&self) -> bool {
        let gives_way = self.lot.gives_way(self.rt);
        if gives_way {
            self.note_refusal(RefusalKind::Lane(Refusal::NoMemory));
        }
        gives_way
    }

    // Puts back a datagram that was refused for now, or parks it, and returns whether it waits. If memory ran out, it
    // waits only if others were dropped.
    fn waits(&mut self, refusal: &EntityRefusal) -> bool {
        let settled = if lacks_memory(refusal) && self.gives_way() {
            Settled::WantsLane
        } else {
            self.lot.settled_by(refusal)
        };
        if settled == Settled::Refused {
            return false;
        }
        if self.settle_handed(settled) {
            return true;
        }
        match self.last {
            Some((count, _)) => self.parks(count, Crowd::Any),
            None => false,
        }
    }

    /// Notes which PDU is handed over next.
    pub(crate) fn note_pdu(&mut self, pdu: &Pdu) {
        self.is_prompted = matches!(pdu.body(), Body::Prompt(_));
    }

    // Sends the PDUs of a step. Those that respond to a Prompt may have to be left out.
    fn send(&mut self, done: &Done) {
        if self.is_prompted {
            self.sender.send_prompted(done, moment(self.rt));
        } else {
            self.sender.send_done(done);
        }
    }

    /// Counts a refusal of the datagram that was read, or of the parked one that was handed in.
    pub(crate) fn note_refusal(&self, kind: RefusalKind) {
        let at = wall_moment(self.rt);
        if let Some(octets) = self.lot.handed_octets() {
            return self.ledger.note(self.rt, kind, at, None, octets);
        }
        match self.last {
            Some((octets, from)) => {
                let shown = self.datagram.get(..octets).unwrap_or(&[]);
                self.ledger.note(self.rt, kind, at, Some(from), shown);
            }
            None => self.ledger.note(self.rt, kind, at, None, &[]),
        }
    }

    // Sends the PDUs of a step, and leaves the rest of it at the desk.
    fn forward(&mut self, done: Done) {
        self.settle_handed(Settled::Taken);
        self.send(&done);
        let is_awaited = done.deposit.is_some() || done.key.source == self.local;
        let urgency = if is_awaited {
            Urgency::Now
        } else {
            self.others
        };
        let step = Step::of(done, moment(self.rt));
        self.lot.hear(self.rt, &step);
        self.desk.leave_step(self.rt, step, urgency);
    }

    // Counts a refusal and sends its echo, unless the datagram waits.
    fn refuse(&mut self, refusal: &EntityRefusal) {
        if self.waits(refusal) {
            return;
        }
        self.note_refusal(RefusalKind::of(refusal));
        self.settle_handed(Settled::Refused);
        self.sender.send_echo(refusal, moment(self.rt));
    }
}

impl<'a, R: Wait + Clock> Carrier<Result<Done, Refused>> for Forwarder<'a, R> {
    ghost accepts = { λ _ _. Unit {0} };

    fn carry(&mut self, answer: Result<Result<Done, Refused>, EntityRefusal>)
        requires { Unit {0} }
    {
        match answer {
            Ok(Ok(done)) => self.forward(done),
            Ok(Err(refused)) => self.refuse(&EntityRefusal::Lane(refused)),
            Err(refusal) => self.refuse(&refusal),
        }
    }
}

/// One forwarder for each worker that `tallies` counts. They wake the main thread at once for a deposit and for a step
/// of one of the entity's sending transactions, and for other steps as soon as `others` says. Datagrams are parked in
/// the lot, if there is one.
pub fn forwarders_of<'a, N: Names, R: Copy>(
    common: &Common<'a, N, R>,
    tallies: &'a Tallies,
    others: Urgency,
    lot: Option<&'a Lot>,
) -> Result<Vec<Forwarder<'a, R>>, AllocError> {
    let Common {
        rt,
        alloc,
        entity,
        socket,
        desk,
    } = *common;
    let config = entity.config();
    let mut forwarders = Vec::with_capacity(alloc, tallies.workers.len())?;
    for traffic in &tallies.workers {
        forwarders.push(Forwarder {
            rt,
            sender: PduSender::new(alloc, socket, config, traffic, &tallies.links)?,
            desk,
            local: config.entity().local,
            others,
            traffic,
            ledger: &tallies.ledger,
            lot: WorkersLot::new(alloc, config, lot),
            turn: None,
            last: None,
            is_prompted: false,
            known: None,
            datagram: Vec::from_elem(alloc, 0u8, DATAGRAM_OCTETS)?,
        })?;
    }
    Ok(forwarders)
}

/// Runs a worker for each forwarder until no more datagrams come. If not all could be started, returns why; the others
/// still run until then, and the desk is notified at the end.
pub fn run_forwarders<N: Names + Send + Sync, R: Threads + Wait + Clock + Copy + Send + Sync>(
    rt: &R,
    alloc: Global,
    entity: &Entity<N, R>,
    arrivals: Arrivals<'_>,
    forwarders: Vec<Forwarder<'_, R>>,
    desk: &Desk,
) -> Result<(), WorkersFault> {
    match run_workers_from(rt, alloc, entity, &arrivals, forwarders, &NoGate) {
        Ok(_) => Ok(()),
        Err(fault) => {
            desk.desert(rt);
            Err(fault)
        }
    }
}
