ghost use Rattle.std.specs.Prelude.{◌≡◌, None, false};
ghost use Rattle.program_arrivals.specs.Hearing.{compared_by, is_heard};

use crate::forwarder::Forwarder;
use crate::turns::{Entered, Order, Turn, Turns};
use entity_workers::Source;
use lane_table::{Done, Refused};
use pdu_codec::{Pdu, decode};
use pdu_reading::DecodeFault;
use program_desk::Desk;
use program_tallies::RefusalKind;
use program_udp::{Compared, wake_reader};
use std::alloc::Global;
use std::io::ErrorKind;
use std::net::{SocketAddr, UdpSocket};
use std::sync::Wait;
use std::time::{Clock, Duration};
use std::{io, thread};
use txn_events::Refusal;

// How long a worker pauses after a failed read, in milliseconds: at first, and at most after several in a row.
const SHORT_PAUSE_MS: u64 = 1;

const LONG_PAUSE_MS: u64 = 100;

/// Whose datagrams are taken.
#[derive(Clone, Copy, Debug, PartialEq, Eq)]
pub enum Sources {
    Any,
    /// Those from the host of an address in the configuration, whatever the port. All others are counted and dropped,
    /// and not decoded.
    HostsAlone,
    /// Those from an address in the configuration. All others are counted and dropped, and not decoded.
    KnownAlone,
    /// Of these, those whose PDU comes from the address of the entity that it says it comes from. All others are
    /// counted and dropped.
    OwnAlone,
}

impl Sources {
    // What of a source address is looked up in the configuration.
    fn compared(self) -> Compared
        ensures { result ≡ compared_by self }
    {
        match self {
            Sources::HostsAlone => Compared::Host,
            Sources::Any | Sources::KnownAlone | Sources::OwnAlone => Compared::Whole,
        }
    }
}

// Whether a datagram is taken, by whether its source address is in the configuration.
fn is_heard(sources: Sources, is_known: bool) -> bool
    ensures { result ≡ is_heard sources is_known }
{
    is_known || sources == Sources::Any
}

/// The datagrams that arrive at a socket. Each worker reads for itself. A datagram passes to another thread only if that
/// one is at its lane, so those of one lane stay in order.
#[derive(Clone, Copy)]
pub struct Arrivals<'a> {
    alloc: Global,
    socket: &'a UdpSocket,
    desk: &'a Desk,
    sources: Sources,
    turns: &'a Turns,
}

impl<'a> Arrivals<'a> {
    /// The datagrams at a socket from these sources, until the desk is closed.
    pub fn new(
        alloc: Global,
        socket: &'a UdpSocket,
        desk: &'a Desk,
        sources: Sources,
        turns: &'a Turns,
    ) -> Arrivals<'a> {
        Arrivals {
            alloc,
            socket,
            desk,
            sources,
            turns,
        }
    }

    // A datagram that waits for this worker: the next one of the lane where it was, or else a parked one.
    fn waiting<R: Wait + Clock>(&self, rt: &R, forwarder: &mut Forwarder<'_, R>) -> Option<Pdu> {
        for _ in rt.forever() {
            let Some(turn) = forwarder.turn.take() else {
                break;
            };
            let Some(early) = self.turns.leave(rt, turn) else {
                break;
            };
            let (count, is_known) = forwarder.recall(&early, self.sources.compared());
            if let Some(pdu) = self.taken(forwarder, count, is_known) {
                return Some(pdu);
            }
        }
        let pdu = forwarder.next_parked()?;
        forwarder.note_pdu(&pdu);
        Some(pdu)
    }

    // The PDU of the datagram that was read, if it is handed in now.
    fn arrived<R: Wait + Clock>(
        &self,
        rt: &R,
        forwarder: &mut Forwarder<'_, R>,
        (count, from): (usize, SocketAddr),
        order: Order,
    ) -> Option<Pdu> {
        let is_known = forwarder.note_arrival(count, from, self.sources.compared());
        match order {
            Order::Free => {}
            Order::Full => {
                forwarder.note_refusal(RefusalKind::Lane(Refusal::LaneBusy));
                return None;
            }
            Order::After(turn) => {
                if !self.comes(rt, forwarder, (count, from), turn) {
                    return None;
                }
                forwarder.turn = Some(turn);
            }
        }
        self.taken(forwarder, count, is_known)
    }

    // Whether a datagram's turn has come. If not, it is left for the worker at its lane; if memory runs out for that, this
    // worker waits.
    fn comes<R: Wait + Clock>(
        &self,
        rt: &R,
        forwarder: &Forwarder<'_, R>,
        (count, from): (usize, SocketAddr),
        turn: Turn,
    ) -> bool {
        let octets = forwarder.datagram.get(..count).unwrap_or(&[]);
        match self.turns.enter(rt, turn, octets, from) {
            Entered::Now => true,
            Entered::Left => false,
            Entered::NoMemory => {
                for _ in rt.forever() {
                    if self.turns.is_next(turn) || self.desk.is_closed() {
                        break;
                    }
                    thread::sleep(rt, Duration::from_millis(SHORT_PAUSE_MS));
                }
                true
            }
        }
    }

    // The PDU of a datagram, unless that is dropped, or parked behind others.
    fn taken<R: Wait + Clock>(
        &self,
        forwarder: &mut Forwarder<'_, R>,
        count: usize,
        is_known: bool,
    ) -> Option<Pdu> {
        let pdu = self.pdu(forwarder, count, is_known)?;
        forwarder.note_pdu(&pdu);
        if forwarder.parks_behind(count) {
            None
        } else {
            Some(pdu)
        }
    }

    // The PDU for a worker, from the first `count` octets that were read. A datagram is counted and dropped if it is
    // not taken, is not a PDU, comes from another address than that of its own entity where that is wanted, or if
    // memory runs out for it even after parked ones gave way.
    fn pdu<R: Wait + Clock>(
        &self,
        forwarder: &Forwarder<'_, R>,
        count: usize,
        is_known: bool,
    ) -> Option<Pdu>
        ensures unheard { is_heard self.now.sources is_known ≡ false → result ≡ None }
    {
        if !is_heard(self.sources, is_known) {
            forwarder.note_refusal(RefusalKind::ForeignSource);
            return None;
        }
        let octets = forwarder.datagram.get(..count)?;
        let mut read = decode(self.alloc, octets);
        if let Err(DecodeFault::NoMemory) = read
            && forwarder.gives_way()
        {
            read = decode(self.alloc, octets);
        }
        match read {
            Ok(pdu) if self.sources == Sources::OwnAlone && !forwarder.comes_from_its_own(&pdu) => {
                forwarder.note_refusal(RefusalKind::ForeignSource);
                None
            }
            Ok(pdu) => {
                forwarder.note_heard();
                Some(pdu)
            }
            Err(fault) => {
                forwarder.note_decode_fault(fault);
                None
            }
        }
    }
}

impl<'a, 'b, R: Wait + Clock> Source<R, Result<Done, Refused>, Forwarder<'a, R>> for Arrivals<'b> {
    /// Takes the next datagram of the lane where the worker was, or a parked one that may be handed in; or else waits for a
    /// datagram that is taken, is a PDU, and whose turn has come. One that has to wait behind parked ones is parked. After
    /// a failed read it pauses, the longer the more have failed in a row. `None` once the desk is closed, which is checked
    /// after each read and once a second. A worker that finds the desk closed wakes the next.
    fn next(&self, rt: &R, forwarder: &mut Forwarder<'a, R>) -> Option<Pdu> {
        let mut pause = SHORT_PAUSE_MS;
        for _ in rt.forever() {
            if !self.desk.is_closed()
                && let Some(pdu) = self.waiting(rt, forwarder)
            {
                return Some(pdu);
            }
            let not_taken = forwarder.stranger(self.sources == Sources::Any);
            let read = self.turns.read(
                rt,
                (self.desk, self.socket),
                forwarder.datagram.as_mut_slice(),
                not_taken,
            );
            if self.desk.is_closed() {
                break;
            }
            match read {
                Ok((count, from, order)) => {
                    pause = SHORT_PAUSE_MS;
                    if let Some(pdu) = self.arrived(rt, forwarder, (count, from), order) {
                        return Some(pdu);
                    }
                }
                Err(error) if error.kind() == ErrorKind::WouldBlock => {}
                Err(_) => {
                    forwarder.traffic.note_failed_read();
                    thread::sleep(rt, Duration::from_millis(pause));
                    pause = pause.saturating_mul(2).min(LONG_PAUSE_MS);
                }
            }
        }
        wake_reader(self.socket);
        None
    }
}
