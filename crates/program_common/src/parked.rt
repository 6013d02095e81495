//! What a worker does with parked datagrams.
use entity_config::Config;
use entity_parts::EntityRefusal;
use entity_routing::place_of_key;
use pdu_codec::{Pdu, decode};
use program_desk::{Step, moment, wall_moment};
use program_lot::{Handed, Lot, ParkEnd, Settled, address_of};
use std::alloc::{AllocError, Global};
use std::sync::Wait;
use std::time::Clock;

/// Whether a datagram is parked only behind others of its lane, or in any case.
#[derive(Clone, Copy, Debug, PartialEq, Eq)]
pub enum Crowd {
    Wanted,
    Any,
}

/// The lot of a worker, if there is one, and the datagram that the worker took from it to be handed in.
#[derive(Drop)]
pub struct WorkersLot<'a> {
    alloc: Global,
    config: &'a Config,
    lot: Option<&'a Lot>,
    handed: Option<Handed>,
}

impl<'a> WorkersLot<'a> {
    /// Without a datagram handed in.
    pub fn new(alloc: Global, config: &'a Config, lot: Option<&'a Lot>) -> WorkersLot<'a> {
        WorkersLot {
            alloc,
            config,
            lot,
            handed: None,
        }
    }

    /// Whether anything waits. Takes no lock.
    pub fn is_occupied(&self) -> bool {
        match self.lot {
            Some(lot) => lot.is_occupied(),
            None => false,
        }
    }

    /// What a refusal means for a datagram, if there is memory: it isn't kept without a lot.
    pub fn settled_by(&self, refusal: &EntityRefusal) -> Settled {
        match self.lot {
            Some(lot) => Settled::by(lot.takes(), refusal),
            None => Settled::Refused,
        }
    }

    /// Where a refusal or a fault says that memory ran out: drops the later half of what is parked; returns whether
    /// anything was.
    pub fn gives_way<R: Wait>(&self, rt: &R) -> bool {
        match self.lot {
            Some(lot) => lot.give_way(rt) > 0,
            None => false,
        }
    }

    /// The octets of the datagram handed in, if there is one.
    pub fn handed_octets(&self) -> Option<&[u8]> {
        match &self.handed {
            Some(handed) => Some(handed.octets.as_slice()),
            None => None,
        }
    }

    /// Takes a datagram to be handed in, of a lane that was heard of. If memory for its PDU runs out, it stays, and
    /// waits some milliseconds.
    pub fn next_pdu<R: Wait + Clock>(&mut self, rt: &R) -> Result<Option<Pdu>, AllocError> {
        let Some(lot) = self.lot else {
            return Ok(None);
        };
        if !lot.is_ready() {
            return Ok(None);
        }
        let Some(handed) = lot.lend(rt, 0) else {
            return Ok(None);
        };
        match decode(self.alloc, handed.octets.as_slice()) {
            Ok(pdu) => {
                self.handed = Some(handed);
                Ok(Some(pdu))
            }
            Err(_) => {
                lot.settle(rt, handed, Settled::WantsLane, moment(rt));
                Err(AllocError)
            }
        }
    }

    /// Parks a datagram. `None` if it isn't parked: there is no lot, it goes to no lane, memory for its PDU runs out,
    /// or nothing waits before it though that is wanted.
    pub fn park<R: Wait + Clock>(&self, rt: &R, octets: &[u8], crowd: Crowd) -> Option<ParkEnd> {
        let lot = self.lot?;
        let address = address_of(self.alloc, self.config, octets)?;
        if crowd == Crowd::Wanted && !lot.is_crowded(rt, address) {
            return None;
        }
        Some(lot.park(rt, address, octets, wall_moment(rt), moment(rt)))
    }

    /// Settles the datagram that was handed in, if there is one. Returns whether there was one.
    pub fn settle<R: Wait + Clock>(&mut self, rt: &R, settled: Settled) -> bool {
        match (self.lot, self.handed.take()) {
            (Some(lot), Some(handed)) => {
                lot.settle(rt, handed, settled, moment(rt));
                true
            }
            _ => false,
        }
    }

    /// Hears of a step. One that arms no timer may have ended its transaction, so what waits for its lane may be handed
    /// in.
    pub fn hear<R: Wait>(&self, rt: &R, step: &Step) {
        if let Some(lot) = self.lot {
            hear_step(rt, lot, self.config, step);
        }
    }
}

/// Lets what waits for a step's lane be handed in, if the step may have ended its transaction.
pub fn hear_step<R: Wait>(rt: &R, lot: &Lot, config: &Config, step: &Step) {
    if lot.is_occupied()
        && step.soonest() == u64::MAX
        && let Ok(place) = place_of_key(config, step.key)
    {
        lot.poke(rt, place);
    }
}
