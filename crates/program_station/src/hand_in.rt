//! The main thread hands in what is parked.
use crate::station::Station;
use cfdp_types::TxnKey;
use entity_routing::place_of_key;
use program_common::hear_step;
use program_desk::{Step, wall_moment};
use program_lot::{Handed, Lot, LotAddress, Settled, lacks_memory};
use program_tallies::RefusalKind;
use shared_entity::EntityRefusal;
use shared_lanes::{Names, NoGate};
use std::sync::Wait;
use std::time::Clock;

// How many parked datagrams a turn hands in at most.
const HANDED: usize = 64;

impl<'a, N: Names, R: Wait + Copy + Clock> Station<'a, N, R> {
    /// From now on hands in the datagrams that are parked in this lot.
    pub fn use_lot(&mut self, lot: &'a Lot) {
        self.lot = Some(lot);
    }

    /// Bundles were taken from users' queues, so what waits for room there may be handed in.
    pub fn hear_of_room(&self) {
        if let Some(lot) = self.lot
            && lot.is_occupied()
        {
            lot.poke_wanting_room(self.rt);
        }
    }

    /// Drops what is parked of a user's transaction.
    pub fn forget_parked(&self, user: usize, key: TxnKey) {
        if let Some(lot) = self.lot
            && let Ok(place) = place_of_key(self.entity.config(), key)
            && place.user == user
        {
            let number = key.seq;
            let _dropped = lot.forget(self.rt, LotAddress { place, number });
        }
    }

    // Memory ran out: drops the later half of what is parked for each lane. What is dropped is reported like what has
    // no room.
    pub(crate) fn give_way(&self) {
        if let Some(lot) = self.lot {
            let _dropped = lot.give_way(self.rt);
        }
    }

    // Hands in datagrams of lanes whose turn it is; returns whether any was taken or refused for good.
    pub(crate) fn hand_in_some(&mut self, now: u64) -> bool {
        let Some(lot) = self.lot else {
            return false;
        };
        let mut has_handed = false;
        for _ in 0..HANDED {
            if !self.is_settled() || !lot.is_occupied() {
                break;
            }
            let Some(handed) = lot.lend(self.rt, now) else {
                break;
            };
            if self.hand_in(lot, handed, now) {
                has_handed = true;
            }
        }
        has_handed
    }

    // Hands in a datagram; returns whether it was taken or refused for good.
    fn hand_in(&mut self, lot: &Lot, handed: Handed, now: u64) -> bool {
        let answer = self
            .entity
            .deliver(self.rt, &NoGate, handed.octets.as_slice());
        match answer {
            Ok(Ok(done)) => {
                lot.settle(self.rt, handed, Settled::Taken, now);
                self.settle_own(done);
                true
            }
            Ok(Err(refused)) => self.hold_back(lot, handed, now, &EntityRefusal::Lane(refused)),
            Err(refusal) => self.hold_back(lot, handed, now, &refusal),
        }
    }

    // Settles a datagram that was handed in and refused; returns whether it was refused for good.
    fn hold_back(&mut self, lot: &Lot, handed: Handed, now: u64, refusal: &EntityRefusal) -> bool {
        if lacks_memory(refusal) {
            lot.settle(self.rt, handed, Settled::WantsLane, now);
            self.give_way();
            return false;
        }
        let settled = Settled::by(lot.takes(), refusal);
        if settled == Settled::Refused {
            self.note_refused(refusal, handed.octets.as_slice());
        }
        lot.settle(self.rt, handed, settled, now);
        if settled != Settled::Refused {
            return false;
        }
        self.send_echo(refusal);
        true
    }

    // Counts a refusal of a parked datagram.
    fn note_refused(&self, refusal: &EntityRefusal, octets: &[u8]) {
        self.tallies.ledger.note(
            self.rt,
            RefusalKind::of(refusal),
            wall_moment(self.rt),
            None,
            octets,
        );
    }

    // Hears of a step. One that arms no timer may have ended its transaction: what waits for its lane may be handed in,
    // and if it is one of this entity's own, a file of the outbox may have a lane.
    pub(crate) fn hear(&mut self, step: &Step) {
        if step.key.source == self.entity.config().entity().local && step.soonest() == u64::MAX {
            self.may_have_ended = true;
        }
        if let Some(lot) = self.lot {
            hear_step(self.rt, lot, self.entity.config(), step);
        }
    }

    /// Whether a sending transaction may have ended since this was asked last.
    pub fn take_ended(&mut self) -> bool {
        let has_ended = self.may_have_ended;
        self.may_have_ended = false;
        has_ended
    }

    // The first moment at which a parked datagram is handed in, or the greatest of 64 bits.
    pub(crate) fn soonest_parked(&self) -> u64 {
        match self.lot {
            Some(lot) => lot.soonest(self.rt),
            None => u64::MAX,
        }
    }
}
