//! Which transactions of the outbox have ended.
use crate::working::Working;
use cfdp_types::TxnKey;
use entity_routing::Place;
use lane_table::Glance;
use shared_lanes::Names;
use std::rt::Files;
use std::sync::Wait;
use std::time::Clock;

impl<'s, 'a, N: Names, R: Wait + Clock + Files + AllocGlobal + Copy + Drop> Working<'s, 'a, N, R> {
    /// Looks for transactions of the outbox that have ended, if one may have, and notes their ends. If memory for that
    /// runs out, it looks again later.
    pub fn note_ends(&mut self, now: u64) {
        if !self.outbox.looks_for_ends() {
            return;
        }
        self.outbox.begun.look_again(false);
        let config = self.station.entity().config();
        let (users, put_lanes) = (config.users(), config.entity().put_lanes);
        for user in 0..users {
            for lane in 0..put_lanes {
                self.note_end_at(Place { user, lane }, now);
            }
        }
    }

    // Notes the end of a lane's transaction, if it has ended.
    fn note_end_at(&mut self, place: Place, now: u64) {
        let Some((key, number)) = self.outbox.begun.under_way(place) else {
            return;
        };
        match self.station.entity().glance(self.rt, place) {
            Ok(glance) if has_ended(&glance, key) => {
                self.outbox.note_end(place, number, now);
            }
            Ok(_) => {}
            Err(_) => self.outbox.begun.look_again(true),
        }
    }
}

// Whether a lane no longer runs a transaction.
fn has_ended(glance: &Option<Glance>, key: TxnKey) -> bool {
    match glance {
        Some(glance) => glance.has_ended || glance.key != key,
        None => true,
    }
}
