//! What becomes of transactions whose journals are full, so that they can't end by themselves.
use crate::working::Working;
use cfdp_types::TxnKey;
use entity_routing::{Request, place_of_key};
use shared_lanes::Names;
use std::rt::Files;
use std::sync::Wait;
use std::time::Clock;

// How many of them are abandoned in a turn at most.
const FULL: usize = 16;

impl<'s, 'a, N: Names, R: Wait + Clock + Files + AllocGlobal + Copy + Drop> Working<'s, 'a, N, R> {
    /// Abandons transactions whose journals are full: those that the outbox began, and all of them if that is wanted.
    /// If memory or room in the user's queue runs out, that is tried again.
    pub fn abandon_full(&mut self) {
        for _ in 0..FULL {
            let Some(key) = self.station.take_full() else {
                break;
            };
            let config = self.station.entity().config();
            let Ok(place) = place_of_key(config, key) else {
                continue;
            };
            let is_own = key.source == config.entity().local;
            if !self.settings.abandons_full && !(is_own && self.outbox.begun.has(place, key)) {
                continue;
            }
            if !self.abandon_one(place.user, key) {
                self.station.give_back_full(key);
                break;
            }
        }
    }

    // Abandons a transaction whose journal is full, and reports it; false if memory or room in the user's queue ran
    // out.
    fn abandon_one(&mut self, user: usize, key: TxnKey) -> bool {
        match self.ask_quietly(user, Request::Abandon(key)) {
            Ok(_) => {
                self.station.forget_parked(user, key);
                self.audience.reports.end_full(user, key);
                true
            }
            Err(why) => !why.is_for_now(),
        }
    }
}
