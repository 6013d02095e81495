//! How long users' bundles wait for a client that follows and fell behind.
use program_seats::Seats;
use std::sync::Wait;

// For how many milliseconds users' bundles wait for a client at most, from when it fell behind.
const PATIENCE_MS: u64 = 2_000;

// For how many milliseconds they wait for one that takes nothing.
const STALL_MS: u64 = 500;

// How many milliseconds after the beginning of a wait for a client the next one for it may begin.
const PAUSE_MS: u64 = 20_000;

/// What is known of the client at a seat: when bundles began to wait for it, how far it was written to, and when it
/// took something last.
#[derive(Clone, Copy)]
pub struct Spell {
    since: u64,
    written: u64,
    took_at: u64,
}

impl Spell {
    // What is known at a moment of a client that is behind, and to whose seat so many octets were written.
    fn at(before: Option<Spell>, written: u64, now: u64) -> Spell {
        match before {
            Some(before) if now.saturating_sub(before.since) < PAUSE_MS => {
                let took_at = if before.written == written {
                    before.took_at
                } else {
                    now
                };
                Spell {
                    since: before.since,
                    written,
                    took_at,
                }
            }
            _ => Spell {
                since: now,
                written,
                took_at: now,
            },
        }
    }

    // Whether users' bundles still wait for it.
    fn is_waited_for(self, now: u64) -> bool {
        now.saturating_sub(self.since) < PATIENCE_MS && now.saturating_sub(self.took_at) < STALL_MS
    }
}

/// Whether users' bundles wait at a moment for a client that follows, fell behind, and takes some of what waits for it:
/// for the clients of each seat two seconds in twenty at most. `spells` has what is known of each seat's client.
pub fn waits_for_followers<R: Wait>(
    rt: &R,
    seats: &Seats,
    spells: &mut Vec<Option<Spell>>,
    now: u64,
) -> bool {
    let mut waits = false;
    for (seat, spell) in spells.iter_mut().enumerate() {
        if let Some(written) = seats.written_if_behind(rt, seat) {
            let next = Spell::at(*spell, written, now);
            *spell = Some(next);
            waits = waits || next.is_waited_for(now);
        }
    }
    waits
}
