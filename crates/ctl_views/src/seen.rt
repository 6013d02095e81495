//! What one look at the status saw, for the rates that the next one shows.
use crate::fields::number_in;
use crate::parts::Look;
use json::Value;
use station_names::member;
use std::alloc::{AllocError, Global};
use std::collections::BTreeMap;

/// A transaction ID, and the lane that runs the transaction.
#[derive(Clone, Copy, PartialEq, Eq, PartialOrd, Ord)]
pub(crate) struct Place {
    source: u64,
    seq: u64,
    lane: u64,
}

/// What a look saw of the transactions under way, and its moment in milliseconds.
#[derive(Drop)]
pub(crate) struct Seen {
    pub(crate) now: Option<u64>,
    octets: BTreeMap<Place, u64>,
}

impl Seen {
    /// Nothing was seen yet.
    pub(crate) fn new(alloc: Global) -> Seen {
        Seen {
            now: None,
            octets: BTreeMap::new(alloc),
        }
    }

    fn note(&mut self, place: Place, octets: u64) -> Result<(), AllocError> {
        match self.octets.insert(place, octets) {
            Ok(_) => Ok(()),
            Err(_) => Err(AllocError),
        }
    }
}

/// Looks at a transaction under way, and notes what is seen of it for the next look.
pub(crate) fn look_at(value: &Value<'_>, seen: &Seen, next: &mut Seen) -> Result<Look, AllocError> {
    let octets = number_in(value, member::OCTETS).unwrap_or(0);
    let place = place_of(value);
    let rate = rate_since(seen, next.now, &place, octets);
    next.note(place, octets)?;
    Ok(Look {
        now: next.now,
        rate,
    })
}

fn place_of(value: &Value<'_>) -> Place {
    Place {
        source: number_in(value, member::SOURCE).unwrap_or(0),
        seq: number_in(value, member::SEQ).unwrap_or(0),
        lane: number_in(value, member::LANE).unwrap_or(0),
    }
}

// The rate in octets a second since the last look.
fn rate_since(seen: &Seen, now: Option<u64>, place: &Place, octets: u64) -> Option<u64> {
    let before = *seen.octets.get(place)?;
    let span = now?.checked_sub(seen.now?)?;
    let more = octets.checked_sub(before)?;
    more.saturating_mul(1000).checked_div(span)
}
