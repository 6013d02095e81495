//! The main thread's view of the link to each remote entity: how fast octets may be sent over it, and whether it is
//! held.
use cfdp_types::{EntityId, TxnKey};
use entity_config::Config;
use entity_routing::{Place, place_of_key};
use program_agenda::{Pace, TimedLink};
use program_tallies::Tallies;
use std::alloc::{AllocError, Global};

// The link to one remote entity.
#[derive(Clone, Copy)]
struct Link {
    id: EntityId,
    /// The interval of the remote entity's inactivity timer, in milliseconds.
    silence: u64,
    /// How fast octets may be sent to it, if it has a limit of its own.
    pace: Option<Pace>,
    /// How many of the octets that were sent to it its pace has counted.
    counted: u64,
    /// When the link was last released, or 0.
    released: u64,
    /// Whether timers that rested while the link was held have yet to run again.
    goes_on: bool,
}

/// When a file's next PDU may be sent.
#[derive(Clone, Copy, Debug, PartialEq, Eq)]
pub(crate) enum Departure {
    /// As the pace that links without a limit of their own share allows.
    Shared,
    /// Now, by the link's own pace.
    Now,
    /// From this moment on, by the link's own pace.
    From(u64),
    /// Once the link is released.
    Held,
}

/// The links to all remote entities, and the link of each of the entity's own transactions.
#[derive(Drop)]
pub(crate) struct LinkBook<'a> {
    config: &'a Config,
    tallies: &'a Tallies,
    links: Vec<Link>,
    /// The link of the last transaction of each sending lane, by user and lane.
    destinations: Vec<Option<usize>>,
    has_paces: bool,
    is_going_on: bool,
}

impl<'a> LinkBook<'a> {
    /// All links open, without limits of their own.
    pub(crate) fn new(
        alloc: Global,
        config: &'a Config,
        tallies: &'a Tallies,
    ) -> Result<LinkBook<'a>, AllocError> {
        let lanes = config.users().saturating_mul(config.entity().put_lanes);
        Ok(LinkBook {
            config,
            tallies,
            links: links_of(alloc, config)?,
            destinations: Vec::from_elem(alloc, None, lanes)?,
            has_paces: false,
            is_going_on: false,
        })
    }

    /// The position of a remote entity in the configuration, from 0.
    pub(crate) fn place_of(&self, id: EntityId) -> Option<usize> {
        self.links.iter().position(|link| link.id == id)
    }

    /// Limits the octets sent to this remote entity to this many a second from a moment on, or lets it share the pace
    /// of the links without a limit of their own.
    pub(crate) fn limit(&mut self, place: usize, octets: Option<u64>, now: u64) {
        self.tallies.links.limit(place, octets);
        let left = self.tallies.remote_totals(place).octets_out;
        if let Some(link) = self.links.get_mut(place) {
            match (octets, link.pace) {
                (Some(_), Some(pace)) => link.pace = Some(pace.limited(octets, now)),
                (Some(_), None) => {
                    link.pace = Some(Pace::new(octets));
                    link.counted = left;
                }
                (None, _) => link.pace = None,
            }
        }
        self.has_paces = self.links.iter().any(|link| link.pace.is_some());
    }

    /// Whether a link has a limit of its own.
    pub(crate) fn has_paces(&self) -> bool {
        self.has_paces
    }

    // The index in `destinations` of one of the entity's own transactions.
    fn lane_of(&self, key: TxnKey) -> Option<usize> {
        let Ok(Place { user, lane }) = place_of_key(self.config, key) else {
            return None;
        };
        user.checked_mul(self.config.entity().put_lanes)?
            .checked_add(lane)
    }

    /// Notes that one of the entity's own transactions goes to a remote entity.
    pub(crate) fn begin(&mut self, key: TxnKey, destination: EntityId) {
        let place = self.place_of(destination);
        if let Some(lane) = self.lane_of(key)
            && let Some(known) = self.destinations.get_mut(lane)
        {
            *known = place;
        }
    }

    /// The link of a transaction.
    pub(crate) fn link_of(&self, key: TxnKey) -> Option<usize> {
        if key.source == self.config.entity().local {
            *self.destinations.get(self.lane_of(key)?)?
        } else {
            self.place_of(key.source)
        }
    }

    /// Whether a link is held.
    pub(crate) fn is_held(&self, place: usize) -> bool {
        self.tallies.links.is_held(place)
    }

    /// Holds a link from a moment on, in milliseconds since 1970: nothing is sent over it.
    pub(crate) fn hold(&mut self, place: usize, at: u64) {
        self.tallies.links.hold(place, at);
        if let Some(link) = self.links.get_mut(place) {
            link.goes_on = false;
        }
    }

    /// Opens a link again, at a moment of the runtime's clock; returns whether it was held.
    pub(crate) fn release(&mut self, place: usize, now: u64) -> bool {
        if !self.tallies.links.release(place) {
            return false;
        }
        if let Some(link) = self.links.get_mut(place) {
            link.released = now;
            link.goes_on = true;
            self.is_going_on = true;
        }
        true
    }

    /// A link whose timers have yet to run again.
    pub(crate) fn going_on(&mut self) -> Option<usize> {
        if !self.is_going_on {
            return None;
        }
        let place = self.links.iter().position(|link| link.goes_on);
        self.is_going_on = place.is_some();
        place
    }

    /// Notes that all timers of a link run again.
    pub(crate) fn has_gone_on(&mut self, place: usize) {
        if let Some(link) = self.links.get_mut(place) {
            link.goes_on = false;
        }
    }

    /// The link of a transaction, as its timers depend on it.
    pub(crate) fn timed_link(&self, key: TxnKey) -> Option<TimedLink> {
        let remote = self.link_of(key)?;
        let link = self.links.get(remote)?;
        Some(TimedLink {
            remote,
            is_held: self.is_held(remote),
            released: link.released,
            silence: link.silence,
        })
    }

    /// When the next PDU of a transaction's file may be sent. What else was sent to its entity meanwhile, such as the
    /// responses of workers, counts too, as far as idle time doesn't pay for it, and holds the file back for a second
    /// at most.
    pub(crate) fn departure(&mut self, key: TxnKey, now: u64) -> Departure {
        let Some(place) = self.link_of(key) else {
            return Departure::Shared;
        };
        if self.is_held(place) {
            return Departure::Held;
        }
        match self.links.get_mut(place) {
            Some(link) => depart(link, self.tallies, place, now),
            None => Departure::Shared,
        }
    }
}

impl<'a> LinkBook<'a> {
    /// Notes that octets of a transaction's file were sent at a moment.
    pub(crate) fn note_sent(&mut self, key: TxnKey, octets: u64, now: u64) {
        if let Some(place) = self.link_of(key)
            && let Some(link) = self.links.get_mut(place)
            && let Some(pace) = link.pace
        {
            link.pace = Some(pace.spend(octets, now));
            link.counted = link.counted.saturating_add(octets);
        }
    }
}

// When octets may be sent over a link that is not held.
fn depart(link: &mut Link, tallies: &Tallies, place: usize, now: u64) -> Departure {
    let Some(pace) = link.pace else {
        return Departure::Shared;
    };
    let left = tallies.remote_totals(place).octets_out;
    let pace = pace.charge(left.saturating_sub(link.counted), now);
    link.counted = left;
    link.pace = Some(pace);
    if pace.is_free(now) {
        Departure::Now
    } else {
        Departure::From(pace.free_moment())
    }
}

// The links to the remote entities of a configuration.
fn links_of(alloc: Global, config: &Config) -> Result<Vec<Link>, AllocError> {
    let mut links = Vec::with_capacity(alloc, config.remotes())?;
    for place in 0..config.remotes() {
        if let Some(remote) = config.remote_at(place) {
            links.push(Link {
                id: remote.id,
                silence: u64::from(remote.params.timers().inactivity),
                pace: None,
                counted: 0,
                released: 0,
                goes_on: false,
            })?;
        }
    }
    Ok(links)
}
