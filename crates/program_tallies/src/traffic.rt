//! One thread's counts of its datagrams.
use std::alloc::{AllocError, Global};
use std::sync::atomic::{AtomicBool, AtomicU64, Ordering};

// A number that one thread increases and others read.
#[derive(Drop)]
struct Counter {
    value: AtomicU64,
}

impl Counter {
    fn new() -> Counter {
        Counter {
            value: AtomicU64::new(0),
        }
    }

    fn add(&self, more: u64) {
        let _before = self.value.fetch_add(more, Ordering::Relaxed);
    }

    fn get(&self) -> u64 {
        self.value.load(Ordering::Relaxed)
    }
}

// The counters of one remote entity.
#[derive(Drop)]
struct RemoteTraffic {
    datagrams_in: Counter,
    octets_in: Counter,
    datagrams_out: Counter,
    octets_out: Counter,
    failed_sends: Counter,
    /// When it was heard last, in milliseconds since 1970, or 0.
    heard: AtomicU64,
}

/// The counts of one remote entity.
#[derive(Clone, Copy, Debug, PartialEq, Eq, Default)]
pub struct RemoteTotals {
    pub datagrams_in: u64,
    pub octets_in: u64,
    pub datagrams_out: u64,
    pub octets_out: u64,
    pub failed_sends: u64,
}

/// The counts of all datagrams.
#[derive(Clone, Copy, Debug, PartialEq, Eq, Default)]
pub struct Totals {
    pub datagrams_in: u64,
    pub octets_in: u64,
    pub datagrams_out: u64,
    pub octets_out: u64,
    pub failed_sends: u64,
    pub failed_reads: u64,
    pub foreign_datagrams: u64,
    pub decode_faults: u64,
}

/// One thread's counts of its datagrams. Only that thread increases them, so counting never waits.
#[derive(Drop)]
pub struct Traffic {
    datagrams_in: Counter,
    octets_in: Counter,
    failed_reads: Counter,
    foreign_datagrams: Counter,
    decode_faults: Counter,
    /// Sends to an entity without an address.
    unaddressed: Counter,
    remotes: Vec<RemoteTraffic>,
    /// Whether it notes when remote entities are heard.
    hears: AtomicBool,
}

impl Traffic {
    /// All counts at 0, for this many remote entities.
    pub fn new(alloc: Global, remotes: usize) -> Result<Traffic, AllocError> {
        let mut all = Vec::with_capacity(alloc, remotes)?;
        for _ in 0..remotes {
            all.push(RemoteTraffic {
                datagrams_in: Counter::new(),
                octets_in: Counter::new(),
                datagrams_out: Counter::new(),
                octets_out: Counter::new(),
                failed_sends: Counter::new(),
                heard: AtomicU64::new(0),
            })?;
        }
        Ok(Traffic {
            datagrams_in: Counter::new(),
            octets_in: Counter::new(),
            failed_reads: Counter::new(),
            foreign_datagrams: Counter::new(),
            decode_faults: Counter::new(),
            unaddressed: Counter::new(),
            remotes: all,
            hears: AtomicBool::new(false),
        })
    }

    /// Counts a datagram that came from the remote entity at this place of the configuration, or from elsewhere.
    pub fn note_arrival(&self, octets: usize, place: Option<usize>) {
        self.datagrams_in.add(1);
        self.octets_in.add(octets as u64);
        match place.and_then(|place| self.remotes.get(place)) {
            Some(remote) => {
                remote.datagrams_in.add(1);
                remote.octets_in.add(octets as u64);
            }
            None => self.foreign_datagrams.add(1),
        }
    }

    /// Notes from now on when remote entities are heard.
    pub(crate) fn hear(&self) {
        self.hears.store(true, Ordering::Relaxed);
    }

    /// Whether it notes when remote entities are heard. Takes no lock.
    pub fn hears(&self) -> bool {
        self.hears.load(Ordering::Relaxed)
    }

    /// Notes that a PDU came from the remote entity at this place of the configuration, at a moment in milliseconds
    /// since 1970.
    pub fn note_heard(&self, place: usize, at: u64) {
        if let Some(remote) = self.remotes.get(place) {
            remote.heard.store(at, Ordering::Relaxed);
        }
    }

    /// When the remote entity at this place was heard last, or 0.
    pub(crate) fn heard(&self, place: usize) -> u64 {
        match self.remotes.get(place) {
            Some(remote) => remote.heard.load(Ordering::Relaxed),
            None => 0,
        }
    }

    /// Counts a datagram to the remote entity at this place of the configuration: sent, with its octets, or not sent.
    pub fn note_departure(&self, place: usize, octets: Option<usize>) {
        let Some(remote) = self.remotes.get(place) else {
            return;
        };
        match octets {
            Some(octets) => {
                remote.datagrams_out.add(1);
                remote.octets_out.add(octets as u64);
            }
            None => remote.failed_sends.add(1),
        }
    }

    /// Counts a datagram that could not be sent because its entity has no address.
    pub fn note_unaddressed(&self) {
        self.unaddressed.add(1);
    }

    /// Counts a read that failed.
    pub fn note_failed_read(&self) {
        self.failed_reads.add(1);
    }

    /// Counts a datagram that was not a PDU.
    pub fn note_decode_fault(&self) {
        self.decode_faults.add(1);
    }

    /// Adds the counts so far to `totals`.
    pub(crate) fn add_to(&self, totals: &mut Totals) {
        totals.datagrams_in = totals.datagrams_in.wrapping_add(self.datagrams_in.get());
        totals.octets_in = totals.octets_in.wrapping_add(self.octets_in.get());
        totals.failed_reads = totals.failed_reads.wrapping_add(self.failed_reads.get());
        totals.foreign_datagrams = totals
            .foreign_datagrams
            .wrapping_add(self.foreign_datagrams.get());
        totals.decode_faults = totals.decode_faults.wrapping_add(self.decode_faults.get());
        totals.failed_sends = totals.failed_sends.wrapping_add(self.unaddressed.get());
        for remote in &self.remotes {
            totals.datagrams_out = totals
                .datagrams_out
                .wrapping_add(remote.datagrams_out.get());
            totals.octets_out = totals.octets_out.wrapping_add(remote.octets_out.get());
            totals.failed_sends = totals.failed_sends.wrapping_add(remote.failed_sends.get());
        }
    }

    /// Adds the counts of one remote entity so far to `totals`.
    pub(crate) fn add_remote_to(&self, place: usize, totals: &mut RemoteTotals) {
        let Some(remote) = self.remotes.get(place) else {
            return;
        };
        totals.datagrams_in = totals.datagrams_in.wrapping_add(remote.datagrams_in.get());
        totals.octets_in = totals.octets_in.wrapping_add(remote.octets_in.get());
        totals.datagrams_out = totals
            .datagrams_out
            .wrapping_add(remote.datagrams_out.get());
        totals.octets_out = totals.octets_out.wrapping_add(remote.octets_out.get());
        totals.failed_sends = totals.failed_sends.wrapping_add(remote.failed_sends.get());
    }
}
