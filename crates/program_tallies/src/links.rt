//! Which links are held, and what may leave over each.
use crate::replies::Replies;
use std::alloc::{AllocError, Global};
use std::sync::atomic::{AtomicU64, Ordering};

// An open link, in place of the moment since when it is held.
const OPEN: u64 = 0;

/// Since when the link to each remote entity is held, and its own limit, which one thread changes and others read. Also
/// how many replies left over it in this second.
#[derive(Drop)]
pub struct Links {
    since: Vec<AtomicU64>,
    replies: Vec<Replies>,
}

impl Links {
    /// All links open, to this many remote entities.
    pub fn new(alloc: Global, remotes: usize) -> Result<Links, AllocError> {
        let mut since = Vec::with_capacity(alloc, remotes)?;
        let mut replies = Vec::with_capacity(alloc, remotes)?;
        for _ in 0..remotes {
            since.push(AtomicU64::new(OPEN))?;
            replies.push(Replies::new())?;
        }
        Ok(Links { since, replies })
    }

    /// Holds the link to the remote entity at this place of the configuration from a moment on, in milliseconds since
    /// 1970: nothing is sent to it. For a link already held, the earlier moment stays.
    pub fn hold(&self, place: usize, at: u64) {
        if let Some(since) = self.since.get(place)
            && since.load(Ordering::Relaxed) == OPEN
        {
            since.store(at.max(1), Ordering::Relaxed);
        }
    }

    /// Opens a link again; returns whether it was held.
    pub fn release(&self, place: usize) -> bool {
        match self.since.get(place) {
            Some(since) => since.swap(OPEN, Ordering::Relaxed) != OPEN,
            None => false,
        }
    }

    /// Since when a link is held, in milliseconds since 1970.
    pub fn held_since(&self, place: usize) -> Option<u64> {
        match self.since.get(place)?.load(Ordering::Relaxed) {
            OPEN => None,
            since => Some(since),
        }
    }

    /// Whether the link to a remote entity is held, so that nothing is sent to it.
    pub fn is_held(&self, place: usize) -> bool {
        self.held_since(place).is_some()
    }

    /// Gives the link to the remote entity at this place a limit of its own in octets a second, or takes it away.
    /// Replies keep to it, too.
    pub fn limit(&self, place: usize, octets: Option<u64>) {
        if let Some(replies) = self.replies.get(place) {
            replies.limit(octets.unwrap_or(0));
        }
    }

    /// A link's own limit in octets a second, if it has one.
    pub fn rate(&self, place: usize) -> Option<u64> {
        self.replies.get(place)?.limited()
    }

    /// Notes a reply of so many octets for the remote entity at this place, which is to leave at a moment of the
    /// runtime's clock, in milliseconds. Returns whether it may leave. In a second at most as many octets leave as the
    /// link's limit says, or a hundred replies if it has none. The first one always leaves.
    pub fn may_reply(&self, place: usize, octets: u64, now: u64) -> bool {
        match self.replies.get(place) {
            Some(replies) => replies.may_leave(octets, now),
            None => false,
        }
    }
}
