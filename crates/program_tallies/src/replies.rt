//! Replies that a peer may ask for at will: echoes of ended transactions, and responses to Prompts.
ghost use Rattle.std.specs.Prelude.{◌≡◌, ◌+◌, ◌≤◌, IfSome};
ghost use Rattle.program_tallies.specs.Replies.{after_one, used_in};

use std::sync::atomic::{AtomicU64, Ordering};

// How many replies leave for an entity in a second if its link has no limit.
const MOST_REPLIES: u64 = 100;

const MILLISECONDS_A_SECOND: u64 = 1_000;

// A window is one number: the second times this, plus what was used up.
const SECOND: u64 = 1 << 32;

// How many times a thread tries to note a reply while others note theirs.
const TRIES: u32 = 8;

/// What left in a second.
#[derive(Clone, Copy, Debug, PartialEq, Eq)]
pub struct Window {
    pub second: u64,
    pub used: u64,
}

impl Window {
    /// The window once a reply of this cost left in a second. `None` if it may not leave, because more than `most`
    /// would leave. The first one of a second always leaves.
    pub fn after_one(self, second: u64, cost: u64, most: u64) -> Option<Window>
        ensures { result ≡ after_one second cost most self }
    {
        let used = self.used_in(second);
        let total = used.checked_add(cost);
        match total {
            Some(total) if used == 0 || total <= most => Some(Window {
                second,
                used: total,
            }),
            _ => None,
        }
    }

    // What left in a second so far.
    fn used_in(self, second: u64) -> u64
        ensures { result ≡ used_in second self }
    {
        if self.second == second { self.used } else { 0 }
    }
}

/// What may leave for one remote entity, as all threads see it.
#[derive(Drop)]
pub(crate) struct Replies {
    /// Octets a second, or 0 if only the number of replies is limited.
    limit: AtomicU64,
    window: AtomicU64,
}

impl Replies {
    /// Nothing left so far, and the link has no limit.
    pub(crate) fn new() -> Replies {
        Replies {
            limit: AtomicU64::new(0),
            window: AtomicU64::new(0),
        }
    }

    /// Limits the octets that leave in a second.
    pub(crate) fn limit(&self, octets: u64) {
        self.limit.store(octets, Ordering::Relaxed);
    }

    /// How many octets may leave in a second, if that is limited.
    pub(crate) fn limited(&self) -> Option<u64> {
        match self.limit.load(Ordering::Relaxed) {
            0 => None,
            octets => Some(octets),
        }
    }

    /// Notes a reply of so many octets that is to leave at a moment of the runtime's clock, in milliseconds. Returns
    /// whether it may leave.
    pub(crate) fn may_leave(&self, octets: u64, now: u64) -> bool {
        let (cost, most) = match self.limited() {
            None => (1, MOST_REPLIES),
            Some(limit) => (octets, limit.min(SECOND - 1)),
        };
        let second = now / MILLISECONDS_A_SECOND;
        for _ in 0..TRIES {
            let bits = self.window.load(Ordering::Relaxed);
            let Some(next) = window_of(bits).after_one(second % SECOND, cost, most) else {
                return false;
            };
            let changed = self
                .window
                .compare_exchange(bits, bits_of(next), Ordering::Relaxed, Ordering::Relaxed);
            if changed.is_ok() {
                return true;
            }
        }
        false
    }
}

fn window_of(bits: u64) -> Window {
    Window {
        second: bits / SECOND,
        used: bits % SECOND,
    }
}

fn bits_of(window: Window) -> u64 {
    (window.second % SECOND)
        .saturating_mul(SECOND)
        .saturating_add(window.used.min(SECOND - 1))
}
