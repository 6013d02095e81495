//! Limits how fast octets leave.
ghost use Rattle.std.specs.Prelude.{◌≡◌};
ghost use Rattle.program_agenda.specs.Paces.{charged, free_moment, is_free, limited, spent, time_of};

// For how many milliseconds unused time may still be used: clock readings are no finer, and waits take longer than
// asked.
const SLACK_MS: u64 = 10;

const NANOSECONDS_A_MILLISECOND: u64 = 1_000_000;

const NANOSECONDS_A_SECOND: u64 = 1_000_000_000;

// For how many nanoseconds at most octets that left without a pace hold back others.
const DEBT: u64 = NANOSECONDS_A_SECOND;

/// Limits how fast octets leave. Octets that leave take up their time at the limit, and nothing leaves before the time
/// of all that left is over.
#[derive(Clone, Copy, Debug, PartialEq, Eq)]
pub struct Pace {
    /// The octets that may leave in a second, if that is limited.
    pub limit: Option<u64>,
    /// The moment at which the time of all that left is over, in nanoseconds.
    pub over_at: u64,
}

impl Pace {
    /// A pace by which nothing has left.
    pub fn new(limit: Option<u64>) -> Pace
        ensures { result ≡ record { limit = limit; over_at = 0 } }
    {
        Pace { limit, over_at: 0 }
    }

    /// The pace with another limit, from this moment on, in milliseconds. What left before holds back others for a
    /// second at most, and not at all if there is no limit any more.
    pub fn limited(self, limit: Option<u64>, now: u64) -> Pace
        ensures { result ≡ limited limit now self }
    {
        match limit {
            None => Pace::new(None),
            Some(limit) => Pace {
                limit: Some(limit),
                over_at: self.over_at.min(
                    now.saturating_mul(NANOSECONDS_A_MILLISECOND)
                        .saturating_add(DEBT),
                ),
            },
        }
    }

    /// Whether octets may leave at this moment, in milliseconds.
    pub fn is_free(&self, now: u64) -> bool
        ensures { result ≡ is_free now self.now }
    {
        self.over_at <= now.saturating_mul(NANOSECONDS_A_MILLISECOND)
    }

    /// The first moment at which octets may leave, in milliseconds.
    pub fn free_moment(&self) -> u64
        ensures { result ≡ free_moment self.now }
    {
        self.over_at.saturating_add(NANOSECONDS_A_MILLISECOND - 1) / NANOSECONDS_A_MILLISECOND
    }

    /// The pace after this many octets left at this moment, in milliseconds.
    pub fn spend(self, octets: u64, now: u64) -> Pace
        ensures { result ≡ spent octets now self }
    {
        match self.limit {
            None => self,
            Some(limit) => {
                let earliest = now
                    .saturating_sub(SLACK_MS)
                    .saturating_mul(NANOSECONDS_A_MILLISECOND);
                Pace {
                    limit: self.limit,
                    over_at: self
                        .over_at
                        .max(earliest)
                        .saturating_add(time_of(octets, limit)),
                }
            }
        }
    }

    /// The pace after this many octets, which didn't wait for it, left up to this moment, in milliseconds. They hold
    /// back others for a second at most.
    pub fn charge(self, octets: u64, now: u64) -> Pace
        ensures { result ≡ charged octets now self }
    {
        match self.limit {
            None => self,
            Some(limit) => {
                let latest = now
                    .saturating_mul(NANOSECONDS_A_MILLISECOND)
                    .saturating_add(DEBT);
                let owed = self.over_at.saturating_add(time_of(octets, limit));
                Pace {
                    limit: self.limit,
                    over_at: self.over_at.max(owed.min(latest)),
                }
            }
        }
    }
}

// How long octets take at a limit in octets a second, in nanoseconds.
fn time_of(octets: u64, limit: u64) -> u64
    ensures { result ≡ time_of octets limit }
{
    octets
        .saturating_mul(NANOSECONDS_A_SECOND)
        .div_ceil(limit.max(1))
}
