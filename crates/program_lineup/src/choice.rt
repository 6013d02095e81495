ghost use Rattle.std.specs.Prelude.{◌≡◌};
ghost use Rattle.program_lineup.specs.Lineups.{chosen, is_so, least, most};

/// How a number stands toward an entity.
#[derive(Clone, Copy, Debug, PartialEq, Eq)]
pub enum Standing {
    /// A transaction may begin with it.
    Free,
    /// A transaction may begin with it once the one that is open with the same remainder has ended.
    Awaits,
    /// No transaction may begin with it: this number, or a greater one with the same remainder, was used.
    Lags,
}

/// What can be done for a file of a user to an entity.
#[derive(Clone, Copy, Debug, PartialEq, Eq)]
pub enum Choice {
    /// The lane whose next number this is begins its transaction.
    Goes(u64),
    /// The lane whose next number this is uses it up without sending anything: all idle lanes of the user lag.
    Skips(u64),
    /// It waits.
    Waits,
}

impl Standing {
    /// Whether both are the same.
    pub(crate) fn is(self, other: Standing) -> bool
        ensures { result ≡ is_so self other }
    {
        matches!(
            (self, other),
            (Standing::Free, Standing::Free)
                | (Standing::Awaits, Standing::Awaits)
                | (Standing::Lags, Standing::Lags)
        )
    }
}

/// The lesser of two numbers, or the one that is there.
pub(crate) fn least(best: Option<u64>, number: u64) -> Option<u64>
    ensures { result ≡ least best number }
{
    match best {
        None => Some(number),
        Some(other) => Some(other.min(number)),
    }
}

/// The greater of two numbers, or the one that is there.
pub(crate) fn most(best: Option<u64>, number: u64) -> Option<u64>
    ensures { result ≡ most best number }
{
    match best {
        None => Some(number),
        Some(other) => Some(other.max(number)),
    }
}

/// The choice by the lowest number that may go, whether an idle lane waits for a transaction to end, and the highest
/// number of a lane that lags.
pub(crate) fn chosen(lowest: Option<u64>, awaits: bool, highest: Option<u64>) -> Choice
    ensures { result ≡ chosen lowest awaits highest }
{
    match (lowest, awaits, highest) {
        (Some(number), _, _) => Choice::Goes(number),
        (None, false, Some(number)) => Choice::Skips(number),
        _ => Choice::Waits,
    }
}
