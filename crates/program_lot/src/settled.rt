ghost use Rattle.std.specs.Prelude.{◌≡◌};
ghost use Rattle.program_lot.specs.Waits.{settled_by, outcome_of};

use entity_parts::EntityRefusal;
use program_parking::Outcome;
use txn_events::Refusal;

/// What becomes of a datagram that was handed in, or has just come.
#[derive(Clone, Copy, Debug, PartialEq, Eq)]
pub enum Settled {
    /// Its lane took it.
    Taken,
    /// It was refused for good.
    Refused,
    /// It waits for room in its user's queue, which the station itself empties.
    WantsRoom,
    /// It waits until its lane's transaction ends, or for memory.
    WantsLane,
}

impl Settled {
    /// What a refusal means for the datagram, if there is memory. `takes` says whether the station itself takes from its
    /// users' queues.
    pub fn by(takes: bool, refusal: &EntityRefusal) -> Settled
        ensures { result ≡ settled_by takes refusal.now }
    {
        match refusal {
            EntityRefusal::Lane(refused) => match refused.why {
                Refusal::LaneBusy => Settled::WantsLane,
                Refusal::QueueFull if takes => Settled::WantsRoom,
                _ => Settled::Refused,
            },
            _ => Settled::Refused,
        }
    }

    /// What this means for those that are parked.
    pub(crate) fn outcome(self) -> Outcome
        ensures { result ≡ outcome_of self }
    {
        match self {
            Settled::Taken => Outcome::Taken,
            Settled::Refused => Outcome::Refused,
            Settled::WantsRoom | Settled::WantsLane => Outcome::Waits,
        }
    }
}
