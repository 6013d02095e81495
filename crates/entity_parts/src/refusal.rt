ghost use Rattle.std.specs.Prelude.{◌≡◌};
ghost use Rattle.entity_parts.specs.Refusals.{is_final, is_passing, name_of, number_of};

use entity_routing::{RouteRefusal, WRONG_LANE_NAME, WRONG_LANE_NUMBER};
use lane_table::Refused;
use txn_events::Refusal;

/// Why an entity refuses an event, which then changes nothing.
#[derive(Debug, Drop)]
pub enum EntityRefusal {
    /// No lane gets the event.
    Route(RouteRefusal),
    /// The lane refuses the event. NoMemory is also reported this way where memory runs out before a lane is found.
    Lane(Refused),
    /// The lane that a lock holds is not the one that the event goes to. This is possible only in the shared entity,
    /// and only where a gate does more with lanes than have them step.
    WrongLane,
}

impl EntityRefusal {
    /// The refusal's number, as it is printed.
    pub fn number(&self) -> u8
        ensures { result ≡ number_of self.now }
    {
        match self {
            EntityRefusal::Route(why) => why.number(),
            EntityRefusal::Lane(refused) => refused.why.number(),
            EntityRefusal::WrongLane => WRONG_LANE_NUMBER,
        }
    }

    /// The refusal's name, as it is printed.
    pub fn name(&self) -> &'static str
        ensures { result.now ≡ name_of self.now }
    {
        match self {
            EntityRefusal::Route(why) => why.name(),
            EntityRefusal::Lane(refused) => refused.why.name(),
            EntityRefusal::WrongLane => WRONG_LANE_NAME,
        }
    }

    /// Whether the refusal is temporary: memory ran out, or a user's queue was full. The event may be tried again soon.
    pub fn is_passing(&self) -> bool
        ensures { result ≡ is_passing self.now }
    {
        match self {
            EntityRefusal::Lane(refused) => match refused.why {
                Refusal::NoMemory | Refusal::QueueFull => true,
                _ => false,
            },
            _ => false,
        }
    }

    /// Whether the event's transaction is out of reach: it does not exist, has ended, or the event has no lane.
    pub fn is_final(&self) -> bool
        ensures { result ≡ is_final self.now }
    {
        match self {
            EntityRefusal::Lane(refused) => match refused.why {
                Refusal::NoTransaction | Refusal::OldTransaction => true,
                _ => false,
            },
            _ => true,
        }
    }
}

impl From<RouteRefusal> for EntityRefusal {
    ghost use Rattle.std.specs.Prelude.{◌≡◌};
    ghost use Rattle.entity_parts.specs.declared.refusal.EntityRefusal.TheVariants as answer;

    ghost from_gives = { λ why e. e ≡ answer.Route why };

    fn from(why: RouteRefusal) -> EntityRefusal {
        EntityRefusal::Route(why)
    }
}
