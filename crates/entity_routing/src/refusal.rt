ghost use Rattle.std.specs.Prelude.{◌≡◌};
ghost use Rattle.entity_routing.specs.Refusal.{refusal_name, refusal_number};

use pdu_reading::DecodeFault;

/// The number and the name of the entity's refusal that is not a route's: a lock holds a lane other than the event's.
pub const WRONG_LANE_NUMBER: u8 = 26;

pub const WRONG_LANE_NAME: &str = "WrongLane";

/// Why no lane gets an event, which then changes nothing. Where several reasons apply, the first is reported.
#[derive(Clone, Copy, Debug, PartialEq, Eq)]
pub enum RouteRefusal {
    /// The octets are not a PDU that the entity accepts.
    DecodeFault(DecodeFault),
    /// The PDU is addressed to another entity, or to the sender of another entity's transaction.
    NotForUs,
    /// The PDU's direction does not fit its kind.
    WrongDirection,
    /// The source is neither the entity itself nor a remote entity whose files go to a user.
    NoRoute,
    /// The transaction belongs to another user than the one who asks.
    NotYours,
    /// The configuration does not name the destination entity of a Put.
    UnknownRemote,
}

impl RouteRefusal {
    /// The refusal's number, as it is printed.
    pub fn number(self) -> u8
        ensures { result ≡ refusal_number self }
    {
        match self {
            RouteRefusal::DecodeFault(_) => 20,
            RouteRefusal::NotForUs => 21,
            RouteRefusal::WrongDirection => 22,
            RouteRefusal::NoRoute => 23,
            RouteRefusal::NotYours => 24,
            RouteRefusal::UnknownRemote => 25,
        }
    }

    /// The refusal's name, as it is printed.
    pub fn name(self) -> &'static str
        ensures { result.now ≡ refusal_name self }
    {
        match self {
            RouteRefusal::DecodeFault(_) => "DecodeFault",
            RouteRefusal::NotForUs => "NotForUs",
            RouteRefusal::WrongDirection => "WrongDirection",
            RouteRefusal::NoRoute => "NoRoute",
            RouteRefusal::NotYours => "NotYours",
            RouteRefusal::UnknownRemote => "UnknownRemote",
        }
    }
}
