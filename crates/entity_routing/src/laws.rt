//! Laws of every route, stated over the definitions alone.

ghost use Rattle.entity_routing.specs.RouteLaws.{NumbersTellLanes, OthersAreReceived, OwnAreSent, PdusGoTheirWay, PdusKeepKeys, PlacesAreWithin};

/// The lane of a transaction, if it has one, is one that the configuration gives to one of its users.
pub fn within()
    ensures { PlacesAreWithin }
{}

/// The entity's own transactions are in sending lanes.
pub fn own()
    ensures { OwnAreSent }
{}

/// All other transactions are in lanes that receive from their source.
pub fn received()
    ensures { OthersAreReceived }
{}

/// Among the lanes that receive from a source, the number of a transaction determines its lane.
pub fn numbers()
    ensures { NumbersTellLanes }
{}

/// A PDU goes to the lane of its transaction; it goes toward the sender exactly where that is one of the entity's own.
pub fn ways()
    ensures { PdusGoTheirWay }
{}

/// A lane gets each PDU with the PDU's own key.
pub fn keys()
    ensures { PdusKeepKeys }
{}
