//! Events as an entity's caller gives them.
ghost use Rattle.std.specs.Prelude.{◌≡◌, IfOk};
ghost use Rattle.journal_scripts.specs.Laws.{caller_event, caller_what};
ghost use Rattle.entity_routing.specs.declared.world_event.WorldEvent.TheVariants as events;
ghost use Rattle.pdu_values.specs.Spelling.{written};

use cfdp_types::{Octets, TxnKey};
use entity_routing::{Place, Request, WorldEvent};
use pdu_codec::{Pdu, encode};
use std::alloc::{AllocError, Global};
use txn_events::{Event, What};

/// An event of a lane, as it came to the entity; a PDU as its datagram.
pub(crate) fn caller_event(
    alloc: Global,
    place: Place,
    event: &Event,
) -> Result<WorldEvent, AllocError>
    ensures { IfOk result (λ given. given ≡ caller_event place.user place.lane event.now) }
{
    match event {
        Event::Put(put, _) => {
            let request = Request::Put(place.lane, put.copy()?);
            Ok(WorldEvent::Request(place.user, request))
        }
        Event::On(key, what) => caller_what(alloc, place.user, *key, what),
    }
}

fn caller_what(
    alloc: Global,
    user: usize,
    key: TxnKey,
    what: &What,
) -> Result<WorldEvent, AllocError>
    ensures { IfOk result (λ given. given ≡ caller_what user key what.now) }
{
    match what {
        What::Cancel => Ok(WorldEvent::Request(user, Request::Cancel(key))),
        What::Suspend => Ok(WorldEvent::Request(user, Request::Suspend(key))),
        What::Resume => Ok(WorldEvent::Request(user, Request::Resume(key))),
        What::Report => Ok(WorldEvent::Request(user, Request::Report(key))),
        What::Abandon => Ok(WorldEvent::Request(user, Request::Abandon(key))),
        What::Pump => Ok(WorldEvent::Pump(key)),
        What::Pdu(pdu) => datagram(alloc, pdu),
        What::Timer(kind, stamp) => Ok(WorldEvent::Timer(key, *kind, *stamp)),
        What::Stored(stamp, kept) => Ok(WorldEvent::Stored(key, *stamp, *kept)),
    }
}

// The datagram of a PDU.
fn datagram(alloc: Global, pdu: &Pdu) -> Result<WorldEvent, AllocError>
    ensures { IfOk result (λ given. given ≡ events.Deliver (written pdu.now)) }
{
    let mut octets = Vec::new(alloc);
    encode(pdu, &mut octets)?;
    Ok(WorldEvent::Deliver(Octets::from_vec(octets)?))
}
