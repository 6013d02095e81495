//! Which transactions may have something to send after an event.
ghost use Rattle.std.specs.Prelude.{◌≡◌};
ghost use Rattle.cfdp_session.specs.Turning.{after_turn, rested_by, turned, woken_by};

use crate::Turns;
use cfdp_types::{EntityId, TxnKey};
use entity_parts::EntityRefusal;
use entity_routing::WorldEvent;
use lane_table::Done;

/// Notes the answer to an event of an entity with this ID.
pub(crate) fn note(
    turns: &mut Turns,
    local: EntityId,
    event: &WorldEvent,
    answer: &Result<Done, EntityRefusal>,
)
    ensures { turns.new ≡ turned local event.now answer.now turns.old }
{
    note_turn(turns, local, event);
    match answer {
        Ok(done) => note_taken(turns, local, done.key),
        Err(why) => note_refused(turns, local, event, why),
    }
}

// The lane of a transaction whose next PDU was asked for has had its turn.
fn note_turn(turns: &mut Turns, local: EntityId, event: &WorldEvent)
    ensures { turns.new ≡ after_turn local event.now turns.old }
{
    if let WorldEvent::Pump(key) = event {
        if key.source == local {
            turns.pass(key.seq);
        }
    }
}

// A transaction of the entity's own that took an event may have something to send.
fn note_taken(turns: &mut Turns, local: EntityId, key: TxnKey)
    ensures { turns.new ≡ woken_by local key turns.old }
{
    if key.source == local {
        turns.wake(key.seq);
    }
}

// One that was refused its next PDU has nothing to send, unless it may be asked again.
fn note_refused(turns: &mut Turns, local: EntityId, event: &WorldEvent, why: &EntityRefusal)
    ensures { turns.new ≡ rested_by local event.now why.now turns.old }
{
    if let WorldEvent::Pump(key) = event {
        if key.source == local && !why.is_passing() {
            turns.rest(key.seq);
        }
    }
}
