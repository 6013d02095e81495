//! A lane's step together with its user's queue.
ghost use Rattle.std.specs.Prelude.{◌≡◌, IfOk, IfErr, OnOk, OnErr};
ghost use Rattle.lane_table.specs.Keeping.{bundle_of};
ghost use Rattle.lane_table.specs.Steps.{IsKeyed};
ghost use Rattle.txn_lane.specs.Stepping.{IsTaken};
ghost use Rattle.world_core.specs.Posts.{Fits, IsToldTo, IsWhyRefused};

use txn_events::Event;
use txn_lane::{Done, Lane, Refused};
use user_queues::ListQueue;

/// Has the lane with this number of a user handle an event; the step's indications go into the user's queue.
pub fn step_lane(
    queue: &mut ListQueue,
    lane: &mut Lane,
    number: usize,
    event: &Event,
) -> Result<Done, Refused>
    requires keyed { IsKeyed event.now }
    requires fits { Fits lane.old number queue.old }
    ensures taken { IfOk result (λ done. IsTaken lane.old event.now lane.new done) }
    ensures told { OnOk result (IsToldTo queue.old (bundle_of lane.new) queue.new) }
    ensures refused { IfErr result (IsWhyRefused lane.old queue.old event.now) }
    ensures same { OnErr result ((lane.new ≡ lane.old) × (queue.new ≡ queue.old)) }
{
    let mut outlet = queue.outlet(number);
    lane.step(event, &mut outlet)
}
