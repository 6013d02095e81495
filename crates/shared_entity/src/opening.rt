//! Putting the lanes of an entity behind their locks.
ghost use Rattle.std.specs.Prelude.{◌≡◌, ◌+◌, All, OnOk, vec_len};
ghost use Rattle.entity_parts.specs.FirstLanes.{first_lane};
ghost use Rattle.shared_entity.specs.Opening.{IsFresh};

use entity_config::Config;
use entity_parts::lane_for;
use shared_lanes::{Held, Names};
use std::alloc::{AllocError, Global};
use std::sync::Mutex;
use user_queues::LaneOutlet;

/// Appends the lanes of these outlets, each behind its own lock, with its outlet.
pub(crate) fn add_lanes<N: Names, R: Copy>(
    alloc: Global,
    config: &Config,
    outlets: Vec<LaneOutlet<R>>,
    lanes: &mut Vec<Mutex<Held<N, R>>>,
) -> Result<(), AllocError>
    requires { All (λ outlet. IsFresh N.queue outlet) outlets.items }
    ensures { OnOk result (vec_len lanes.new ≡ vec_len lanes.old + vec_len outlets) }
{
    for outlet in outlets {
        lanes.push(Mutex::new(held_for(alloc, config, outlet)))?;
    }
    Ok(())
}

// The new lane of an outlet, with the outlet.
fn held_for<N: Names, R: Copy>(alloc: Global, config: &Config, outlet: LaneOutlet<R>) -> Held<N, R>
    requires { IsFresh N.queue outlet }
    ensures lane { result.lane ≡ first_lane config.now outlet.knows.user outlet.knows.lane }
    ensures outlet { result.outlet ≡ outlet }
{
    Held::new(
        lane_for(alloc, config, outlet.user(), outlet.lane()),
        outlet,
    )
}
