//! Making the users of an entity, as configured.
ghost use Rattle.std.specs.Prelude.{◌≡◌, [], IfOk, IsTrue};
ghost use Rattle.world_core.specs.Standing.{IsPostAfter, UsersStandAfter};
ghost use Rattle.config_reading.specs.Values.{is_config};
ghost use Rattle.world_core.specs.Opening.{layout_of};

use crate::{UserPart, Users};
use entity_config::Config;
use entity_parts::lane_for;
use entity_routing::lanes_of;
use std::alloc::{AllocError, Global};
use user_queues::ListQueue;

/// The users of a new entity.
pub(crate) fn users_for(alloc: Global, config: &Config) -> Result<Users, AllocError>
    ensures stand { IfOk result (UsersStandAfter (layout_of config.now) []) }
    ensures kept { IsTrue (is_config config.now) }
{
    let count = config.users();
    let capacity = config.entity().capacity;
    let mut parts = Vec::with_capacity(alloc, count)?;
    for user in 0..count {
        parts.push(part_for(alloc, config, user, capacity)?)?;
    }
    Ok(Users::new(parts))
}

// A new user, whose queue has room for `capacity` bundles, with the configured lanes.
fn part_for(
    alloc: Global,
    config: &Config,
    user: usize,
    capacity: usize,
) -> Result<UserPart, AllocError>
    requires { capacity ≡ config.now.entity.capacity }
    ensures { IfOk result (IsPostAfter (layout_of config.now) [] user) }
{
    let count = lanes_of(config, user);
    let queue = ListQueue::new(alloc, user, count, capacity)?;
    let mut lanes = Vec::with_capacity(alloc, count)?;
    for lane in 0..count {
        lanes.push(lane_for(alloc, config, user, lane))?;
    }
    Ok(UserPart::new(queue, lanes))
}
