//! Opening the queues of an entity's users, as configured.
ghost use Rattle.std.specs.Prelude.{◌≡◌, ℕ, Some, IfOk, length, slice_get, vec_len};
ghost use Rattle.entity_routing.specs.Places.{lanes_of};
ghost use Rattle.shared_entity.specs.Opening.{AreOpenedFor};

use entity_config::Config;
use entity_routing::lanes_of;
use std::alloc::{AllocError, Global};
use std::sync::Wait;
use user_queues::{Queues, open};

/// Opens a queue for each user, with an outlet for each of the user's lanes.
pub fn queues_of<R: Wait + Copy>(
    rt: R,
    alloc: Global,
    config: &Config,
) -> Result<Queues<R>, AllocError>
    ensures { IfOk result (AreOpenedFor config.now) }
{
    let lanes = lane_counts(alloc, config)?;
    open(rt, alloc, lanes.as_slice(), config.entity().capacity)
}

// The number of lanes of each user.
fn lane_counts(alloc: Global, config: &Config) -> Result<Vec<usize>, AllocError>
    ensures users { IfOk result (λ counts. vec_len counts ≡ length config.now.users) }
    ensures counts { IfOk result (λ counts. (user : ℕ) (count : ℕ) → slice_get counts.items user ≡ Some count
        → count ≡ lanes_of config.now user) }
{
    let mut counts = Vec::with_capacity(alloc, config.users())?;
    for user in 0..config.users() {
        counts.push(lanes_of(config, user))?;
    }
    Ok(counts)
}
