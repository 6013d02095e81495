//! Offers and takes at a queue of one thread.
ghost use Rattle.std.specs.Prelude.{◌≡◌, ◌<◌, ◌+◌, ◌^◌, ◌++◌, ◌∷◌, [], List, IsTrue, not, OnOk};
ghost use Rattle.indications.specs.LaneLists.{IsLaneList};
ghost use Rattle.indications.specs.declared.bundle.Bundle.{Bundle as BundleValue};
ghost use Rattle.queue_tests.specs.Senders.{HoldsOver};
ghost use Rattle.user_queues.specs.Queue.{EndsInHeld, with_last};

use crate::fault::Fault;
use crate::queues::bundles::bundle_of;
use indications::{Bundle, Outlet};
use std::alloc::{AllocError, Global};
use user_queues::ListQueue;

// Whether the queue took a bundle of the first lane.
fn put(queue: &mut ListQueue, bundle: Bundle) -> bool
    requires lanes { 0 < queue.old.lanes }
    requires of_user { bundle.user ≡ queue.old.user }
    requires of_lane { bundle.lane ≡ 0 }
    requires goes_on { (bundles : List BundleValue) × EndsInHeld queue.old 0 bundles
        × IsLaneList bundle.user bundle.lane bundle.key.source (bundles ++ bundle ∷ []) }
    ensures taken { IsTrue result → queue.new ≡ with_last queue.old bundle }
    ensures back { IsTrue (not result) → queue.new ≡ queue.old }
{
    queue.outlet(0).offer(bundle).is_ok()
}

// The bundle with the next number goes in, where there is room.
fn put_next(alloc: Global, queue: &mut ListQueue, number: u64) -> Result<(), AllocError>
    requires number { number + 1 < 2 ^ 64 }
    requires holds { HoldsOver queue.old number }
    ensures { OnOk result (HoldsOver queue.new (number + 1)) }
{
    let bundle = bundle_of(alloc, 0, number + 1)?;
    put(queue, bundle);
    Ok(())
}

// Takes a bundle, and returns whether one came.
fn take_one(queue: &mut ListQueue, number: u64) -> bool
    requires holds { HoldsOver queue.old number }
    ensures { HoldsOver queue.new (number + 1) }
{
    queue.take().is_some()
}

// Offers or takes a bundle. Returns whether a bundle came.
fn turn(
    alloc: Global,
    queue: &mut ListQueue,
    is_filling: bool,
    number: u64,
) -> Result<bool, AllocError>
    requires number { number + 1 < 2 ^ 64 }
    requires holds { HoldsOver queue.old number }
    ensures { OnOk result (HoldsOver queue.new (number + 1)) }
{
    if is_filling {
        put_next(alloc, queue, number)?;
        return Ok(false);
    }
    Ok(take_one(queue, number))
}

/// Offers fill the queue and takes empty it, again and again, in twice `count` turns. Returns how many bundles came.
pub(crate) fn come(alloc: Global, room: usize, count: u32) -> Result<u64, Fault> {
    if room == 0 {
        return Err(Fault::Usage);
    }
    let mut queue = ListQueue::new(alloc, 0, 2, room)?;
    let mut came = 0u64;
    let mut turns = 0usize;
    let mut is_filling = true;
    for number in 0..2 * u64::from(count) {
        if turn(alloc, &mut queue, is_filling, number)? {
            came = came.saturating_add(1);
        }
        turns = turns.saturating_add(1);
        if turns >= room {
            turns = 0;
            is_filling = !is_filling;
        }
    }
    Ok(came)
}
