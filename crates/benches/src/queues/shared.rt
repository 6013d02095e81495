//! Threads put bundles into a queue, a lane each, and another takes them.
ghost use Rattle.std.specs.Prelude.{◌≡◌, ◌<◌, ◌++◌, ◌∷◌, [], All, IfOk, IfSome, IsTrue};
ghost use Rattle.indications.specs.LaneLists.{IsLaneList};
ghost use Rattle.queue_rule.specs.Views.{with_sent};
ghost use Rattle.queue_tests.specs.Senders.{IsFreshLane};

use crate::fault::Fault;
use crate::queues::bundles::bundle_of;
use indications::{Bundle, Outlet};
use std::alloc::{AllocError, Global};
use std::sync::Wait;
use std::thread;
use std::thread::Threads;
use user_queues::{LaneOutlet, UserPort, UserQueue, open};

// How often one bundle is offered or waited for.
const TURNS: u32 = 10_000_000;

// Offers the bundle again and again, and returns whether it was taken.
fn offer<R: Wait + Copy>(outlet: &mut LaneOutlet<R>, bundle: Bundle) -> bool
    requires of_user { bundle.user ≡ outlet.old.knows.user }
    requires of_lane { bundle.lane ≡ outlet.old.knows.lane }
    requires goes_on { IsLaneList bundle.user bundle.lane bundle.key.source (outlet.old.knows.sent ++ bundle ∷ []) }
    ensures { IsTrue result → outlet.new.knows ≡ with_sent outlet.old.knows bundle }
{
    let mut bundle = bundle;
    for _ in 0..TURNS {
        match outlet.offer(bundle) {
            Ok(()) => return true,
            Err(back) => bundle = back,
        }
        thread::yield_now();
    }
    false
}

// Sends this many bundles of a lane, and returns whether all were taken.
fn produce<R: Wait + Copy>(
    alloc: Global,
    outlet: &mut LaneOutlet<R>,
    lane: usize,
    count: u32,
) -> Result<bool, AllocError>
    requires { IsFreshLane outlet.old lane }
{
    for seq in 0..u64::from(count) {
        let bundle = bundle_of(alloc, lane, seq + 1)?;
        if !offer(outlet, bundle) {
            return Ok(false);
        }
    }
    Ok(true)
}

// Has all lanes send, each in a thread of its own, and returns whether all bundles were taken.
fn produce_all<R: Threads + Wait + Copy + Send + Sync>(
    rt: &R,
    alloc: Global,
    outlets: Vec<LaneOutlet<R>>,
    count: u32,
) -> Result<bool, AllocError>
    requires { All (λ outlet. IsFreshLane outlet outlet.knows.lane) outlets.items }
{
    let sent = thread::map_vec(
        rt,
        outlets,
        &|outlet: LaneOutlet<R>| -> Result<bool, AllocError>
            requires { IsFreshLane outlet outlet.knows.lane }
        {
            let mut outlet = outlet;
            let lane = outlet.lane();
            produce(alloc, &mut outlet, lane, count)
        },
    )?;
    for sent in sent {
        if !sent? {
            return Ok(false);
        }
    }
    Ok(true)
}

// Waits for a bundle, and returns whether one came.
fn takes_one<R: Wait>(rt: &R, port: &mut UserPort) -> bool {
    for _ in 0..TURNS {
        if port.take(rt).is_some() {
            return true;
        }
        thread::yield_now();
    }
    false
}

// Takes this many bundles, and returns how many came.
fn consume<R: Wait>(rt: &R, port: &mut UserPort, count: u64) -> u64 {
    for came in 0..count {
        if !takes_one(rt, port) {
            return came;
        }
    }
    count
}

// The ends of the queue of the only user, with room for this many bundles.
fn ends<R: Wait + Copy>(
    rt: R,
    alloc: Global,
    lanes: usize,
    room: usize,
) -> Result<Option<UserQueue<R>>, AllocError>
    requires { 0 < room }
    ensures { IfOk result (λ ends. IfSome ends (λ e.
        All (λ outlet. IsFreshLane outlet outlet.knows.lane) e.outlets.items)) }
{
    let mut queues = open(rt, alloc, &[lanes], room)?;
    let Some(only) = queues.users.pop() else {
        return Ok(None);
    };
    Ok(Some(only))
}

/// Each of `lanes` lanes sends `count` bundles to a queue with room for `room`. Returns how many came.
pub(crate) fn come<R: Threads + Wait + Copy + Send + Sync>(
    rt: R,
    alloc: Global,
    lanes: usize,
    room: usize,
    count: u32,
) -> Result<u64, Fault> {
    if room == 0 {
        return Err(Fault::Usage);
    }
    let Some(UserQueue { mut port, outlets }) = ends(rt, alloc, lanes, room)? else {
        return Ok(0);
    };
    let all = u64::from(count).saturating_mul(lanes as u64);
    let (sent, came) = thread::join(
        &rt,
        || -> Result<bool, AllocError>
            requires { All (λ outlet. IsFreshLane outlet outlet.knows.lane) outlets.items }
        { produce_all(&rt, alloc, outlets, count) },
        || consume(&rt, &mut port, all),
    );
    if !sent? {
        return Err(Fault::NotSent);
    }
    Ok(came)
}
