//! Threads put bundles into a queue, and another thread takes them.
ghost use Rattle.std.specs.Prelude.{◌≡◌, ◌<◌, ◌++◌, ◌∷◌, [], All, IfOk, IfSome, IsTrue};
ghost use Rattle.indications.specs.LaneLists.{IsLaneList};
ghost use Rattle.queue_rule.specs.Views.{with_sent};
ghost use Rattle.user_queues.specs.Opened.{IsOpenedFor};
ghost use Rattle.queue_tests.specs.Senders.{IsFreshLane, AreFresh};

use crate::bundles::{are_alike, bundle_of};
use indications::{Bundle, Outlet};
use std::alloc::{AllocError, Global};
use std::sync::Wait;
use std::sync::atomic::{AtomicBool, Ordering};
use std::test::*;
use std::thread;
use std::thread::{Parker, Threads};
use std::time::Duration;
use user_queues::{LaneOutlet, UserPort, UserQueue, open};

// How many bundles each lane sends.
const COUNT: u64 = 100;

// How often each end tries.
const TURNS: u32 = 200_000;

// Lets other threads run for a moment. If a thread only yields, it may use up all its turns before the thread that it
// waits for has its first.
fn pause<R: Wait>(rt: &R) {
    Parker::new().park_timeout(rt, Duration::from_micros(50));
}

// Offers a bundle until it is taken, and notes when the queue was full. Returns whether the bundle was taken.
fn offer<R: Wait + Copy>(
    rt: &R,
    outlet: &mut LaneOutlet<R>,
    bundle: Bundle,
    was_full: &AtomicBool,
) -> bool
    requires of_user { bundle.user ≡ outlet.old.knows.user }
    requires of_lane { bundle.lane ≡ outlet.old.knows.lane }
    requires goes_on { IsLaneList bundle.user bundle.lane bundle.key.source (outlet.old.knows.sent ++ bundle ∷ []) }
    ensures { IsTrue result → outlet.new.knows ≡ with_sent outlet.old.knows bundle }
{
    let mut bundle = bundle;
    for _ in 0..TURNS {
        match outlet.offer(bundle) {
            Ok(()) => return true,
            Err(back) => bundle = back,
        }
        was_full.store(true, Ordering::SeqCst);
        pause(rt);
    }
    false
}

// Sends all bundles of a lane, and returns whether all were taken.
fn produce<R: Wait + Copy>(
    rt: &R,
    alloc: Global,
    outlet: &mut LaneOutlet<R>,
    lane: usize,
    was_full: &AtomicBool,
) -> Result<bool, AllocError>
    requires { IsFreshLane outlet.old lane }
{
    for seq in 0..COUNT {
        let bundle = bundle_of(alloc, lane, seq + 1)?;
        if !offer(rt, outlet, bundle, was_full) {
            return Ok(false);
        }
    }
    Ok(true)
}

// Counts a bundle of its lane, and returns whether it is the lane's next one.
fn comes_next(alloc: Global, last: &mut [u64], bundle: &Bundle) -> Result<bool, AllocError> {
    let Some(last) = last.get_mut(bundle.lane) else {
        return Ok(false);
    };
    if *last >= COUNT {
        return Ok(false);
    }
    *last += 1;
    Ok(are_alike(bundle, &bundle_of(alloc, bundle.lane, *last)?))
}

// Takes bundles until all of each lane have come, and returns whether each lane's came in order. `last` has the last
// number of each lane. A slow user waits after each bundle.
fn consume<R: Wait>(
    rt: &R,
    alloc: Global,
    port: &mut UserPort,
    is_slow: bool,
    last: &mut [u64],
) -> Result<bool, AllocError> {
    for _ in 0..TURNS {
        let came = port.take(rt);
        if came.is_none() || is_slow {
            pause(rt);
        }
        if let Some(bundle) = came {
            if !comes_next(alloc, last, &bundle)? {
                return Ok(false);
            }
        }
        if last.iter().all(|seq| *seq == COUNT) {
            return Ok(true);
        }
    }
    Ok(false)
}

// The queue of the only user, with room for `capacity` bundles.
fn ends<R: Wait + Copy>(
    rt: R,
    alloc: Global,
    lanes: usize,
    capacity: usize,
) -> Result<Option<UserQueue<R>>, AllocError>
    requires { 0 < capacity }
    ensures { IfOk result (λ ends. IfSome ends (λ e. IsOpenedFor 0 lanes capacity e.port e.outlets.items
        × All (λ outlet. IsFreshLane outlet outlet.knows.lane) e.outlets.items)) }
{
    let mut queues = open(rt, alloc, &[lanes], capacity)?;
    let Some(only) = queues.users.pop() else {
        return Ok(None);
    };
    Ok(Some(only))
}

/// The ends of a queue of two lanes.
#[derive(Drop)]
pub(crate) struct TwoEnds<R: Copy> {
    pub(crate) port: UserPort,
    pub(crate) first: LaneOutlet<R>,
    pub(crate) second: LaneOutlet<R>,
}

/// A queue of two lanes with room for `capacity` bundles.
pub(crate) fn ends_of_two<R: Wait + Copy>(
    rt: R,
    alloc: Global,
    capacity: usize,
) -> Result<Option<TwoEnds<R>>, AllocError>
    requires { 0 < capacity }
    ensures { IfOk result (λ ends. IfSome ends (λ e. AreFresh e.port e.first e.second)) }
{
    let Some(UserQueue { port, mut outlets }) = ends(rt, alloc, 2, capacity)? else {
        return Ok(None);
    };
    let Some(second) = outlets.pop() else {
        return Ok(None);
    };
    let Some(first) = outlets.pop() else {
        return Ok(None);
    };
    Ok(Some(TwoEnds {
        port,
        first,
        second,
    }))
}

#[test]
fn given_back(rt: HostRuntime) -> Result<(), Fail> {
    let Some(mut ends) = ends_of_two(rt, rt.alloc(), 4)? else {
        panic!(rt; "no ends");
    };
    assert!(rt; are_of_first_user(&ends));
    assert!(rt; ends.port.room() == 4 && ends.port.waiting(&rt) == 0);
    assert!(rt; are_given_back(&rt, ends));
    Ok(())
}

fn are_of_first_user<R: Copy>(ends: &TwoEnds<R>) -> bool {
    ends.port.user() == 0
        && ends.second.user() == 0
        && ends.first.lane() == 0
        && ends.second.lane() == 1
}

// Whether the port knows when both lanes have given their outlets back.
fn are_given_back<R: Wait + Copy>(rt: &R, ends: TwoEnds<R>) -> bool
    requires { AreFresh ends.port ends.first ends.second }
{
    let TwoEnds {
        mut port,
        first,
        second,
    } = ends;
    port.admit(second);
    if port.is_complete() {
        return false;
    }
    port.admit(first);
    port.is_complete() && port.take(rt).is_none()
}

// Has all lanes send, each in a thread of its own, and returns whether all bundles were taken.
fn produce_all<R: Threads + Wait + Copy + Send + Sync>(
    rt: &R,
    alloc: Global,
    outlets: Vec<LaneOutlet<R>>,
    was_full: &AtomicBool,
) -> Result<bool, AllocError>
    requires { All (λ outlet. IsFreshLane outlet outlet.knows.lane) outlets.items }
{
    let sent = thread::map_vec(
        rt,
        outlets,
        &|outlet: LaneOutlet<R>| -> Result<bool, AllocError>
            requires { IsFreshLane outlet outlet.knows.lane }
        {
            let mut outlet = outlet;
            let lane = outlet.lane();
            produce(rt, alloc, &mut outlet, lane, was_full)
        },
    )?;
    for sent in sent {
        if !sent? {
            return Ok(false);
        }
    }
    Ok(true)
}

// Waits until a lane has met a full queue, and returns whether one did.
fn waits_until<R: Wait>(rt: &R, was_full: &AtomicBool) -> bool {
    for _ in 0..TURNS {
        if was_full.load(Ordering::SeqCst) {
            return true;
        }
        pause(rt);
    }
    false
}

// Has lanes send to a queue with room for four bundles. Returns whether all bundles come, those of each lane in order,
// and no others. A slow user takes nothing before a lane has met a full queue.
fn all_come<R: Threads + Wait + Copy + Send + Sync>(
    rt: R,
    alloc: Global,
    is_slow: bool,
    last: &mut [u64],
) -> Result<bool, AllocError> {
    let Some(UserQueue { mut port, outlets }) = ends(rt, alloc, last.len(), 4)? else {
        return Ok(false);
    };
    let was_full = AtomicBool::new(!is_slow);
    let (sent, came) = thread::join(
        &rt,
        || -> Result<bool, AllocError>
            requires { All (λ outlet. IsFreshLane outlet outlet.knows.lane) outlets.items }
        { produce_all(&rt, alloc, outlets, &was_full) },
        || -> Result<bool, AllocError> {
            Ok(waits_until(&rt, &was_full) && consume(&rt, alloc, &mut port, is_slow, last)?)
        },
    );
    Ok(sent? && came? && port.take(&rt).is_none())
}

#[test]
fn two_producers(rt: HostRuntime) -> Result<(), Fail> {
    assert!(rt; all_come(rt, rt.alloc(), false, &mut [0; 2])?);
    Ok(())
}

#[test]
fn four_producers(rt: HostRuntime) -> Result<(), Fail> {
    assert!(rt; all_come(rt, rt.alloc(), true, &mut [0; 4])?);
    Ok(())
}
