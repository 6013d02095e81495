//! Opening the queues of all users.
ghost use Rattle.std.specs.Prelude.{◌≡◌, ◌<◌, ℕ, Some, IfOk, length, slice_get, slice_index, vec_len};
ghost use Rattle.user_queues.specs.Opened.{IsOpenedFor};

use crate::lane_outlet::LaneOutlet;
use crate::user_port::UserPort;
use std::alloc::{AllocError, Global};
use std::sync::Wait;

/// The two kinds of ends of one user's queue, which threads share.
#[derive(Drop)]
pub struct UserQueue<R: Copy> {
    pub port: UserPort,
    /// The outlets of the user's lanes, in order.
    pub outlets: Vec<LaneOutlet<R>>,
}

/// The queues of all users, in the order of their numbers.
#[derive(Drop)]
pub struct Queues<R: Copy> {
    pub users: Vec<UserQueue<R>>,
}

/// Opens a queue for each user, with this many lanes and room for `capacity` bundles.
pub fn open<R: Wait + Copy>(
    rt: R,
    alloc: Global,
    lanes: &[usize],
    capacity: usize,
) -> Result<Queues<R>, AllocError>
    requires { 0 < capacity }
    ensures users { IfOk result (λ queues. vec_len queues.users ≡ length lanes.now) }
    ensures opened { IfOk result (λ queues. (user : ℕ) (ends : _) → slice_get queues.users.items user ≡ Some ends
        → IsOpenedFor user (slice_index lanes.now user) capacity ends.port ends.outlets.items) }
{
    let mut users = Vec::with_capacity(alloc, lanes.len())?;
    for (user, count) in lanes.iter().enumerate() {
        users.push(open_user(rt, alloc, user, *count, capacity)?)?;
    }
    Ok(Queues { users })
}

// Opens the queue of one user.
fn open_user<R: Wait + Copy>(
    rt: R,
    alloc: Global,
    user: usize,
    lanes: usize,
    capacity: usize,
) -> Result<UserQueue<R>, AllocError>
    requires { 0 < capacity }
    ensures { IfOk result (λ ends. IsOpenedFor user lanes capacity ends.port ends.outlets.items) }
{
    let mut port = UserPort::open(alloc, user, capacity)?;
    let mut outlets = Vec::with_capacity(alloc, lanes)?;
    for lane in 0..lanes {
        outlets.push(port.next_lane(rt, lane)?)?;
    }
    Ok(UserQueue { port, outlets })
}
