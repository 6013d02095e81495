ghost use Rattle.std.specs.Prelude.{◌≡◌, ◌<◌, [], length, IfOk, OnOk, IfErr, OnErr, IfSome, IfNone};
ghost use Rattle.user_queues.specs.Queue.{empty, with_front, with_last, IsFull};

use crate::list_outlet::ListOutlet;
use circular_buffer::HeapCircularBuffer;
use indications::Bundle;
use std::alloc::{AllocError, Global};
use std::marker::Model;

/// A user's queue for one thread, a ring of bundles. Contracts see the user, how many lanes the user has, how many
/// bundles there is room for, and the bundles held, from the front on.
#[derive(Drop)]
pub struct ListQueue {
    user: usize,
    lanes: usize,
    ring: HeapCircularBuffer<Bundle>,
}

impl Model for ListQueue {
    ghost use Rattle.std.specs.Prelude.{◌≤◌, length};
    ghost use Rattle.user_queues.specs.Queue.{Queue, queue_in};

    ghost Value = { Queue };

    ghost view = { λ q. queue_in q.user q.lanes q.ring };

    ghost invariant = { λ q. length q.ring.items ≤ q.ring.capacity };
}

impl ListQueue {
    /// An empty queue with room for `capacity` bundles. The room is allocated here; no other call allocates.
    pub fn new(
        alloc: Global,
        user: usize,
        lanes: usize,
        capacity: usize,
    ) -> Result<ListQueue, AllocError>
        ensures { IfOk result (λ queue. queue ≡ empty user lanes capacity) }
    {
        let ring = HeapCircularBuffer::with_capacity(alloc, capacity)?;
        Ok(ListQueue { user, lanes, ring })
    }

    /// The outlet of one of the user's lanes.
    pub fn outlet(&mut self, lane: usize) -> ListOutlet<'_>
        requires { lane < self.old.lanes }
        ensures same_reference { result.queue.ghost_name ≡ self.entry.ghost_name }
        ensures queue { result.queue.now ≡ self.old }
        ensures lane { result.lane ≡ lane }
    {
        ListOutlet::new(self, lane)
    }

    /// Appends a bundle. Gives it back where the queue is full.
    pub(crate) fn put(&mut self, bundle: Bundle) -> Result<(), Bundle>
        ensures room { OnOk result (length self.old.held < self.old.capacity) }
        ensures held { OnOk result (self.new ≡ with_last self.old bundle) }
        ensures back { IfErr result (λ back. back ≡ bundle) }
        ensures full { OnErr result (IsFull self.old self.new) }
    {
        self.ring.try_push_back(bundle)
    }

    /// Takes the bundle at the front, if there is one.
    pub fn take(&mut self) -> Option<Bundle>
        ensures none { IfNone result ((self.old.held ≡ []) × (self.new ≡ self.old)) }
        ensures front { IfSome result (λ bundle. self.old ≡ with_front self.new bundle) }
    {
        self.ring.pop_front()
    }
}
