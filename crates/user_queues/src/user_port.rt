ghost use Rattle.std.specs.Prelude.{◌≡◌, true, slice_set};
ghost use Rattle.std.specs.List.{list_all};

use crate::lane_outlet::LaneOutlet;
use indications::Bundle;
use queue_rule::{QueuePass, SharedQueue, admit, next_lane, open_port, take, waiting};
use std::alloc::{AllocError, Global};
use std::marker::Model;
use std::sync::{Arc, Wait};

/// The port of a queue that threads share: the end from which its user takes. Contracts see the queue, the user, and
/// all that was taken.
#[derive(Drop)]
pub struct UserPort {
    queue: Arc<SharedQueue, Global>,
    pass: QueuePass,
    user: usize,
    /// For each lane, whether it has given its outlet back.
    admitted: Vec<bool>,
}

impl Model for UserPort {
    ghost use Rattle.std.specs.Prelude.{◌≡◌};
    ghost use Rattle.std.specs.Arc.{arc_value};
    ghost use Rattle.queue_rule.specs.Passes.{IsPortOf};
    ghost use Rattle.user_queues.specs.Shared.{PortEnd, port_end, admitted_in};

    ghost Value = { PortEnd };

    ghost view = { λ p. port_end p.pass };

    ghost invariant = { λ p. IsPortOf (arc_value p.queue) p.pass × (p.user ≡ (port_end p.pass).knows.user)
        × (p.admitted.items ≡ admitted_in (port_end p.pass).knows) };
}

impl UserPort {
    ghost use Rattle.std.specs.Prelude.{◌≡◌, ◌<◌, ◌≤◌, [], length, IfOk, IfSome, IfNone};
    ghost use Rattle.std.specs.List.{list_all};
    ghost use Rattle.crossbeam_queue.specs.Fifo.{Held};
    ghost use Rattle.user_queues.specs.Opened.{IsNextLane};
    ghost use Rattle.user_queues.specs.Shared.{is_admitted};
    ghost use Rattle.queue_rule.specs.Views.{new_port, with_taken, with_known, IsTakenInOrder, IsTakenOfLanes, IsWholeWith};

    /// The port of a new queue with room for `room` bundles. The user has no lanes yet.
    pub(crate) fn open(alloc: Global, user: usize, room: usize) -> Result<UserPort, AllocError>
        requires { 0 < room }
        ensures { IfOk result (λ port. port.knows ≡ new_port user room) }
    {
        let (queue, mut first) = queue_rule::open(alloc, room)?;
        let pass = open_port(&queue, &mut first, user);
        let queue = Arc::new(alloc, queue)?;
        let admitted = Vec::new(alloc);
        Ok(UserPort {
            queue,
            pass,
            user,
            admitted,
        })
    }

    /// The outlet of the user's next lane, whose number is `lane`.
    pub(crate) fn next_lane<R: Copy>(
        &mut self,
        rt: R,
        lane: usize,
    ) -> Result<LaneOutlet<R>, AllocError>
        requires { lane ≡ length self.old.knows.known }
        ensures { IfOk result (λ outlet. IsNextLane self.old self.new outlet) }
    {
        let queue = Arc::try_clone(&self.queue)?;
        self.admitted.push(false)?;
        let pass = next_lane(&self.queue, &mut self.pass);
        Ok(LaneOutlet::new(rt, queue, pass, self.user, lane))
    }

    /// The user's number.
    pub fn user(&self) -> usize
        ensures { result ≡ self.now.knows.user }
    {
        self.user
    }

    /// Takes the bundle at the front. None where the queue was empty.
    pub fn take<R: Wait>(&mut self, rt: &R) -> Option<Bundle>
        ensures same_queue { self.new.queue ≡ self.old.queue }
        ensures taken { IfSome result (λ bundle. self.new.knows ≡ with_taken self.old.knows bundle) }
        ensures none { IfNone result (self.new ≡ self.old) }
        ensures whole { IfNone result (IsWholeWith self.new.knows []) }
        ensures in_order { IsTakenInOrder self.new.knows }
        ensures of_lanes { IsTakenOfLanes self.new.knows }
    {
        take(rt, &self.queue, &mut self.pass)
    }

    /// How many bundles were in the queue at some moment during the call.
    pub fn waiting<R: Wait>(&mut self, rt: &R) -> usize
        ensures same { self.new ≡ self.old }
        ensures within { result ≤ self.old.knows.room }
        ensures count { Held result (IsWholeWith self.old.knows) }
    {
        waiting(rt, &self.queue, &mut self.pass)
    }

    /// How many bundles the queue has room for.
    pub fn room(&self) -> usize
        ensures { result ≡ self.now.knows.room }
    {
        self.queue.capacity()
    }

    /// Takes back the outlet of a lane. The lane can't send anything afterwards.
    pub fn admit<R: Copy>(&mut self, outlet: LaneOutlet<R>)
        requires { outlet.queue ≡ self.old.queue }
        ensures same_queue { self.new.queue ≡ self.old.queue }
        ensures known { self.new.knows ≡ with_known self.old.knows outlet.knows }
    {
        let lane = outlet.lane();
        admit(&self.queue, &mut self.pass, outlet.into_pass());
        mark(&mut self.admitted, lane);
    }

    /// Whether all lanes have given their outlets back.
    pub fn is_complete(&self) -> bool
        ensures { result ≡ list_all is_admitted self.now.knows.known }
    {
        all_marked(self.admitted.as_slice())
    }
}

// Marks a lane, if there is one with this number.
fn mark(lanes: &mut Vec<bool>, lane: usize)
    ensures { lanes.new.items ≡ slice_set lanes.old.items lane true }
{
    if lane < lanes.len() {
        lanes[lane] = true;
    }
}

fn all_marked(lanes: &[bool]) -> bool
    ensures { result ≡ list_all (λ lane. lane) lanes.now }
{
    lanes.iter().all(|lane| *lane)
}
