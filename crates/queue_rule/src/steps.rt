//! The operations on a shared queue, each in one step.
ghost use Rattle.std.specs.Prelude.{◌≡◌, ◌<◌, ◌≤◌, [], IfErr, IfOk, OnOk, OnErr, IfSome, IfNone};
ghost use Rattle.crossbeam_queue.specs.Fifo.{Held};
ghost use Rattle.crossbeam_queue.specs.Passes.{view, IsPassOf, ruled_capacity};
ghost use Rattle.queue_rule.specs.Passes.{IsOutletOf, IsPortOf, StaysOutlet, StaysPort};
ghost use Rattle.queue_rule.specs.declared.view.View.TheVariants.{Origin, Outlet, Port};
ghost use Rattle.queue_rule.specs.Views.{outlet_in, port_in, with_sent, with_taken, with_lane, with_known, new_port, next_outlet};
ghost use Rattle.queue_rule.specs.Views.{MaySend, IsLearned, IsOrderly, IsWholeWith};

use crate::rule::{Fair, GivesBack, NextLane, OfUser, QueueOfUser, Sends, Takes};
use crate::view::View;
use crossbeam_queue::{Pass, RuledArrayQueue};
use indications::Bundle;
use std::alloc::{AllocError, Global};
use std::marker::Brand;
use std::sync::Wait;

/// A user's queue, shared by threads.
pub type SharedQueue = RuledArrayQueue<Bundle, View, Fair>;

/// A share in a queue, and what its holder knows about the queue. It occupies no memory.
pub type QueuePass = Pass<Bundle, View>;

/// Appends a bundle of the outlet's lane to the queue. Gives it back where the queue was full.
pub fn send<R: Wait>(
    rt: &R,
    queue: &SharedQueue,
    pass: &mut QueuePass,
    bundle: Bundle,
) -> Result<(), Bundle>
    requires pass { IsOutletOf queue.now pass.old }
    requires may { MaySend (outlet_in (view pass.old)) bundle }
    ensures stays { StaysOutlet queue.now pass.old pass.new }
    ensures sent { OnOk result (outlet_in (view pass.new) ≡ with_sent (outlet_in (view pass.old)) bundle) }
    ensures back { IfErr result (λ back. back ≡ bundle) }
    ensures kept { OnErr result (outlet_in (view pass.new) ≡ outlet_in (view pass.old)) }
{
    queue.push_as::<Sends, R>(rt, pass, bundle)
}

/// Takes the bundle at the front. None only where the queue was empty.
pub fn take<R: Wait>(rt: &R, queue: &SharedQueue, pass: &mut QueuePass) -> Option<Bundle>
    requires pass { IsPortOf queue.now pass.old }
    ensures stays { StaysPort queue.now pass.old pass.new }
    ensures taken { IfSome result (λ bundle. port_in (view pass.new) ≡ with_taken (port_in (view pass.old)) bundle) }
    ensures none { IfNone result (port_in (view pass.new) ≡ port_in (view pass.old)) }
    ensures whole { IfNone result (IsWholeWith (port_in (view pass.new)) []) }
    ensures orderly { IsOrderly (Port (port_in (view pass.new))) }
{
    queue.pop_as::<Takes, R>(rt, pass)
}

/// How many bundles were in the queue at some moment during the call.
pub fn waiting<R: Wait>(rt: &R, queue: &SharedQueue, pass: &mut QueuePass) -> usize
    requires pass { IsPortOf queue.now pass.old }
    ensures stays { StaysPort queue.now pass.old pass.new }
    ensures same { view pass.new ≡ view pass.old }
    ensures within { result ≤ ruled_capacity queue.now }
    ensures count { Held result (IsLearned (view pass.old)) }
{
    queue.len_as::<Takes, R>(rt, pass)
}

/// An empty queue with room for `room` bundles, and its first pass.
pub fn open(alloc: Global, room: usize) -> Result<(SharedQueue, QueuePass), AllocError>
    requires { 0 < room }
    ensures { IfOk result
        (λ opened. (ruled_capacity opened.0 ≡ room) × IsPassOf opened.0 opened.1 × (view opened.1 ≡ Origin)) }
{
    SharedQueue::ruled(alloc, room)
}

/// Makes the queue's first pass into the port of a user.
pub fn open_port(queue: &SharedQueue, first: &mut QueuePass, user: usize) -> QueuePass
    requires { IsPassOf queue.now first.old × (view first.old ≡ Origin) }
    ensures port { IsPortOf queue.now result }
    ensures new { port_in (view result) ≡ new_port user (ruled_capacity queue.now) }
{
    named_port::<Brand>(queue, first, user)
}

fn named_port<U: QueueOfUser>(queue: &SharedQueue, first: &mut QueuePass, user: usize) -> QueuePass
    requires first { IsPassOf queue.now first.old × (view first.old ≡ Origin) }
    requires user { user ≡ U.user }
    requires room { ruled_capacity queue.now ≡ U.room }
    ensures port { IsPortOf queue.now result }
    ensures new { port_in (view result) ≡ new_port user (ruled_capacity queue.now) }
{
    queue.another::<OfUser<U>>(first)
}

/// Splits the outlet of the next lane off the port.
pub fn next_lane(queue: &SharedQueue, pass: &mut QueuePass) -> QueuePass
    requires port { IsPortOf queue.now pass.old }
    ensures stays { StaysPort queue.now pass.old pass.new }
    ensures lane { port_in (view pass.new) ≡ with_lane (port_in (view pass.old)) }
    ensures outlet { IsOutletOf queue.now result }
    ensures new { outlet_in (view result) ≡ next_outlet (port_in (view pass.old)) }
{
    queue.another::<NextLane>(pass)
}

/// Gives the outlet of a lane back to the port, which then knows all that the lane sent.
pub fn admit(queue: &SharedQueue, pass: &mut QueuePass, outlet: QueuePass)
    requires port { IsPortOf queue.now pass.old }
    requires outlet { IsPassOf queue.now outlet × (view outlet ≡ Outlet (outlet_in (view outlet))) }
    ensures stays { StaysPort queue.now pass.old pass.new }
    ensures known { port_in (view pass.new) ≡ with_known (port_in (view pass.old)) (outlet_in (view outlet)) }
{
    queue.absorb::<GivesBack>(pass, outlet);
}
