use crate::held::Held;
use lane_table::{Done, Refused};
use std::sync::Wait;
use txn_events::Event;
use user_queues::Names;

/// A point that a thread with an event for a lane reaches.
#[derive(Clone, Copy, Debug, PartialEq, Eq)]
pub enum Point {
    /// A worker took a datagram.
    Taken,
    /// The lock of one of this user's lanes is held.
    Locked(usize),
}

/// What a thread does before it locks a lane, and with the lane while the lock is held.
pub trait Gate<N: Names, R: Wait + Copy> {
    ghost use Rattle.std.specs.Prelude.{Result};
    ghost use Rattle.txn_events.specs.declared.event.Event.{Event as EventValue};
    ghost use Rattle.lane_table.specs.Steps.{IsKeyed};
    ghost use Rattle.shared_lanes.specs.Held.{HeldValue};

    /// The result of handling an event.
    type Answer;

    /// What the gate may do with a lane's event, as a relation of four: the value behind the lock before, the event,
    /// the answer, and the value after.
    ghost gives: { Self → HeldValue → EventValue → Self.Answer → HeldValue → Type 0 };

    /// Called at each point that the thread reaches.
    fn at(&self, point: Point);

    /// Handles the lane's event while the lane's lock is held.
    fn locked(&self, held: &mut Held<N, R>, event: &Event) -> Self::Answer
        requires { IsKeyed event.now }
        ensures { gives self.now held.old event.now result held.new };
}

/// The gate that only has the lane handle its event.
#[derive(Clone, Copy, Debug, Drop)]
pub struct NoGate;

impl<N: Names, R: Wait + Copy> Gate<N, R> for NoGate {
    ghost use Rattle.shared_lanes.specs.Held.{HasStepped};

    type Answer = Result<Done, Refused>;

    ghost gives = { λ gate old event answer new. HasStepped old event answer new };

    fn at(&self, _point: Point) {}

    fn locked(&self, held: &mut Held<N, R>, event: &Event) -> Result<Done, Refused> {
        held.step(event)
    }
}
