use cfdp_types::{Image, TxnKey};
use indications::Indication;
use lane_table::{Done, Glance, Refused};
use std::alloc::AllocError;
use std::marker::{Model, PhantomData};
use std::sync::Wait;
use txn_events::{Event, Refusal};
use txn_lane::Lane;
use user_queues::{LaneOutlet, Names};

/// A lane with its own outlet, of the queue that `N` names for its user. Contracts see both. The type ensures that all
/// that was sent through the outlet fits the lane. So only steps of the lane put bundles into the queue through it.
#[derive(Drop)]
pub struct Held<N: Names, R: Copy> {
    lane: Lane,
    outlet: LaneOutlet<R>,
    names: PhantomData<N>,
}

impl<N: Names, R: Copy> Model for Held<N, R> {
    ghost use Rattle.shared_lanes.specs.Held.{HeldValue, IsBehindLock};

    ghost Value = { HeldValue };

    ghost view = { λ h. record { lane = h.lane; outlet = h.outlet } };

    ghost invariant = { λ h. IsBehindLock N.queue (record { lane = h.lane; outlet = h.outlet }) };
}

impl<N: Names, R: Copy> Held<N, R> {
    ghost use Rattle.std.specs.Prelude.{◌≡◌, ◌≤◌, length, Ok, IfOk, IfErr};
    ghost use Rattle.cfdp_types.specs.declared.limits.TheConstants.{JOURNAL_ENTRIES};
    ghost use Rattle.shared_lanes.specs.Held.{IsBehindLock};
    ghost use Rattle.lane_table.specs.Lane.{issued_by, key_of};
    ghost use Rattle.lane_table.specs.Glances.{glance_of};
    ghost use Rattle.lane_table.specs.Steps.{image_of};
    ghost use Rattle.txn_lane.specs.Transactions.{IsWhy};

    /// A lane with its outlet.
    pub fn new(lane: Lane, outlet: LaneOutlet<R>) -> Held<N, R>
        requires { IsBehindLock N.queue (record { lane = lane; outlet = outlet }) }
        ensures { result ≡ record { lane = lane; outlet = outlet } }
    {
        Held {
            lane,
            outlet,
            names: PhantomData,
        }
    }

    /// The user's number.
    pub fn user(&self) -> usize
        ensures user { result ≡ self.now.lane.user }
        ensures kept { IsBehindLock N.queue self.now }
    {
        self.outlet.user()
    }

    /// The lane's number among the user's lanes.
    pub fn lane(&self) -> usize
        ensures { result ≡ self.now.lane.lane }
    {
        self.outlet.lane()
    }

    /// The key of the lane's last transaction, if there is one.
    pub fn key(&self) -> Option<TxnKey>
        ensures { result ≡ key_of self.now.lane }
    {
        self.lane.key()
    }

    /// The events that this transaction has accepted, in order.
    pub fn journal(&self) -> &[Event]
        ensures events { result.now ≡ self.now.lane.journal }
        ensures limit { length result.now ≤ JOURNAL_ENTRIES }
    {
        self.lane.journal()
    }

    /// All indications of this transaction, in order.
    pub fn trace(&self) -> &[Indication]
        ensures { result.now ≡ issued_by self.now.lane }
    {
        self.lane.trace()
    }

    /// The file of the waiting deposit at the lane, with this key and this stamp.
    pub fn image(&self, key: TxnKey, stamp: u32) -> Result<Image, Refusal>
        ensures image { IfOk result (λ image. image_of self.now.lane key stamp ≡ Ok image) }
        ensures refused { IfErr result (λ why. IsWhy (image_of self.now.lane key stamp) why) }
    {
        self.lane.image(key, stamp)
    }

    /// A glance at the transaction that the lane runs or ran last, if there is one.
    pub fn glance(&self) -> Result<Option<Glance>, AllocError>
        ensures { IfOk result (λ glance. glance ≡ glance_of self.now.lane) }
    {
        self.lane.glance()
    }

    /// The outlet alone; nothing can be sent through it any more.
    pub fn into_outlet(self) -> LaneOutlet<R>
        ensures outlet { result ≡ self.outlet }
        ensures queue { result.queue ≡ N.queue result.knows.user }
    {
        let Held { outlet, .. } = self;
        outlet
    }
}

impl<N: Names, R: Wait + Copy> Held<N, R> {
    ghost use Rattle.lane_table.specs.Steps.{IsKeyed};
    ghost use Rattle.shared_lanes.specs.Held.{HasStepped};

    /// Has the lane handle an event. The step's indications go into the user's queue as one bundle, and only then
    /// is the step made. An event that is refused changes nothing.
    pub fn step(&mut self, event: &Event) -> Result<Done, Refused>
        requires { IsKeyed event.now }
        ensures { HasStepped self.old event.now result self.new }
    {
        self.lane.step(event, &mut self.outlet)
    }
}
