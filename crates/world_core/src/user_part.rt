use crate::stepping::step_lane;
use cfdp_types::{Image, PutRequest, TxnKey};
use indications::Bundle;
use lane_table::Glance;
use std::alloc::AllocError;
use std::marker::Model;
use txn_events::{Event, Refusal};
use txn_lane::{Done, Lane, Refused};
use user_queues::ListQueue;

/// A user of an entity of one thread. Contracts see the user's queue and the states of the user's lanes.
#[derive(Drop)]
pub struct UserPart {
    queue: ListQueue,
    lanes: Vec<Lane>,
}

impl Model for UserPart {
    ghost use Rattle.world_core.specs.Posts.{Post};

    ghost Value = { Post };

    ghost view = { λ p. record { queue = p.queue; lanes = p.lanes.items } };
}

impl UserPart {
    ghost use Rattle.std.specs.Prelude.{◌≡◌, ◌<◌, [], Ok, Some, length, slice_get, IfOk, IfErr, IfSome, IfNone};
    ghost use Rattle.cfdp_types.specs.declared.params.ParamsParts.{ParamsParts};
    ghost use Rattle.lane_table.specs.Lane.{State};
    ghost use Rattle.txn_lane.specs.Transactions.{IsWhy};
    ghost use Rattle.txn_events.specs.declared.event.Event.TheVariants.{Put};
    ghost use Rattle.user_queues.specs.Queue.{with_front};
    ghost use Rattle.lane_table.specs.Steps.{IsKeyed, image_of};
    ghost use Rattle.world_core.specs.Posts.{MayStep, IsStepOf, IsNoStepOf, IsWhyRefused, glance_in};

    /// A user with a queue and lanes.
    pub fn new(queue: ListQueue, lanes: Vec<Lane>) -> UserPart
        ensures { result ≡ record { queue = queue; lanes = lanes.items } }
    {
        UserPart { queue, lanes }
    }

    /// Has one of the user's lanes handle an event.
    pub fn step(&mut self, lane: usize, event: &Event) -> Result<Done, Refused>
        requires keyed { IsKeyed event.now }
        requires lane { MayStep self.old lane }
        ensures taken { IfOk result (λ done. IsStepOf self.old lane event.now self.new done) }
        ensures refused { IfErr result (λ refused. IsNoStepOf self.old lane event.now self.new refused) }
    {
        step_lane(&mut self.queue, &mut self.lanes[lane], lane, event)
    }

    /// Takes the bundle at the front of the user's queue, if one is waiting.
    pub fn take(&mut self) -> Option<Bundle>
        ensures none { IfNone result ((self.old.queue.held ≡ []) × (self.new ≡ self.old)) }
        ensures front { IfSome result
            (λ bundle. self.old ≡ record { queue = with_front self.new.queue bundle; lanes = self.new.lanes }) }
    {
        self.queue.take()
    }

    /// The refusal of a Put of this request by a lane of the user, when there is no memory to make the event: the
    /// lane's own reason if it has one, otherwise NoMemory.
    pub fn why_put_refused(&self, lane: usize, request: &PutRequest) -> Refused
        requires { lane < length self.now.lanes }
        ensures { (state : State) (params : ParamsParts) → slice_get self.now.lanes lane ≡ Some state
            → IsWhyRefused state self.now.queue (Put request.now params) result }
    {
        match self.lanes[lane].refuses_put(request) {
            Some(refused) => refused,
            None => Refused {
                why: Refusal::NoMemory,
                echo: None,
            },
        }
    }

    /// The file of the waiting deposit at one of the user's lanes, with this key and this stamp.
    pub fn image(&self, lane: usize, key: TxnKey, stamp: u32) -> Result<Image, Refusal>
        requires { lane < length self.now.lanes }
        ensures image { (state : State) → slice_get self.now.lanes lane ≡ Some state
            → IfOk result (λ image. image_of state key stamp ≡ Ok image) }
        ensures refused { (state : State) → slice_get self.now.lanes lane ≡ Some state
            → IfErr result (λ why. IsWhy (image_of state key stamp) why) }
    {
        self.lanes[lane].image(key, stamp)
    }
    /// A glance at the transaction that a lane runs or ran last. None if there is none such, or no such lane.
    pub fn glance(&self, lane: usize) -> Result<Option<Glance>, AllocError>
        ensures { IfOk result (λ glance. glance ≡ glance_in self.now lane) }
    {
        match self.lanes.get(lane) {
            Some(lane) => lane.glance(),
            None => Ok(None),
        }
    }
}
