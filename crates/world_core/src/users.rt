use crate::user_part::UserPart;
use cfdp_types::{Image, PutRequest, TxnKey};
use indications::Bundle;
use lane_table::Glance;
use std::alloc::AllocError;
use std::marker::Model;
use txn_events::{Event, Refusal};
use txn_lane::{Done, Refused};

/// All users of an entity of one thread, in the order of their numbers.
#[derive(Drop)]
pub struct Users {
    parts: Vec<UserPart>,
}

impl Model for Users {
    ghost use Rattle.std.specs.Prelude.{List};
    ghost use Rattle.world_core.specs.Posts.{Post};

    ghost Value = { List Post };

    ghost view = { λ u. u.parts.items };
}

impl Users {
    ghost use Rattle.std.specs.Prelude.{◌≡◌, ◌<◌, [], List, Ok, length, IfOk, IfErr, OnErr, IfSome, IfNone};
    ghost use Rattle.cfdp_types.specs.declared.params.ParamsParts.{ParamsParts};
    ghost use Rattle.lane_table.specs.Steps.{IsKeyed, image_of};
    ghost use Rattle.txn_lane.specs.Transactions.{IsWhy};
    ghost use Rattle.txn_events.specs.declared.event.Event.TheVariants.{Put};
    ghost use Rattle.world_table.specs.Histories.{Happening, held_for};
    ghost use Rattle.world_core.specs.Posts.{glance_at};
    ghost use Rattle.world_core.specs.Standing.{
      Layout,
      IsLaneIn,
      UsersStandAfter,
      MayHappen,
      IsTakenAt,
      IsRefusedAt,
      IsTakenFrom,
      lane_in,
    };

    /// Users with their lanes and queues, in order.
    pub fn new(parts: Vec<UserPart>) -> Users
        ensures { result ≡ parts.items }
    {
        Users { parts }
    }

    /// Has a lane of a user handle an event; the step's indications go into the user's queue.
    pub fn step(&mut self, user: usize, lane: usize, event: &Event) -> Result<Done, Refused>
        requires keyed { IsKeyed event.now }
        requires stands { MayHappen self.old user lane }
        ensures taken { (layout : Layout) (history : List Happening) → UsersStandAfter layout history self.old
            → IsLaneIn layout user lane
            → IfOk result (IsTakenAt layout history user lane event.now self.new) }
        ensures refused { (layout : Layout) (history : List Happening) → UsersStandAfter layout history self.old
            → IsLaneIn layout user lane
            → IfErr result (IsRefusedAt layout history user lane event.now) }
        ensures same { OnErr result (self.new ≡ self.old) }
    {
        self.parts[user].step(lane, event)
    }

    /// Takes the bundle at the front of a user's queue, if one is waiting.
    pub fn take(&mut self, user: usize) -> Option<Bundle>
        requires { user < length self.old }
        ensures none { (layout : Layout) (history : List Happening) → UsersStandAfter layout history self.old
            → IfNone result (held_for layout.lanes history user ≡ []) }
        ensures same { IfNone result (self.new ≡ self.old) }
        ensures front { (layout : Layout) (history : List Happening) → UsersStandAfter layout history self.old
            → IfSome result (IsTakenFrom layout history user self.new) }
    {
        self.parts[user].take()
    }

    /// The refusal of a Put of this request by a user's lane, when there is no memory to make the event: the lane's own
    /// reason if it has one, otherwise NoMemory.
    pub fn why_put_refused(&self, user: usize, lane: usize, request: &PutRequest) -> Refused
        requires { MayHappen self.now user lane }
        ensures { (layout : Layout) (history : List Happening) (params : ParamsParts)
            → UsersStandAfter layout history self.now → IsLaneIn layout user lane
            → IsRefusedAt layout history user lane (Put request.now params) result }
    {
        self.parts[user].why_put_refused(lane, request)
    }

    /// The file of the waiting deposit at a user's lane, with this key and this stamp.
    pub fn image(&self, user: usize, lane: usize, key: TxnKey, stamp: u32) -> Result<Image, Refusal>
        requires { MayHappen self.now user lane }
        ensures image { (layout : Layout) (history : List Happening) → UsersStandAfter layout history self.now
            → IsLaneIn layout user lane
            → IfOk result (λ image. image_of (lane_in layout history user lane) key stamp ≡ Ok image) }
        ensures refused { (layout : Layout) (history : List Happening) → UsersStandAfter layout history self.now
            → IsLaneIn layout user lane
            → IfErr result (λ why. IsWhy (image_of (lane_in layout history user lane) key stamp) why) }
    {
        self.parts[user].image(lane, key, stamp)
    }
    /// A glance at the transaction that a lane of a user runs or ran last. None if there is none such, or no such lane.
    pub fn glance(&self, user: usize, lane: usize) -> Result<Option<Glance>, AllocError>
        ensures { IfOk result (λ glance. glance ≡ glance_at self.now user lane) }
    {
        match self.parts.get(user) {
            Some(part) => part.glance(lane),
            None => Ok(None),
        }
    }
}
