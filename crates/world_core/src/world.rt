use crate::Users;
use crate::opening::users_for;
use cfdp_types::{Image, PutRequest, TxnKey};
use entity_config::Config;
use entity_parts::{EntityRefusal, may_request, read_pdu};
use entity_routing::{
    Place, Request, WorldEvent, key_of_pdu, params_of_put, place_of_key, place_of_own, place_of_pdu,
};
use indications::Bundle;
use lane_table::{Done, Glance, Refused};
use std::alloc::{AllocError, Global};
use std::marker::Model;
use txn_events::{Event, What};

/// A protocol entity in one thread. It handles events and returns what is to be done; its users take their indications.
/// Contracts see its configuration and its users. They are stated for every history, newest first, that can have led to
/// the entity's present state.
#[derive(Drop)]
pub struct World {
    alloc: Global,
    config: Config,
    users: Users,
}

impl Model for World {
    ghost use Rattle.world_core.specs.Worlds.{WorldValue};

    ghost Value = { WorldValue };

    ghost view = { λ w. record { config = w.config; posts = w.users } };

    ghost use Rattle.world_core.specs.Worlds.{IsWorld};

    ghost invariant = { λ w. IsWorld (record { config = w.config; posts = w.users }) };
}

impl World {
    ghost use Rattle.std.specs.Prelude.{◌≡◌, ◌<◌, ◌⊎◌, true, false, [], ◌∷◌, List, length, Ok, IfOk, IfSome, IfNone, OnErr};
    ghost use Rattle.pdu_reading.specs.Reading.{reading};
    ghost use Rattle.txn_events.specs.declared.event.Event.TheVariants.{On};
    ghost use Rattle.lane_table.specs.Steps.{IsKeyed};
    ghost use Rattle.world_table.specs.Histories.{Happening, takes, held_for};
    ghost use Rattle.entity_routing.specs.Routes.{route, key_place, routed_key, routed_own, routed_request, routed_reading, routed_put, put_params};
    ghost use Rattle.entity_parts.specs.FirstLanes.{first_lane};
    ghost use Rattle.world_core.specs.Posts.{glance_at};
    ghost use Rattle.world_core.specs.Routed.{IsRoutedTo};
    ghost use Rattle.entity_parts.specs.Asking.{MayRequest};
    ghost use Rattle.world_core.specs.Worlds.{StandsAfter, MayCome, IsAnswered, IsUnread, IsFront, IsImage, history_after};
    ghost use Rattle.entity_parts.specs.Refusals.{IsUnreadFrom};
    ghost use Rattle.world_core.specs.Answering.{Answers, AnswersAt};

    /// A new entity with this configuration. An error means that there is no memory for its users.
    pub fn open(alloc: Global, config: Config) -> Result<World, AllocError>
        ensures config { IfOk result (λ world. world.config ≡ config) }
        ensures stands { IfOk result (λ world. StandsAfter world []) }
    {
        let users = users_for(alloc, &config)?;
        Ok(World {
            alloc,
            config,
            users,
        })
    }

    /// The number of users.
    pub fn users(&self) -> usize
        ensures { result ≡ length self.now.config.users }
    {
        self.config.users()
    }

    /// The number of sending lanes of each user.
    pub fn put_lanes(&self) -> usize
        ensures { result ≡ self.now.config.entity.put_lanes }
    {
        self.config.entity().put_lanes
    }

    /// The entity's configuration.
    pub fn config(&self) -> &Config
        ensures { result.now ≡ self.now.config }
    {
        &self.config
    }

    /// Whether [`World::step`] may be called with this event. Only a request can be inadmissible: it must name a user
    /// of the entity and, in a Put, one of the user's sending lanes.
    pub fn may_come(&self, event: &WorldEvent) -> bool
        ensures may { result ≡ true → MayCome self.now.config event.now }
        ensures never { result ≡ false → MayCome self.now.config event.now → ⊥ }
    {
        match event {
            WorldEvent::Request(user, request) => may_request(&self.config, *user, request),
            _ => true,
        }
    }

    /// Handles an event: the lane that it goes to accepts it, or it is refused and changes nothing. The event must be
    /// admissible ([`World::may_come`]).
    pub fn step(&mut self, event: &WorldEvent) -> Result<Done, EntityRefusal>
        requires { MayCome self.old.config event.now }
        ensures answered { (history : List Happening) → StandsAfter self.old history
            → IsAnswered self.old.config history (route self.old.config event.now) result ⊎ IsUnread event.now result }
        ensures stands { (history : List Happening) → StandsAfter self.old history
            → StandsAfter self.new (history_after history (route self.old.config event.now) result) }
        ensures config { self.new.config ≡ self.old.config }
        ensures same { OnErr result (self.new ≡ self.old) }
    {
        self.answer(event)
    }

    /// Takes the bundle at the front of a user's queue, if one is waiting.
    pub fn take(&mut self, user: usize) -> Option<Bundle>
        requires { user < length self.old.config.users }
        ensures none { (history : List Happening) → StandsAfter self.old history
            → IfNone result (held_for (first_lane self.old.config) history user ≡ []) }
        ensures same { IfNone result (self.new ≡ self.old) }
        ensures front { (history : List Happening) → StandsAfter self.old history
            → IfSome result (IsFront self.old.config history user) }
        ensures stands { (history : List Happening) → StandsAfter self.old history
            → IfSome result (λ bundle. StandsAfter self.new (takes user ∷ history)) }
        ensures config { self.new.config ≡ self.old.config }
    {
        self.users.take(user)
    }

    /// The file of the waiting deposit with this key and this stamp.
    pub fn image(&self, key: TxnKey, stamp: u32) -> Result<Image, EntityRefusal>
        ensures { (history : List Happening) → StandsAfter self.now history
            → IsImage self.now history key stamp (key_place self.now.config key) result }
    {
        let place = place_of_key(&self.config, key)?;
        match self.users.image(place.user, place.lane, key, stamp) {
            Ok(image) => Ok(image),
            Err(why) => Err(EntityRefusal::Lane(Refused { why, echo: None })),
        }
    }

    /// A glance at the transaction that a lane of a user runs or ran last; it is no event. None if there is none such, or
    /// no such lane.
    pub fn glance(&self, user: usize, lane: usize) -> Result<Option<Glance>, AllocError>
        ensures { IfOk result (λ glance. glance ≡ glance_at self.now.posts user lane) }
    {
        self.users.glance(user, lane)
    }

    // Handles an event as `step` does; the contract is stated over the users alone.
    fn answer(&mut self, event: &WorldEvent) -> Result<Done, EntityRefusal>
        requires { MayCome self.old.config event.now }
        ensures answered { (history : List Happening) → StandsAfter self.old history
            → Answers self.old.config history (route self.old.config event.now) self.new.posts result
            ⊎ IsUnread event.now result }
        ensures config { self.new.config ≡ self.old.config }
        ensures same { OnErr result (self.new ≡ self.old) }
    {
        match event {
            WorldEvent::Request(user, request) => self.request(*user, request),
            WorldEvent::Deliver(octets) => self.deliver(octets.as_slice()),
            WorldEvent::Pump(key) => self.inside(*key, What::Pump),
            WorldEvent::Timer(key, kind, stamp) => self.inside(*key, What::Timer(*kind, *stamp)),
            WorldEvent::Stored(key, stamp, kept) => self.inside(*key, What::Stored(*stamp, *kept)),
        }
    }

    // Handles a user's request.
    fn request(&mut self, user: usize, request: &Request) -> Result<Done, EntityRefusal>
        requires { MayRequest self.old.config user request.now }
        ensures answered { (history : List Happening) → StandsAfter self.old history
            → Answers self.old.config history (routed_request self.old.config user request.now) self.new.posts result }
        ensures config { self.new.config ≡ self.old.config }
        ensures same { OnErr result (self.new ≡ self.old) }
    {
        match request {
            Request::Put(lane, put) => self.put(user, *lane, put),
            Request::Cancel(key) => self.own(user, *key, What::Cancel),
            Request::Suspend(key) => self.own(user, *key, What::Suspend),
            Request::Resume(key) => self.own(user, *key, What::Resume),
            Request::Report(key) => self.own(user, *key, What::Report),
            Request::Abandon(key) => self.own(user, *key, What::Abandon),
        }
    }

    // Handles an event of a transaction that arises in the entity itself.
    fn inside(&mut self, key: TxnKey, what: What) -> Result<Done, EntityRefusal>
        requires { IsKeyed (On key what) }
        ensures answered { (history : List Happening) → StandsAfter self.old history
            → Answers self.old.config history (routed_key self.old.config key what) self.new.posts result }
        ensures config { self.new.config ≡ self.old.config }
        ensures same { OnErr result (self.new ≡ self.old) }
    {
        let place = place_of_key(&self.config, key)?;
        self.tell(place, Event::On(key, what))
    }

    // Handles a user's request on a transaction, which must be the user's own.
    fn own(&mut self, user: usize, key: TxnKey, what: What) -> Result<Done, EntityRefusal>
        requires { IsKeyed (On key what) }
        ensures answered { (history : List Happening) → StandsAfter self.old history
            → Answers self.old.config history (routed_own self.old.config user key what) self.new.posts result }
        ensures config { self.new.config ≡ self.old.config }
        ensures same { OnErr result (self.new ≡ self.old) }
    {
        let place = place_of_own(&self.config, user, key)?;
        self.tell(place, Event::On(key, what))
    }

    // Handles a user's Put.
    fn put(&mut self, user: usize, lane: usize, put: &PutRequest) -> Result<Done, EntityRefusal>
        requires user { user < length self.old.config.users }
        requires lane { lane < self.old.config.entity.put_lanes }
        ensures answered { (history : List Happening) → StandsAfter self.old history
            → Answers self.old.config history
            (routed_put (record { user = user; lane = lane }) put.now (put_params self.old.config put.now.destination))
            self.new.posts result }
        ensures config { self.new.config ≡ self.old.config }
        ensures same { OnErr result (self.new ≡ self.old) }
    {
        let params = params_of_put(&self.config, put.destination())?;
        match put.copy() {
            Ok(copy) => self.tell(Place { user, lane }, Event::Put(copy, params)),
            Err(_) => Err(EntityRefusal::Lane(self.users.why_put_refused(user, lane, put))),
        }
    }

    // Handles a datagram.
    fn deliver(&mut self, octets: &[u8]) -> Result<Done, EntityRefusal>
        ensures answered { (history : List Happening) → StandsAfter self.old history
            → Answers self.old.config history (routed_reading self.old.config (reading octets.now)) self.new.posts
            result
            ⊎ IsUnreadFrom octets.now result }
        ensures config { self.new.config ≡ self.old.config }
        ensures same { OnErr result (self.new ≡ self.old) }
    {
        let pdu = read_pdu(self.alloc, octets)?;
        let place = place_of_pdu(&self.config, &pdu)?;
        let key = key_of_pdu(&pdu);
        self.tell(place, Event::On(key, What::Pdu(pdu)))
    }

    // Gives a lane its event.
    fn tell(&mut self, place: Place, event: Event) -> Result<Done, EntityRefusal>
        requires keyed { IsKeyed event }
        requires routed { IsRoutedTo self.old.config place.user place.lane event }
        ensures answered { (history : List Happening) → StandsAfter self.old history
            → AnswersAt self.old.config history (record { place = place; event = event }) self.new.posts result }
        ensures config { self.new.config ≡ self.old.config }
        ensures same { OnErr result (self.new ≡ self.old) }
    {
        match self.users.step(place.user, place.lane, &event) {
            Ok(done) => Ok(done),
            Err(refused) => Err(EntityRefusal::Lane(refused)),
        }
    }
}
