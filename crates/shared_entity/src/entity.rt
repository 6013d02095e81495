ghost use Rattle.std.specs.Prelude.{◌≡◌, IsTrue, false, Ok, IfOk, IfErr, OnErr, IsErr};
ghost use Rattle.lane_table.specs.Glances.{glance_of};
ghost use Rattle.lane_table.specs.Steps.{IsKeyed, image_of};
ghost use Rattle.lane_traces.specs.Traces.{events_of, how_far};
ghost use Rattle.shared_entity.specs.Answering.{IsAt, MayAnswerAt, MayGiveImage, MayGiveJournal, MayGlance, MayRefuseJournal, MayTrace};
ghost use Rattle.shared_entity.specs.Reads.{is_lane_of, read_at, IsUpToMemory};

use crate::opening::add_lanes;
use crate::outlets::OutletRoom;
use cfdp_types::{Image, PutRequest, TimerKind, TxnKey};
use entity_config::Config;
use entity_parts::{EntityRefusal, may_request, read_pdu};
use entity_routing::{
    Place, Request, key_of_pdu, params_of_put, place_of_key, place_of_own, place_of_pdu,
};
use lane_table::{Glance, Refused};
use lane_traces::{Traced, events_of, how_far};
use pdu_codec::Pdu;
use shared_lanes::{Gate, Held, Names, Point};
use std::alloc::{AllocError, Global};
use std::marker::Model;
use std::sync::{Mutex, Wait};
use txn_events::{Event, Refusal, What};
use user_queues::{LaneOutlet, Queues, UserPort, UserQueue};

/// A protocol entity that threads share. Each call determines from the configuration which lane an event goes to, locks
/// that lane, and leaves the rest to a gate. Nothing else is locked, so lanes run in parallel. Contracts see the
/// configuration.
#[derive(Drop)]
pub struct Entity<N: Names, R: Copy> {
    alloc: Global,
    config: Config,
    /// For each user, the index in `lanes` of the user's first lane.
    first_of: Vec<usize>,
    /// The lanes of all users, in order.
    lanes: Vec<Mutex<Held<N, R>>>,
    room: Mutex<OutletRoom<N, R>>,
}

impl<N: Names, R: Copy> Model for Entity<N, R> {
    ghost use Rattle.std.specs.Prelude.{◌≡◌, vec_len};
    ghost use Rattle.config_reading.specs.Values.{ConfigValue};

    ghost Value = { ConfigValue };

    ghost view = { λ e. e.config };

    ghost invariant = { λ e. vec_len e.lanes ≡ N.lanes };
}

impl<N: Names, R: Copy> Entity<N, R> {
    ghost use Rattle.std.specs.Prelude.{◌≡◌, true, false, All, IfOk, length, map, vec_len};
    ghost use Rattle.entity_parts.specs.Asking.{MayRequest};
    ghost use Rattle.shared_entity.specs.Opening.{AreQueuesFor};

    /// Opens a new entity with this configuration, over the queues that were opened for it. Returns it with the ports
    /// of its users, in order.
    pub fn open(
        alloc: Global,
        config: Config,
        queues: Queues<R>,
    ) -> Result<(Entity<N, R>, Vec<UserPort>), AllocError>
        requires { AreQueuesFor N.queue N.lanes config queues }
        ensures config { IfOk result (λ opened. opened.0 ≡ config) }
        ensures ports { IfOk result (λ opened. opened.1.items ≡ map (λ ends. ends.port) queues.users.items) }
        ensures named { IfOk result
            (λ opened. All (λ port. port.queue ≡ N.queue port.knows.user) opened.1.items) }
    {
        let mut ports = Vec::with_capacity(alloc, queues.users.len())?;
        let mut first_of = Vec::with_capacity(alloc, queues.users.len())?;
        let mut lanes = Vec::new(alloc);
        for ends in queues.users {
            let UserQueue { port, outlets } = ends;
            ports.push(port)?;
            first_of.push(lanes.len())?;
            add_lanes(alloc, &config, outlets, &mut lanes)?;
        }
        let room = Mutex::new(OutletRoom::new(alloc, lanes.len())?);
        let entity = Entity {
            alloc,
            config,
            first_of,
            lanes,
            room,
        };
        Ok((entity, ports))
    }

    /// The number of users.
    pub fn users(&self) -> usize
        ensures { result ≡ length self.now.users }
    {
        self.config.users()
    }

    /// The number of sending lanes of each user.
    pub fn put_lanes(&self) -> usize
        ensures { result ≡ self.now.entity.put_lanes }
    {
        self.config.entity().put_lanes
    }

    /// The entity's configuration.
    pub fn config(&self) -> &Config
        ensures { result.now ≡ self.now }
    {
        &self.config
    }

    /// Whether [`Entity::request`] may be called with this request: the user is one of the entity's, and a Put names
    /// one of the user's sending lanes.
    pub fn may_request(&self, user: usize, request: &Request) -> bool
        ensures may { result ≡ true → MayRequest self.now user request.now }
        ensures never { result ≡ false → MayRequest self.now user request.now → ⊥ }
    {
        may_request(&self.config, user, request)
    }

    /// Closes the entity, and returns the outlets of all lanes, in order, for the users' ports. Does not allocate.
    pub fn into_lanes(self) -> Vec<LaneOutlet<R>>
        ensures count { vec_len result ≡ N.lanes }
        ensures named { All (λ outlet. outlet.queue ≡ N.queue outlet.knows.user) result.items }
    {
        let Entity { lanes, room, .. } = self;
        let mut outlets = room.into_inner().into_outlets();
        for held in lanes {
            outlets.push_reserved(held.into_inner().into_outlet());
        }
        outlets
    }

    // The lock of the lane at a place, if there is one.
    fn lock_of(&self, place: Place) -> Option<&Mutex<Held<N, R>>> {
        let first = *self.first_of.get(place.user)?;
        self.lanes.get(first.checked_add(place.lane)?)
    }
}

impl<N: Names, R: Wait + Copy> Entity<N, R> {
    ghost use Rattle.std.specs.Prelude.{◌≡◌, ◌⊎◌, IfOk, IfErr};
    ghost use Rattle.pdu_reading.specs.Reading.{reading};
    ghost use Rattle.txn_events.specs.declared.event.Event.TheVariants.{On};
    ghost use Rattle.txn_events.specs.declared.event.What.TheVariants as what;
    ghost use Rattle.lane_table.specs.Steps.{IsKeyed};
    ghost use Rattle.entity_parts.specs.Asking.{MayRequest};
    ghost use Rattle.entity_routing.specs.Routes.{key_place, routed_key, routed_own, routed_request, routed_reading, routed_put, routed_pdu, put_params};
    ghost use Rattle.entity_parts.specs.Refusals.{IsUnreadFrom};
    ghost use Rattle.shared_entity.specs.Answering.{MayAnswer, MayAnswerAt, MayGiveImage, MayGiveJournal, MayGlance, MayRefuseJournal, MayTrace};

    /// Handles a user's request.
    pub fn request<G: Gate<N, R>>(
        &self,
        rt: &R,
        gate: &G,
        user: usize,
        request: Request,
    ) -> Result<G::Answer, EntityRefusal>
        requires { MayRequest self.now user request }
        ensures { MayAnswer N.queue (G.gives gate.now) (routed_request self.now user request) result }
    {
        match request {
            Request::Put(lane, put) => self.put(rt, gate, Place { user, lane }, put),
            Request::Cancel(key) => self.own(rt, gate, user, key, What::Cancel),
            Request::Suspend(key) => self.own(rt, gate, user, key, What::Suspend),
            Request::Resume(key) => self.own(rt, gate, user, key, What::Resume),
            Request::Report(key) => self.own(rt, gate, user, key, What::Report),
            Request::Abandon(key) => self.own(rt, gate, user, key, What::Abandon),
        }
    }

    /// Handles a datagram.
    pub fn deliver<G: Gate<N, R>>(
        &self,
        rt: &R,
        gate: &G,
        octets: &[u8],
    ) -> Result<G::Answer, EntityRefusal>
        ensures { MayAnswer N.queue (G.gives gate.now) (routed_reading self.now (reading octets.now)) result
            ⊎ IsUnreadFrom octets.now result }
    {
        let pdu = read_pdu(self.alloc, octets)?;
        self.deliver_pdu(rt, gate, pdu)
    }

    /// Handles a PDU that was read from a datagram.
    pub fn deliver_pdu<G: Gate<N, R>>(
        &self,
        rt: &R,
        gate: &G,
        pdu: Pdu,
    ) -> Result<G::Answer, EntityRefusal>
        ensures { MayAnswer N.queue (G.gives gate.now) (routed_pdu self.now pdu) result }
    {
        let place = place_of_pdu(&self.config, &pdu)?;
        let key = key_of_pdu(&pdu);
        self.tell(rt, gate, place, Event::On(key, What::Pdu(pdu)))
    }

    /// Has a transaction send its next PDU.
    pub fn pump<G: Gate<N, R>>(
        &self,
        rt: &R,
        gate: &G,
        key: TxnKey,
    ) -> Result<G::Answer, EntityRefusal>
        ensures { MayAnswer N.queue (G.gives gate.now) (routed_key self.now key what.Pump) result }
    {
        self.inside(rt, gate, key, What::Pump)
    }

    /// Reports that a transaction's timer that was armed with this stamp has expired.
    pub fn timer<G: Gate<N, R>>(
        &self,
        rt: &R,
        gate: &G,
        key: TxnKey,
        kind: TimerKind,
        stamp: u32,
    ) -> Result<G::Answer, EntityRefusal>
        ensures { MayAnswer N.queue (G.gives gate.now) (routed_key self.now key (what.Timer kind stamp)) result }
    {
        self.inside(rt, gate, key, What::Timer(kind, stamp))
    }

    /// Reports the file store's answer to a transaction's deposit with this stamp; true if it keeps the file.
    pub fn stored<G: Gate<N, R>>(
        &self,
        rt: &R,
        gate: &G,
        key: TxnKey,
        stamp: u32,
        kept: bool,
    ) -> Result<G::Answer, EntityRefusal>
        ensures { MayAnswer N.queue (G.gives gate.now) (routed_key self.now key (what.Stored stamp kept)) result }
    {
        self.inside(rt, gate, key, What::Stored(stamp, kept))
    }

    /// The file of the waiting deposit with this key and this stamp.
    pub fn image(&self, rt: &R, key: TxnKey, stamp: u32) -> Result<Image, EntityRefusal>
        ensures { MayGiveImage N.queue key stamp (key_place self.now key) result }
    {
        let place = place_of_key(&self.config, key)?;
        let Some(lock) = self.lock_of(place) else {
            return Err(EntityRefusal::WrongLane);
        };
        let held = lock.lock(rt);
        image_at(&held, place, key, stamp)
    }

    /// The progress of the transaction with this key. The lane is locked only while its last indication is read.
    pub fn trace(&self, rt: &R, key: TxnKey) -> Result<Traced, EntityRefusal>
        ensures { MayTrace N.queue key (key_place self.now key) result }
    {
        let place = place_of_key(&self.config, key)?;
        let Some(lock) = self.lock_of(place) else {
            return Err(EntityRefusal::WrongLane);
        };
        let held = lock.lock(rt);
        trace_at(&held, place, key)
    }

    /// Copies of the events that the transaction with this key has accepted, in order. They share their octets. The
    /// lane is locked only while the copies are made. The refusals are those of [`Entity::trace`], and NoMemory.
    pub fn journal(&self, rt: &R, key: TxnKey) -> Result<Vec<Event>, EntityRefusal>
        ensures given { IfOk result (λ events. MayGiveJournal N.queue key (key_place self.now key) events.items) }
        ensures refused { IfErr result (MayRefuseJournal N.queue key (key_place self.now key)) }
    {
        let place = place_of_key(&self.config, key)?;
        let Some(lock) = self.lock_of(place) else {
            return Err(EntityRefusal::WrongLane);
        };
        let held = lock.lock(rt);
        journal_at(self.alloc, &held, place, key)
    }

    /// A glance at the transaction that the lane at a place runs or ran last, if there is one. It is not an event; the
    /// lane is locked only while the names of its file are copied.
    pub fn glance(&self, rt: &R, place: Place) -> Result<Option<Glance>, EntityRefusal>
        ensures { MayGlance N.queue place result }
    {
        let Some(lock) = self.lock_of(place) else {
            return Err(EntityRefusal::WrongLane);
        };
        let held = lock.lock(rt);
        glance_at(&held, place)
    }

    // Handles an event of a transaction that arises in the entity itself.
    fn inside<G: Gate<N, R>>(
        &self,
        rt: &R,
        gate: &G,
        key: TxnKey,
        what: What,
    ) -> Result<G::Answer, EntityRefusal>
        requires { IsKeyed (On key what) }
        ensures { MayAnswer N.queue (G.gives gate.now) (routed_key self.now key what) result }
    {
        let place = place_of_key(&self.config, key)?;
        self.tell(rt, gate, place, Event::On(key, what))
    }

    // Handles a user's request on a transaction, which must be the user's own.
    fn own<G: Gate<N, R>>(
        &self,
        rt: &R,
        gate: &G,
        user: usize,
        key: TxnKey,
        what: What,
    ) -> Result<G::Answer, EntityRefusal>
        requires { IsKeyed (On key what) }
        ensures { MayAnswer N.queue (G.gives gate.now) (routed_own self.now user key what) result }
    {
        let place = place_of_own(&self.config, user, key)?;
        self.tell(rt, gate, place, Event::On(key, what))
    }

    // Handles a user's Put.
    fn put<G: Gate<N, R>>(
        &self,
        rt: &R,
        gate: &G,
        place: Place,
        put: PutRequest,
    ) -> Result<G::Answer, EntityRefusal>
        ensures { MayAnswer N.queue (G.gives gate.now) (routed_put place put (put_params self.now put.destination)) result }
    {
        let params = params_of_put(&self.config, put.destination())?;
        self.tell(rt, gate, place, Event::Put(put, params))
    }

    // Gives a lane its event, through the gate, while the lane is locked.
    fn tell<G: Gate<N, R>>(
        &self,
        rt: &R,
        gate: &G,
        place: Place,
        event: Event,
    ) -> Result<G::Answer, EntityRefusal>
        requires { IsKeyed event }
        ensures { MayAnswerAt N.queue (G.gives gate.now) (record { place = place; event = event }) result }
    {
        let Some(lock) = self.lock_of(place) else {
            return Err(EntityRefusal::WrongLane);
        };
        let mut held = lock.lock(rt);
        gate.at(Point::Locked(place.user));
        bring(gate, &mut held, place, &event)
    }
}

// Passes an event to the lane behind a lock if that is the lane of the place; otherwise returns `WrongLane`.
fn bring<N: Names, R: Wait + Copy, G: Gate<N, R>>(
    gate: &G,
    held: &mut Held<N, R>,
    place: Place,
    event: &Event,
) -> Result<G::Answer, EntityRefusal>
    requires { IsKeyed event.now }
    ensures answer { MayAnswerAt N.queue (G.gives gate.now) (record { place = place; event = event.now }) result }
    ensures gave { IfOk result (λ answer. G.gives gate.now held.old event.now answer held.new) }
    ensures same { OnErr result (held.new ≡ held.old) }
    ensures wrong { IsErr result → is_lane_of place held.old.lane ≡ false }
{
    if !is_at(held, place) {
        return Err(EntityRefusal::WrongLane);
    }
    Ok(gate.locked(held, event))
}

// Whether the lane behind a lock is that of a place.
fn is_at<N: Names, R: Copy>(held: &Held<N, R>, place: Place) -> bool
    ensures there { IsTrue result → IsAt N.queue place held.now }
    ensures exact { result ≡ is_lane_of place held.now.lane }
{
    held.user() == place.user && held.lane() == place.lane
}

// The file of the waiting deposit at the lane behind a lock, if that is the lane of the place.
fn image_at<N: Names, R: Copy>(
    held: &Held<N, R>,
    place: Place,
    key: TxnKey,
    stamp: u32,
) -> Result<Image, EntityRefusal>
    ensures may { MayGiveImage N.queue key stamp (Ok place) result }
    ensures exact { IsUpToMemory (read_at place (λ lane. image_of lane key stamp) held.now) result }
{
    if !is_at(held, place) {
        return Err(EntityRefusal::WrongLane);
    }
    match held.image(key, stamp) {
        Ok(image) => Ok(image),
        Err(why) => Err(EntityRefusal::Lane(Refused { why, echo: None })),
    }
}

// The progress of a transaction at the lane behind a lock, if that is the lane of the place.
fn trace_at<N: Names, R: Copy>(
    held: &Held<N, R>,
    place: Place,
    key: TxnKey,
) -> Result<Traced, EntityRefusal>
    ensures may { MayTrace N.queue key (Ok place) result }
    ensures exact { result ≡ read_at place (λ lane. how_far lane key) held.now }
{
    if !is_at(held, place) {
        return Err(EntityRefusal::WrongLane);
    }
    match how_far(held.key(), held.journal(), held.trace(), key) {
        Ok(traced) => Ok(traced),
        Err(why) => Err(EntityRefusal::Lane(Refused { why, echo: None })),
    }
}

// Copies of a transaction's events at the lane behind a lock, if that is the lane of the place.
fn journal_at<N: Names, R: Copy>(
    alloc: Global,
    held: &Held<N, R>,
    place: Place,
    key: TxnKey,
) -> Result<Vec<Event>, EntityRefusal>
    ensures given { IfOk result (λ events. MayGiveJournal N.queue key (Ok place) events.items) }
    ensures refused { IfErr result (MayRefuseJournal N.queue key (Ok place)) }
    ensures exact { IfOk result
        (λ events. read_at place (λ lane. events_of lane key) held.now ≡ Ok events.items) }
    ensures due { IfErr result
        (λ why. IsUpToMemory (read_at place (λ lane. events_of lane key) held.now) (Err why)) }
{
    if !is_at(held, place) {
        return Err(EntityRefusal::WrongLane);
    }
    match events_of(alloc, held.key(), held.journal(), key) {
        Ok(events) => Ok(events),
        Err(why) => Err(EntityRefusal::Lane(Refused { why, echo: None })),
    }
}

// A glance at the lane behind a lock, if that is the lane of the place.
fn glance_at<N: Names, R: Copy>(
    held: &Held<N, R>,
    place: Place,
) -> Result<Option<Glance>, EntityRefusal>
    ensures may { MayGlance N.queue place result }
    ensures exact { IsUpToMemory (read_at place (λ lane. Ok (glance_of lane)) held.now) result }
{
    if !is_at(held, place) {
        return Err(EntityRefusal::WrongLane);
    }
    match held.glance() {
        Ok(glance) => Ok(glance),
        Err(_) => Err(EntityRefusal::Lane(Refused {
            why: Refusal::NoMemory,
            echo: None,
        })),
    }
}
