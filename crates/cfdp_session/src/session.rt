ghost use Rattle.std.specs.Prelude.{◌≡◌, ◌∷◌, IfOk, slice_get, option_map, option_copied};
ghost use Rattle.pdu_values.specs.Spelling as spelling;
ghost use Rattle.cfdp_session.specs.Kept.{addressed, is_put_off, timers_of};
ghost use Rattle.cfdp_session.specs.Flat.{if_open};
ghost use Rattle.cfdp_session.specs.Steps.{first_turns};

use crate::flat::{
    FlatBundle, FlatDeposit, FlatDone, FlatImage, FlatIndication, FlatKey, FlatRemote, FlatTimer,
    FlatTransaction,
};
use crate::order::Order;
use crate::plan::{Plan, Unset};
use crate::turning::note;
use crate::{KeptTimers, Turns};
use cfdp_types::limits::{MESSAGE_OCTETS, MESSAGES};
use cfdp_types::{Image, Messages, Octets, PutFault, PutRequest, TimerOp, TxnKey};
use entity_config::{Config, ConfigFault, Setting, read_config};
use entity_routing::lanes_of;
use indications::{Bundle, Indication};
use lane_table::{Done, Echo, Glance};
use pdu_codec::{Pdu, encode};
use pdu_values::{Direction, Header};
use std::alloc::{AllocError, Global};
use std::{mem, str};
use timer_list::Armed;
use world_core::{EntityRefusal, World, WorldEvent};

/// What became of an event.
#[derive(Clone, Copy, Debug, PartialEq, Eq)]
pub enum Telling {
    /// The entity handled it.
    Told,
    /// The entity has no such user, or the user no such sending lane.
    NoSuch,
    /// There was no memory for a timer of the event before. This one did not reach the entity.
    NoMemory,
}

/// What became of the time that the caller told.
#[derive(Clone, Copy, Debug, PartialEq, Eq)]
pub enum Ticking {
    /// A timer had expired, and the entity handled that.
    Told,
    /// No timer has expired.
    Nothing,
    /// There was no memory for a timer of the event before. No timer was looked for.
    NoMemory,
}

/// The result of taking a bundle from a user's queue.
#[derive(Clone, Copy, Debug, PartialEq, Eq)]
pub enum Taking {
    /// The bundle at the front was taken.
    Taken,
    /// No bundle waits.
    Nothing,
    /// The entity has no such user.
    NoUser,
}

/// An entity, and what its caller may still fetch. Each part is kept until another replaces it: the next event's
/// result, the next bundle or the next file. The next Put takes the messages.
#[derive(Drop)]
pub struct Session {
    pub world: World,
    /// The last event's result.
    pub last: Option<Result<Done, EntityRefusal>>,
    /// The bundle that was taken last.
    pub front: Option<Bundle>,
    /// The received file that was requested last.
    pub image: Option<Image>,
    /// The messages for the next Put.
    pub messages: Messages,
    /// Which transactions may have something to send.
    pub turns: Turns,
    /// The timers, if the caller tells the time.
    pub timers: KeptTimers,
    /// Of what a setting makes the entity anew, until the first event.
    pub plan: Option<Plan>,
}

impl Session {
    ghost use Rattle.std.specs.Prelude.{◌≡◌, ◌≤◌, ◌<◌, ◌⊎◌, List, [], ◌∷◌, ◌++◌, None, length, IfOk, IfErr, OnOk, OnErr, IsTrue, slice_get, option_map, option_copied};
    ghost use Rattle.pdu_values.specs.Spelling as spelling;
    ghost use Rattle.cfdp_types.specs.Put.{put_fault};
    ghost use Rattle.config_reading.specs.Walk.{config_of};
    ghost use Rattle.world_table.specs.Histories.{Happening, held_for};
    ghost use Rattle.entity_parts.specs.FirstLanes.{first_lane};
    ghost use Rattle.world_core.specs.Worlds.{StandsAfter, MayCome};
    ghost use Rattle.cfdp_session.specs.Flat.{flat_bundle, flat_deposit, flat_done, flat_indication, flat_own, flat_remote, flat_timer, lanes_in, open_at};
    ghost use Rattle.cfdp_session.specs.Kept.{addressee, deposit_of, image_parts, indications_of, parts_at, pdus_of, timers_of};
    ghost use Rattle.cfdp_session.specs.Orders.{put_of};
    ghost use Rattle.cfdp_session.specs.Plans.{IsUnset};
    ghost use Rattle.cfdp_session.specs.Steps.{IsLoaded, IsMissing, IsOpened, IsQuiet, IsSet, IsTaken, IsTicked, IsTold, IsUnsettled, expiry, left_after, running_in};
    ghost use Rattle.cfdp_session.specs.Running.{is_before, settled, waiting};
    ghost use Rattle.cfdp_session.specs.Turns.{next};

    /// Opens a session with a new entity, whose configuration is this TOML text. Octets that are not UTF-8 are
    /// `BadToml`.
    pub fn open(alloc: Global, text: &[u8]) -> Result<Session, ConfigFault>
        ensures opened { IfOk result (IsOpened text.now) }
        ensures refused { IfErr result (λ fault. (fault ≡ ConfigFault.NoMemory) ⊎ (fault ≡ ConfigFault.BadToml) ⊎ (config_of text.now ≡ Err fault)) }
    {
        let Ok(text) = str::from_utf8(text) else {
            return Err(ConfigFault::BadToml);
        };
        let world = World::open(alloc, read_config(alloc, text)?)?;
        let turns = turns_of(alloc, world.config())?;
        Ok(Session {
            world,
            last: None,
            front: None,
            image: None,
            messages: Messages::new(alloc),
            turns,
            timers: KeptTimers::new(alloc),
            plan: Some(Plan::new(alloc, text)?),
        })
    }

    /// Makes the entity anew, with all settings so far and this one. An error changes nothing.
    pub fn set(&mut self, alloc: Global, setting: Setting) -> Result<(), Unset>
        ensures set { OnOk result (IsSet self.old setting self.new) }
        ensures refused { IfErr result (IsUnset self.old.plan setting) }
        ensures same { OnErr result (self.new ≡ self.old) }
    {
        let Some(plan) = &mut self.plan else {
            return Err(Unset::TooLate);
        };
        let world = plan.make_with(alloc, &setting)?;
        self.world = world;
        Ok(())
    }

    /// Passes an event to the entity and keeps the result. First it does what the event before left to do with timers;
    /// without memory for that, the event doesn't reach the entity.
    #[tactic(auto, using(crate::proofs::Told::told_of))]
    pub fn tell(&mut self, event: &WorldEvent) -> Telling
        ensures told { result ≡ Telling.Told → IsTold self.old event.now self.old.timers.clock (running_in self.old) self.new }
        ensures never { result ≡ Telling.NoSuch → MayCome self.old.world.config event.now → ⊥ }
        ensures same { result ≡ Telling.NoSuch → self.new ≡ self.old }
        ensures memory { result ≡ Telling.NoMemory → IsUnsettled self.old self.new }
    {
        if !self.world.may_come(event) {
            return Telling::NoSuch;
        }
        if self.timers.settle(timers_left(&self.last)).is_err() {
            return Telling::NoMemory;
        }
        self.pass_on(event);
        Telling::Told
    }

    // Passes an event to the entity, once nothing is left to do with timers.
    fn pass_on(&mut self, event: &WorldEvent)
        requires { MayCome self.old.world.config event.now }
        ensures told { IsTold self.old event.now self.old.timers.clock (waiting self.old.timers) self.new }
        ensures held { self.new.timers.held ≡ self.old.timers.held }
    {
        let answer = self.world.step(event);
        note(
            &mut self.turns,
            self.world.config().entity().local,
            event,
            &answer,
        );
        self.last = Some(answer);
        self.timers.carried = 0;
        self.plan = None;
    }

    /// Notes the time, and passes the first timer that has expired to the entity. If the entity refuses it for want of
    /// memory or room, it goes back, after all other timers.
    #[tactic(auto, using(crate::proofs::Told::told_of, crate::proofs::Quiet::quiet))]
    pub fn tick(&mut self, now: u64) -> Ticking
        ensures told { result ≡ Ticking.Told → IsTicked self.old now self.new }
        ensures nothing { result ≡ Ticking.Nothing → IsQuiet self.old now self.new }
        ensures memory { result ≡ Ticking.NoMemory → IsUnsettled self.old self.new }
    {
        match self.timers.due(timers_left(&self.last), now) {
            Err(_) => Ticking::NoMemory,
            Ok(None) => Ticking::Nothing,
            Ok(Some(timer)) => {
                self.expire(timer);
                Ticking::Told
            }
        }
    }

    // Passes a timer that has expired to the entity.
    #[tactic(auto, using(crate::proofs::Told::told_with))]
    fn expire(&mut self, timer: Armed)
        requires { self.old.timers.held ≡ None }
        ensures { IsTold self.old (expiry timer) self.old.timers.clock (left_after self.new.last timer self.old.timers.list) self.new }
    {
        let event = WorldEvent::Timer(timer.key, timer.kind, timer.stamp);
        self.pass_on(&event);
        if is_put_off(&self.last) {
            self.timers.hold(timer);
        }
    }

    /// A time before which no timer expires, for a caller that tells the time; none if none runs. An error means that
    /// memory ran out.
    pub fn deadline(&mut self) -> Result<Option<u64>, AllocError>
        ensures found { IfOk result (λ moment. IsTrue (is_before moment (running_in self.old))) }
        ensures settled { OnOk result (self.new ≡ record self.old { timers = settled (timers_of self.old.last) self.old.timers }) }
        ensures memory { OnErr result (IsUnsettled self.old self.new) }
    {
        self.timers.soonest(timers_left(&self.last))
    }

    /// The transaction of the entity's own that is next to be asked for a PDU.
    pub fn next_pump(&self) -> Option<FlatKey>
        ensures { result ≡ option_map (flat_own self.now.world.config) (next self.now.turns) }
    {
        match self.turns.next() {
            Some(seq) => Some(FlatKey {
                source: self.world.config().entity().local.0,
                seq,
            }),
            None => None,
        }
    }

    /// A remote entity, by its place in the configuration.
    pub fn remote(&self, index: usize) -> Option<FlatRemote>
        ensures { result ≡ option_map (λ peer. flat_remote peer.remote) (slice_get self.now.world.config.peers index) }
    {
        match self.world.config().remote_at(index) {
            Some(remote) => Some(FlatRemote::of(remote)),
            None => None,
        }
    }

    /// The number of lanes of a user, if there is such a user.
    pub fn lanes(&self, user: usize) -> Option<usize>
        ensures { result ≡ lanes_in self.now.world.config user }
    {
        if user >= self.world.users() {
            return None;
        }
        Some(lanes_of(self.world.config(), user))
    }

    /// The transaction that a lane of a user runs. None if it runs none, or there is no such lane. An error means that memory
    /// ran out.
    pub fn transaction(
        &self,
        user: usize,
        lane: usize,
    ) -> Result<Option<FlatTransaction>, AllocError>
        ensures { IfOk result (λ found. found ≡ open_at self.now.world.posts user lane) }
    {
        match self.world.glance(user, lane)? {
            Some(glance) => Ok(if_open(&glance)),
            None => Ok(None),
        }
    }

    /// Takes the bundle at the front of a user's queue, and keeps it.
    pub fn take(&mut self, user: usize) -> Taking
        ensures taken { result ≡ Taking.Taken → IsTaken self.old user self.new }
        ensures nothing { (history : List Happening) → StandsAfter self.old.world history
            → result ≡ Taking.Nothing → held_for (first_lane self.old.world.config) history user ≡ [] }
        ensures unknown { result ≡ Taking.NoUser → length self.old.world.config.users ≤ user }
        ensures same { (result ≡ Taking.Taken → ⊥) → self.new ≡ self.old }
    {
        if user >= self.world.users() {
            return Taking::NoUser;
        }
        match self.world.take(user) {
            None => Taking::Nothing,
            Some(bundle) => {
                self.front = Some(bundle);
                Taking::Taken
            }
        }
    }

    /// Gets the file of the waiting deposit with this key and this stamp, and keeps it. An error says why there is
    /// none; then nothing changes.
    pub fn load(&mut self, key: TxnKey, stamp: u32) -> Result<FlatImage, FlatImage>
        ensures loaded { IfOk result (IsLoaded self.old key stamp self.new) }
        ensures refused { IfErr result (IsMissing self.old.world key stamp) }
        ensures same { OnErr result (self.new ≡ self.old) }
    {
        match self.world.image(key, stamp) {
            Ok(image) => {
                let flat = FlatImage::of(&image);
                self.image = Some(image);
                Ok(flat)
            }
            Err(why) => Err(FlatImage::missing(&why)),
        }
    }

    /// The counts and numbers of the last event's result.
    pub fn done(&self) -> FlatDone
        ensures { result ≡ flat_done self.now.last }
    {
        FlatDone::of(&self.last)
    }

    /// The octets of the PDU at `index` among those that the last event left to send, if it left so many. An error
    /// means that memory ran out.
    pub fn pdu(&self, alloc: Global, index: usize) -> Result<Option<Vec<u8>>, AllocError>
        ensures { IfOk result (λ octets. option_map (λ o. o.items) octets
            ≡ option_map spelling.written (slice_get (pdus_of self.now.last) index)) }
    {
        match &self.last {
            Some(Ok(done)) => encoded(alloc, done.pdus.as_slice().get(index)),
            Some(Err(EntityRefusal::Lane(refused))) if index == 0 => {
                echoed(alloc, &refused.echo)
            }
            _ => Ok(None),
        }
    }

    /// The entity to which the PDU at `index` goes.
    pub fn addressee(&self, index: usize) -> Option<u64>
        ensures { result ≡ option_map (λ pdu. (addressee pdu).0) (slice_get (pdus_of self.now.last) index) }
    {
        match &self.last {
            Some(Ok(done)) => match done.pdus.as_slice().get(index) {
                Some(pdu) => Some(addressee(pdu.header())),
                None => None,
            },
            Some(Err(EntityRefusal::Lane(refused))) if index == 0 => match &refused.echo {
                Some(echo) => Some(addressee(echo.pdu().header())),
                None => None,
            },
            _ => None,
        }
    }

    /// The timer operation at `index` among those of the last event, if it has so many.
    pub fn timer(&self, index: usize) -> Option<FlatTimer>
        ensures { result ≡ option_map flat_timer (slice_get (timers_of self.now.last) index) }
    {
        match &self.last {
            Some(Ok(done)) => match done.timers.as_slice().get(index) {
                Some(op) => Some(FlatTimer::of(op)),
                None => None,
            },
            _ => None,
        }
    }

    /// The file that the last event handed to the file store.
    pub fn deposit(&self) -> Option<FlatDeposit>
        ensures { result ≡ option_map flat_deposit (deposit_of self.now.last) }
    {
        match &self.last {
            Some(Ok(done)) => match done.deposit {
                Some(deposit) => Some(FlatDeposit::of(deposit)),
                None => None,
            },
            _ => None,
        }
    }

    /// The numbers of the bundle that was taken last.
    pub fn bundle(&self) -> Option<FlatBundle>
        ensures { result ≡ option_map flat_bundle self.now.front }
    {
        match &self.front {
            Some(bundle) => Some(FlatBundle::of(bundle)),
            None => None,
        }
    }

    // The indication at `index` in the bundle that was taken last, if it has so many.
    fn told(&self, index: usize) -> Option<&Indication>
        ensures { option_copied result ≡ slice_get (indications_of self.now.front) index }
    {
        match &self.front {
            Some(bundle) => bundle.inds.as_slice().get(index),
            None => None,
        }
    }

    /// The numbers of the indication at `index` in the bundle that was taken last, if it has so many.
    pub fn indication(&self, index: usize) -> Option<FlatIndication>
        ensures { result ≡ option_map flat_indication (slice_get (indications_of self.now.front) index) }
    {
        match self.told(index) {
            Some(indication) => Some(FlatIndication::of(indication)),
            None => None,
        }
    }

    /// A text of an indication of that bundle: 0 is the file's name at the sender, 1 its name at the receiver, and
    /// messages follow.
    pub fn octets(&self, index: usize, part: usize) -> Option<&[u8]>
        ensures { option_copied result ≡ slice_get (parts_at (slice_get (indications_of self.now.front) index)) part }
    {
        match self.told(index) {
            Some(Indication::MetadataRecv(metadata)) => {
                let metadata = metadata.get();
                let messages = metadata.messages.as_slice();
                text_at(
                    &metadata.source_name,
                    &metadata.destination_name,
                    messages,
                    part,
                )
            }
            _ => None,
        }
    }

    /// A part of the received file that was requested last: 0 and 1 are its names at the sender and at the receiver, 2
    /// is its content.
    pub fn image_part(&self, part: usize) -> Option<&[u8]>
        ensures { option_copied result ≡ slice_get (image_parts self.now.image) part }
    {
        match &self.image {
            None => None,
            Some(image) => match part {
                0 => Some(image.source_name.as_slice()),
                1 => Some(image.destination_name.as_slice()),
                2 => Some(image.octets.as_slice()),
                _ => None,
            },
        }
    }

    /// Adds a message for the next Put.
    pub fn add_message(&mut self, alloc: Global, octets: &[u8]) -> Result<(), PutFault>
        ensures added { OnOk result (self.new ≡ record self.old { messages = self.old.messages ++ octets.now ∷ [] }) }
        ensures long { MESSAGE_OCTETS < length octets.now → result ≡ Err PutFault.MessageTooLong }
        ensures many { length octets.now ≤ MESSAGE_OCTETS → MESSAGES ≤ length self.old.messages
            → result ≡ Err PutFault.TooManyMessages }
        ensures memory { length octets.now ≤ MESSAGE_OCTETS → length self.old.messages < MESSAGES
            → IfErr result (λ fault. fault ≡ PutFault.NoMemory) }
        ensures same { OnErr result (self.new ≡ self.old) }
    {
        if octets.len() > MESSAGE_OCTETS {
            return Err(PutFault::MessageTooLong);
        }
        if self.messages.as_slice().len() >= MESSAGES {
            return Err(PutFault::TooManyMessages);
        }
        self.messages.push(Octets::from_slice(alloc, octets)?)?;
        Ok(())
    }

    /// Drops the messages that were added for the next Put.
    pub fn forget_messages(&mut self, alloc: Global)
        ensures { self.new ≡ record self.old { messages = [] } }
    {
        self.messages = Messages::new(alloc);
    }

    /// Makes a Put request with the messages that were added. They are gone afterwards, whatever the result.
    pub fn put(&mut self, alloc: Global, order: &Order<'_>) -> Result<PutRequest, PutFault>
        ensures made { IfOk result (λ put. put ≡ put_of order.now self.old.messages) }
        ensures refused { IfErr result (λ fault. (fault ≡ PutFault.NoMemory)
            ⊎ (put_fault order.now.source_name.now order.now.destination_name.now self.old.messages ≡ Some fault)) }
        ensures others { self.new ≡ record self.old { messages = [] } }
    {
        let messages = mem::replace(&mut self.messages, Messages::new(alloc));
        order.put(alloc, messages.as_slice())
    }
}

// Turns for the sending lanes of a configuration.
#[tactic(auto, using(crate::proofs::LaneCounts::lane_count))]
fn turns_of(alloc: Global, config: &Config) -> Result<Turns, AllocError>
    ensures { IfOk result (λ turns. turns ≡ first_turns config.now) }
{
    let entity = config.entity();
    Turns::new(alloc, config.users() * entity.put_lanes)
}

// The numbers of a transaction that has not ended.
fn if_open(glance: &Glance) -> Option<FlatTransaction>
    ensures { result ≡ if_open glance.now }
{
    if glance.has_ended {
        None
    } else {
        Some(FlatTransaction::of(glance))
    }
}

// What an event left to do with timers.
fn timers_left(last: &Option<Result<Done, EntityRefusal>>) -> &[TimerOp]
    ensures { result.now ≡ timers_of last.now }
{
    match last {
        Some(Ok(done)) => done.timers.as_slice(),
        _ => &[],
    }
}

// Whether an event was refused, and may come again.
fn is_put_off(last: &Option<Result<Done, EntityRefusal>>) -> bool
    ensures { result ≡ is_put_off last.now }
{
    match last {
        Some(Err(why)) => why.is_passing(),
        _ => false,
    }
}

// The entity to which a PDU goes.
fn addressee(header: &Header) -> u64
    ensures { result ≡ (addressed header.now).0 }
{
    match header.direction {
        Direction::TowardReceiver => header.destination.0,
        Direction::TowardSender => header.source.0,
    }
}

// The text at a place among both names and the messages.
fn text_at<'a>(
    source_name: &'a Octets,
    destination_name: &'a Octets,
    messages: &'a [Octets],
    part: usize,
) -> Option<&'a [u8]>
    ensures { option_copied result ≡ slice_get (source_name.now ∷ destination_name.now ∷ messages.now) part }
{
    match part {
        0 => Some(source_name.as_slice()),
        1 => Some(destination_name.as_slice()),
        _ => match messages.get(part - 2) {
            Some(message) => Some(message.as_slice()),
            None => None,
        },
    }
}

// The octets of an echo, if there is one.
fn echoed(alloc: Global, echo: &Option<Echo>) -> Result<Option<Vec<u8>>, AllocError>
    ensures { IfOk result (λ octets. option_map (λ o. o.items) octets ≡ option_map spelling.written echo.now) }
{
    let Some(echo) = echo else {
        return Ok(None);
    };
    let mut octets = Vec::new(alloc);
    encode(&echo.pdu(), &mut octets)?;
    Ok(Some(octets))
}

// The octets of a PDU, if there is one.
fn encoded(alloc: Global, pdu: Option<&Pdu>) -> Result<Option<Vec<u8>>, AllocError>
    ensures { IfOk result (λ octets. option_map (λ o. o.items) octets
        ≡ option_map spelling.written (option_copied pdu.entry)) }
{
    let Some(pdu) = pdu else {
        return Ok(None);
    };
    let mut octets = Vec::new(alloc);
    encode(pdu, &mut octets)?;
    Ok(Some(octets))
}
