//! The script of a journal.
ghost use Rattle.std.specs.Prelude.{◌≡◌, ◌<◌, ◌++◌, ◌⊎◌, List, length, Ok, IfOk, OnOk, string_bytes};
ghost use Rattle.world_table.specs.Histories.{Happening};
ghost use Rattle.world_core.specs.Worlds.{IsAnswered, IsUnread, StandsAfter, history_after};
ghost use Rattle.entity_routing.specs.Routes.{route};
ghost use Rattle.journal_recording.specs.Recording.{BeginsWith, HasPlayed, HasPlayedOne, IsScriptOf, first_text, name_in, take_text};

use crate::events::caller_event;
use entity_config::{Config, Setting};
use entity_routing::Place;
use journal_scripts::{push_event, push_first, push_take};
use lane_table::Done;
use pdu_values::Body;
use std::alloc::{AllocError, Global};
use txn_events::{Event, Refusal, What};
use world_core::{EntityRefusal, World, WorldEvent};

// Room for an event in octets, in addition to the digits of its file's octets. Only few events need more.
const LINE_ROOM: usize = 128;

/// Why a journal has no script.
#[derive(Clone, Copy, Debug, PartialEq, Eq)]
pub enum ScriptFault {
    /// Lines can't have one of the events: a put with messages, or with a name that is not a word of ASCII.
    NotPlain,
    /// A fresh entity with this configuration doesn't accept the events as they came.
    NotPlayed,
    /// Memory ran out.
    NoMemory,
}

impl From<AllocError> for ScriptFault {
    ghost use Rattle.std.specs.Prelude.{◌≡◌};
    ghost use Rattle.journal_recording.specs.declared.script.ScriptFault.TheVariants as fault;

    ghost from_gives = { λ _ e. e ≡ fault.NoMemory };

    fn from(_lack: AllocError) -> ScriptFault {
        ScriptFault::NoMemory
    }
}

/// Returns the script of a journal: lines that take a fresh entity with this configuration through the events of the
/// lane at a place, with a take after each event that issued indications to the lane's user. For a transaction that the
/// entity itself opened, `first` is where the numbers of its lanes must begin. The events are played, to see where a
/// take belongs.
pub fn script_of(
    alloc: Global,
    config: Config,
    first: Option<u64>,
    place: Place,
    journal: &[Event],
) -> Result<String, ScriptFault>
    ensures { IfOk result (λ script. IsScriptOf config first place journal.now (string_bytes script)) }
{
    let mut text = String::with_capacity(alloc, room_for(journal))?;
    let config = begin(config, first, &mut text)?;
    let name = name_in(alloc, &config, place.user)?;
    let mut world = World::open(alloc, config)?;
    play_all(alloc, &mut world, name.as_str(), place, journal, &mut text)?;
    if world.take(place.user).is_some() {
        return Err(ScriptFault::NotPlayed);
    }
    Ok(text)
}

// About how many octets a script of a journal has, so that it doesn't double its memory as it grows.
fn room_for(journal: &[Event]) -> usize {
    let mut room = 0usize;
    for event in journal {
        let digits = file_octets(event).saturating_mul(2);
        room = room.saturating_add(digits).saturating_add(LINE_ROOM);
    }
    room
}

// How many octets of a file an event brings.
fn file_octets(event: &Event) -> usize {
    match event {
        Event::Put(put, _) => put.file().as_slice().len(),
        Event::On(_, What::Pdu(pdu)) => match pdu.body() {
            Body::FileData(data) => data.octets.as_slice().len(),
            _ => 0,
        },
        Event::On(..) => 0,
    }
}

// Makes the configuration that a script begins with, and adds the line for that.
fn begin(config: Config, first: Option<u64>, text: &mut String) -> Result<Config, ScriptFault>
    ensures begins { IfOk result (λ begun. BeginsWith config first begun) }
    ensures text { OnOk result (string_bytes text.new ≡ string_bytes text.old ++ first_text first) }
{
    let mut config = config;
    let Some(first) = first else {
        return Ok(config);
    };
    if config.set(Setting::First(first)).is_err() {
        return Err(ScriptFault::NotPlayed);
    }
    push_first(text, first)?;
    Ok(config)
}

// A copy of the name of a user that the configuration has.
fn name_in(alloc: Global, config: &Config, user: usize) -> Result<String, ScriptFault>
    ensures name { IfOk result (λ name. string_bytes name ≡ name_in config.now user) }
    ensures known { OnOk result (user < length config.now.users) }
{
    match config.name_of(user) {
        Some(name) => Ok(String::from_str(alloc, name)?),
        None => Err(ScriptFault::NotPlayed),
    }
}

// Plays the events of a journal one after the other, and adds their lines.
fn play_all(
    alloc: Global,
    world: &mut World,
    name: &str,
    place: Place,
    journal: &[Event],
    text: &mut String,
) -> Result<(), ScriptFault>
    requires { place.user < length world.old.config.users }
    ensures config { OnOk result (world.new.config ≡ world.old.config) }
    ensures played { (earlier : List Happening) → StandsAfter world.old earlier
        → OnOk result (HasPlayed world.old.config name.now place earlier journal.now world.new (string_bytes text.old)
        (string_bytes text.new)) }
{
    for event in journal {
        play(alloc, world, name, place, event, text)?;
    }
    Ok(())
}

// Plays one event, and adds its lines.
fn play(
    alloc: Global,
    world: &mut World,
    name: &str,
    place: Place,
    event: &Event,
    text: &mut String,
) -> Result<(), ScriptFault>
    requires { place.user < length world.old.config.users }
    ensures config { OnOk result (world.new.config ≡ world.old.config) }
    ensures played { (earlier : List Happening) → StandsAfter world.old earlier
        → OnOk result (HasPlayedOne world.old.config name.now place earlier event.now world.new (string_bytes text.old)
        (string_bytes text.new)) }
{
    let given = caller_event(alloc, place, event)?;
    let _done = step(world, &given)?;
    if !push_event(alloc, text, name, place.lane, event)? {
        return Err(ScriptFault::NotPlain);
    }
    let taken = world.take(place.user);
    push_told(text, name, taken.is_some())?;
    Ok(())
}

// Passes an event to the entity, which must accept it.
fn step(world: &mut World, given: &WorldEvent) -> Result<Done, ScriptFault>
    ensures config { OnOk result (world.new.config ≡ world.old.config) }
    ensures answered { (earlier : List Happening) → StandsAfter world.old earlier
        → IfOk result (λ done. IsAnswered world.old.config earlier (route world.old.config given.now) (Ok done)
        ⊎ IsUnread given.now (Ok done)) }
    ensures stands { (earlier : List Happening) → StandsAfter world.old earlier
        → IfOk result (λ done. StandsAfter world.new
        (history_after earlier (route world.old.config given.now) (Ok done))) }
{
    if !world.may_come(given) {
        return Err(ScriptFault::NotPlayed);
    }
    match world.step(given) {
        Ok(done) => Ok(done),
        Err(refusal) => Err(fault_of(&refusal)),
    }
}

// Adds the line of a take, if there was a bundle to take.
fn push_told(text: &mut String, name: &str, told: bool) -> Result<(), AllocError>
    ensures { OnOk result (string_bytes text.new ≡ string_bytes text.old ++ take_text told name.now) }
{
    if told { push_take(text, name) } else { Ok(()) }
}

// The fault for an event that was refused.
fn fault_of(refusal: &EntityRefusal) -> ScriptFault {
    match refusal {
        EntityRefusal::Lane(refused) if refused.why == Refusal::NoMemory => ScriptFault::NoMemory,
        _ => ScriptFault::NotPlayed,
    }
}
