//! What the lines of a script do.
ghost use Rattle.std.specs.Prelude.{◌≡◌, ℕ, List, IfOk, OnOk, string_bytes};
ghost use Rattle.script_lines.specs.Commands.{command_of};
ghost use Rattle.script_replay.specs.Sessions.{Session as Played, configured, fresh, is_put};
ghost use Rattle.script_replay.specs.Running.{Stands, StandsAt, RunsAs, HasBegun, SetsTo, DoesTo, ToldTo, ObeysTo, PlaysTo};
ghost use Rattle.script_replay.specs.Texts.{user_name};
ghost use Rattle.script_lines.specs.declared.command.Command.TheVariants as command;

use crate::answer::{push_answer, push_taken};
use cfdp_types::Octets;
use entity_config::{Config, Setting};
use script_lines::{Command, Gathered, command_of};
use std::alloc::{AllocError, Global};
use std::mem;
use world_core::{Request, World, WorldEvent};

/// How far a script has come: its configuration may still be changed, or an entity runs with it.
#[derive(Drop)]
pub(crate) enum Stage {
    Configured(Config),
    Running(World),
    /// Memory for the entity ran out.
    Over,
}

/// The state of a script: its entity, and the octets that it has gathered for the next put.
#[derive(Drop)]
pub struct Session {
    stage: Stage,
    gathered: Gathered,
}

impl Session {
    /// A new session, with the reference configuration. It gathers no octets.
    pub fn reference(alloc: Global) -> Result<Session, AllocError>
        ensures { IfOk result (λ session. Stands session fresh) }
    {
        Ok(Session {
            stage: Stage::Configured(Config::reference(alloc)?),
            gathered: Gathered::never(),
        })
    }

    /// A new session, with this configuration.
    pub fn configured(alloc: Global, config: Config) -> Session
        ensures { Stands result (configured config) }
    {
        Session {
            stage: Stage::Configured(config),
            gathered: Gathered::nothing(alloc),
        }
    }

    /// Plays a line and replaces the content of `text` with its answer. Returns whether the script may have that line
    /// here.
    pub fn play(
        &mut self,
        alloc: Global,
        line: &[u8],
        text: &mut String,
    ) -> Result<bool, AllocError>
        ensures { (played : Played) → Stands self.old played
            → IfOk result (λ good. PlaysTo good played line.now self.new (string_bytes text.new)) }
    {
        text.clear();
        match self.said(alloc, line)? {
            Some(command) => self.obey(alloc, command, text),
            None => Ok(false),
        }
    }

    // The command of a line here; None for a bad line.
    fn said(&self, alloc: Global, line: &[u8]) -> Result<Option<Command>, AllocError>
        ensures { (played : Played) → Stands self.now played
            → IfOk result (λ command. command ≡ command_of played.config played.gathered line.now) }
    {
        match &self.stage {
            Stage::Configured(config) => command_of(alloc, config, &self.gathered, line),
            Stage::Running(world) => command_of(alloc, world.config(), &self.gathered, line),
            Stage::Over => Ok(None),
        }
    }

    // Carries out a line and appends its answer.
    fn obey(
        &mut self,
        alloc: Global,
        command: Command,
        text: &mut String,
    ) -> Result<bool, AllocError>
        ensures { (played : Played) → Stands self.old played
            → IfOk result (λ good. ObeysTo good played command self.new (string_bytes text.old)
            (string_bytes text.new)) }
    {
        match command {
            Command::Nothing => Ok(true),
            Command::Set(setting) => Ok(self.stage.set(setting)),
            Command::File(octets) => self.gather(&octets),
            Command::Event(event) => self.tell(alloc, &event, text),
            Command::Take(user) => self.stage.take(alloc, user, text),
        }
    }

    // Gathers octets for the next put, if the script gathers any, and returns whether it does.
    fn gather(&mut self, octets: &Octets) -> Result<bool, AllocError>
        ensures { (played : Played) (text : List ℕ) → Stands self.old played
            → IfOk result (λ good. ObeysTo good played (command.File octets.now) self.new text text) }
    {
        self.gathered.add(octets.as_slice())
    }

    // Passes an event to the entity; a put uses up what was gathered.
    fn tell(
        &mut self,
        alloc: Global,
        event: &WorldEvent,
        text: &mut String,
    ) -> Result<bool, AllocError>
        ensures { (played : Played) → Stands self.old played
            → IfOk result (λ good. ObeysTo good played (command.Event event.now) self.new (string_bytes text.old)
            (string_bytes text.new)) }
    {
        let good = self.stage.tell(alloc, event, text)?;
        if is_put(event) {
            self.gathered.clear();
        }
        Ok(good)
    }
}

impl Stage {
    // Changes the configuration, if it may still be changed. Returns whether it did.
    fn set(&mut self, setting: Setting) -> bool
        ensures { (played : Played) → StandsAt self.old played → SetsTo result played setting self.new }
    {
        match self {
            Stage::Configured(config) => config.set(setting).is_ok(),
            _ => false,
        }
    }

    // Starts the entity, if it doesn't run yet.
    fn begin(&mut self, alloc: Global) -> Result<(), AllocError>
        ensures { (played : Played) → StandsAt self.old played → OnOk result (HasBegun self.new played) }
    {
        if let Stage::Running(_) = self {
            return Ok(());
        }
        if let Stage::Configured(config) = mem::replace(self, Stage::Over) {
            *self = Stage::Running(World::open(alloc, config)?);
        }
        Ok(())
    }

    // Passes an event to the entity.
    fn tell(
        &mut self,
        alloc: Global,
        event: &WorldEvent,
        text: &mut String,
    ) -> Result<bool, AllocError>
        ensures { (played : Played) → StandsAt self.old played
            → IfOk result (λ good. DoesTo good played (command.Event event.now) self.new (string_bytes text.old)
            (string_bytes text.new)) }
    {
        self.begin(alloc)?;
        let Stage::Running(world) = self else {
            return Ok(false);
        };
        tell(alloc, world, event, text)
    }

    // A user of the entity takes its next bundle.
    fn take(&mut self, alloc: Global, user: usize, text: &mut String) -> Result<bool, AllocError>
        ensures { (played : Played) → StandsAt self.old played
            → IfOk result (λ good. DoesTo good played (command.Take user) self.new (string_bytes text.old)
            (string_bytes text.new)) }
    {
        self.begin(alloc)?;
        let Stage::Running(world) = self else {
            return Ok(false);
        };
        take(alloc, world, user, text)
    }
}

fn is_put(event: &WorldEvent) -> bool
    ensures { result ≡ is_put event.now }
{
    matches!(event, WorldEvent::Request(_, Request::Put(_, _)))
}

// Passes an event to an entity, and appends the answer.
fn tell(
    alloc: Global,
    world: &mut World,
    event: &WorldEvent,
    text: &mut String,
) -> Result<bool, AllocError>
    ensures { (played : Played) → RunsAs world.old played
        → IfOk result (λ good. ToldTo good played (command.Event event.now) world.new (string_bytes text.old)
        (string_bytes text.new)) }
{
    if !world.may_come(event) {
        return Ok(false);
    }
    let answer = world.step(event);
    push_answer(alloc, text, is_put(event), &answer)?;
    Ok(true)
}

// A user of an entity takes its next bundle, which is appended.
fn take(
    alloc: Global,
    world: &mut World,
    user: usize,
    text: &mut String,
) -> Result<bool, AllocError>
    ensures { (played : Played) → RunsAs world.old played
        → IfOk result (λ good. ToldTo good played (command.Take user) world.new (string_bytes text.old)
        (string_bytes text.new)) }
{
    if user >= world.users() {
        return Ok(false);
    }
    let taken = world.take(user);
    push_taken(alloc, text, user_name(world.config(), user), &taken)?;
    Ok(true)
}

// A user's name, as configured.
fn user_name(config: &Config, user: usize) -> &str
    ensures { result.now ≡ user_name config.now user }
{
    match config.name_of(user) {
        Some(name) => name,
        None => "",
    }
}
