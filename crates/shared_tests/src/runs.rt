//! Runs of a shared entity: each opens one, with the queues of its users, and plays.
ghost use Rattle.std.specs.Prelude.{◌≡◌, All};
ghost use Rattle.shared_entity.specs.Opening.{AreQueuesFor};

use crate::workers::Shift;
use crate::{apart, closing, crowd, workers};
use entity_config::{Config, read_config};
use shared_entity::{Entity, queues_of};
use shared_lanes::Names;
use std::alloc::{AllocError, Global};
use std::marker::Brand;
use std::sync::Wait;
use std::thread::Threads;
use test_configs::{EntityText, TWO_SOURCES, text_of};
use user_queues::{Queues, UserPort};

/// The kinds of runs.
#[derive(Clone, Copy)]
pub(crate) enum Run {
    /// Two threads deliver, and then the entity is closed.
    Closing,
    /// A lane is held back while others work.
    Apart,
    /// Eight threads work on all lanes.
    Crowd,
    /// Workers bring datagrams to their lanes.
    Working(Shift),
}

/// The text of a run, line by line, where the queue of each user holds this many bundles.
pub(crate) fn play<R: Threads + Wait + AllocGlobal + Copy + Send + Sync>(
    rt: R,
    capacity: u16,
    run: Run,
) -> Result<String, AllocError> {
    let alloc = rt.alloc();
    match two_sources(alloc, capacity) {
        Some(config) => play_with(rt, alloc, config, run),
        None => String::from_str(alloc, "no configuration"),
    }
}

// Entity 2 with the users alice and bob, who receive from entities 1 and 3.
fn two_sources(alloc: Global, capacity: u16) -> Option<Config> {
    let entity = EntityText {
        capacity,
        ..TWO_SOURCES
    };
    let text = text_of(alloc, &entity).ok()?;
    read_config(alloc, text.as_str()).ok()
}

// Plays over the queues of a configuration.
fn play_with<R: Threads + Wait + Copy + Send + Sync>(
    rt: R,
    alloc: Global,
    config: Config,
    run: Run,
) -> Result<String, AllocError> {
    let queues = queues_of(rt, alloc, &config)?;
    play_named::<Brand, R>(rt, alloc, config, queues, run)
}

// Plays with queues that `N` names: the proofs about an entity refer to its queues by that name, so it is a parameter.
// The entity is closed and not dropped, since the proof of what drops one is expensive.
fn play_named<N: Names + Send + Sync, R: Threads + Wait + Copy + Send + Sync>(
    rt: R,
    alloc: Global,
    config: Config,
    queues: Queues<R>,
    run: Run,
) -> Result<String, AllocError>
    requires { AreQueuesFor N.queue N.lanes config queues }
{
    let mut text = String::new(alloc);
    let (entity, ports) = Entity::<N, R>::open(alloc, config, queues)?;
    let played = match run {
        Run::Closing => play_first(&rt, &mut text, entity, ports),
        _ => {
            let played = play_all(&rt, alloc, &mut text, &entity, ports, run);
            entity.into_lanes();
            played
        }
    };
    played?;
    Ok(text)
}

// Plays with the ports of all users.
fn play_all<N: Names + Send + Sync, R: Threads + Wait + Copy + Send + Sync>(
    rt: &R,
    alloc: Global,
    text: &mut String,
    entity: &Entity<N, R>,
    ports: Vec<UserPort>,
    run: Run,
) -> Result<(), AllocError> {
    match run {
        Run::Closing => Ok(()),
        Run::Apart => apart::hold_back(rt, alloc, text, entity),
        Run::Crowd => crowd::crowd(rt, alloc, text, entity, ports),
        Run::Working(shift) => workers::run_shift(rt, alloc, text, entity, ports, &shift),
    }
}

// Plays with the first user, whose port is the first one.
fn play_first<N: Names + Send + Sync, R: Threads + Wait + Copy + Send + Sync>(
    rt: &R,
    text: &mut String,
    entity: Entity<N, R>,
    ports: Vec<UserPort>,
) -> Result<(), AllocError>
    requires { All (λ port. port.queue ≡ N.queue port.knows.user) ports.items }
{
    for port in ports {
        return closing::deliver_two(rt, text, entity, port);
    }
    entity.into_lanes();
    Ok(())
}
