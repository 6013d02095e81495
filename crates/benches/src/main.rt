//! Runs one scenario at a size that the caller names, or some of each kind at small sizes, and prints the result. `make
//! bench` measures these runs.
#![tactic(auto)]

mod cores;
mod entities;
mod fault;
mod loopback;
mod queues;

use cores::receptions::{Coming, Order};
use cores::sendings::Parts;
use cores::sizes::Sized;
use cores::{far_octets, receptions, sendings, sizes, timers};
use entities::deliveries;
use entities::deliveries::Size;
use fault::Fault;
use loopback::Load;
use queues::{listed, shared};
use std::env;
use std::net::Net;
use std::sync::Wait;
use std::thread::Threads;

/// The scenarios.
#[derive(Clone, Copy)]
enum Scenario {
    /// A core receives a file.
    Receives(Coming),
    /// Cores receive an octet each, and their senders cancel.
    ReceivesFar,
    /// The size of a type.
    Sizes(Sized),
    /// A core sends a file.
    SendsOnce,
    /// A core sends parts of a file again.
    Sends(Parts),
    /// Timers are armed and expire.
    Times,
    /// Bundles go through a queue of one thread.
    Listed,
    /// Threads put bundles into a queue, one thread for each lane, and another takes them.
    Shared { lanes: usize },
    /// Threads deliver to an entity, each to its own lane.
    Deliveries,
    /// Datagrams are sent over loopback.
    Blast,
}

/// A scenario and its numbers: the size of the file that a core receives or sends, or of the timers' list; or the
/// offset of an octet, and how many cores receive one; or the capacity of a queue in bundles, and how many bundles each
/// lane puts in; or how many threads deliver, and how many files each; or how many datagrams are sent, and how many
/// octets each has.
#[derive(Clone, Copy)]
struct Wanted {
    scenario: Scenario,
    first: u32,
    second: u32,
}

// Some runs of each kind.
const EACH: [Wanted; 4] = [
    Wanted {
        scenario: Scenario::Receives(Coming::EofFirst(Order::Mixed)),
        first: 64,
        second: 0,
    },
    Wanted {
        scenario: Scenario::Shared { lanes: 4 },
        first: 8,
        second: 500,
    },
    Wanted {
        scenario: Scenario::Deliveries,
        first: 2,
        second: 1,
    },
    Wanted {
        scenario: Scenario::Blast,
        first: 500,
        second: 1_400,
    },
];

fn main(rt: HostRuntime) -> Result<(), Fault> {
    if let Some(wanted) = read_words(&rt)? {
        return Ok(rt.println(run(rt, wanted)?)?);
    }
    for wanted in EACH {
        rt.println(run(rt, wanted)?)?;
    }
    Ok(())
}

// The scenario and the numbers that the program's arguments give, if they give any.
fn read_words(rt: &HostRuntime) -> Result<Option<Wanted>, Fault> {
    let mut words = env::args(rt)?.skip(1);
    let Some(scenario) = words.next() else {
        return Ok(None);
    };
    let scenario = scenario_of(scenario.as_str()).ok_or(Fault::Usage)?;
    let first = words.next().ok_or(Fault::Usage)?.parse()?;
    let second = match words.next() {
        Some(word) => word.parse()?,
        None => 0,
    };
    Ok(Some(Wanted {
        scenario,
        first,
        second,
    }))
}

// The scenarios by their names.
const NAMES: [(&str, Scenario); 21] = [
    ("eof-last", Scenario::Receives(Coming::EofLast)),
    (
        "eof-first-rising",
        Scenario::Receives(Coming::EofFirst(Order::Rising)),
    ),
    (
        "eof-first-falling",
        Scenario::Receives(Coming::EofFirst(Order::Falling)),
    ),
    (
        "eof-first-mixed",
        Scenario::Receives(Coming::EofFirst(Order::Mixed)),
    ),
    (
        "single-octets-falling",
        Scenario::Receives(Coming::SingleOctets),
    ),
    ("prompts", Scenario::Receives(Coming::Prompts)),
    ("far-octets", Scenario::ReceivesFar),
    ("size-of-event", Scenario::Sizes(Sized::Event)),
    ("size-of-pdu", Scenario::Sizes(Sized::Pdu)),
    ("size-of-indication", Scenario::Sizes(Sized::Indication)),
    ("size-of-refused", Scenario::Sizes(Sized::Refused)),
    ("size-of-plan", Scenario::Sizes(Sized::Plan)),
    ("file-sent", Scenario::SendsOnce),
    ("naks", Scenario::Sends(Parts::Segments)),
    ("naks-of-octets", Scenario::Sends(Parts::Octets)),
    ("timers", Scenario::Times),
    ("one-thread", Scenario::Listed),
    ("one-producer", Scenario::Shared { lanes: 1 }),
    ("four-producers", Scenario::Shared { lanes: 4 }),
    ("deliveries", Scenario::Deliveries),
    ("blast", Scenario::Blast),
];

fn scenario_of(name: &str) -> Option<Scenario> {
    for (other, scenario) in NAMES {
        if name == other {
            return Some(scenario);
        }
    }
    None
}

// Runs a scenario, and returns its count.
fn run<R: Threads + Wait + Net + AllocGlobal + Copy + Send + Sync>(
    rt: R,
    wanted: Wanted,
) -> Result<u64, Fault> {
    let Wanted {
        scenario,
        first,
        second,
    } = wanted;
    match scenario {
        Scenario::Receives(coming) => receptions::receive(rt.alloc(), coming, first),
        Scenario::ReceivesFar => far_octets::receive(rt.alloc(), first, second),
        Scenario::Sizes(sized) => Ok(sizes::size_in_octets(sized)),
        Scenario::SendsOnce => sendings::file(rt.alloc(), first),
        Scenario::Sends(parts) => sendings::naks(rt.alloc(), parts, first),
        Scenario::Times => timers::turns(rt.alloc(), first),
        Scenario::Listed => listed::come(rt.alloc(), first as usize, second),
        Scenario::Shared { lanes } => shared::come(rt, rt.alloc(), lanes, first as usize, second),
        Scenario::Deliveries => deliveries::come(rt, rt.alloc(), size(first, second)?),
        Scenario::Blast => loopback::blast(&rt, rt.alloc(), load(first, second)?),
    }
}

fn size(threads: u32, files: u32) -> Result<Size, Fault> {
    Ok(Size {
        threads: threads.try_into()?,
        files: files.try_into()?,
    })
}

fn load(datagrams: u32, octets: u32) -> Result<Load, Fault> {
    Ok(Load {
        datagrams,
        octets: octets.try_into()?,
    })
}
