//! A lane that is held back makes no other lane wait.

use crate::acts::{Act, tell};
use crate::runs::{Run, play};
use crate::said::{Said, push_line};
use crate::watch::Watch;
use entity_routing::Place;
use shared_entity::Entity;
use shared_lanes::{Names, Point};
use std::alloc::{AllocError, Global};
use std::sync::Wait;
use std::test::*;
use std::thread;
use std::thread::Threads;

/// Holds back the first user's receiving lane until both users have put a file, and while one more datagram arrives for
/// that lane. Adds the outcomes of the datagrams and the Puts, and how many locks each thread had.
pub(crate) fn hold_back<N: Names + Send + Sync, R: Threads + Wait + Copy + Send + Sync>(
    rt: &R,
    alloc: Global,
    text: &mut String,
    entity: &Entity<N, R>,
) -> Result<(), AllocError> {
    let gate = Watch::holding(*rt, Point::Locked(0), 4);
    let (held, ((first, second), tried)) = thread::join(
        rt,
        || tell(rt, alloc, entity, &gate, Act::Metadata(1, 5)),
        || {
            thread::join(
                rt,
                || put_both(rt, alloc, entity, &gate),
                || try_lane(rt, alloc, entity, &gate),
            )
        },
    );
    for noted in [first, second, tried] {
        noted.push(text)?;
    }
    held.push(text)?;
    push_line(text, "points and held", &[gate.points(), gate.met()])
}

// The outcome of an event, and the points that its thread reached.
#[derive(Clone, Copy)]
struct Noted {
    said: Said,
    points: u64,
}

impl Noted {
    fn push(self, text: &mut String) -> Result<(), AllocError> {
        push_line(text, "points", &[self.points])?;
        self.said.push(text)
    }
}

// Passes an event to its lane.
fn note<N: Names, R: Wait + Copy>(rt: &R, alloc: Global, entity: &Entity<N, R>, act: Act) -> Noted {
    let gate = Watch::new(*rt);
    let said = tell(rt, alloc, entity, &gate, act);
    Noted {
        said,
        points: gate.points(),
    }
}

// Has both users put a file while the lane is held.
fn put_both<N: Names, R: Wait + Copy>(
    rt: &R,
    alloc: Global,
    entity: &Entity<N, R>,
    gate: &Watch<R>,
) -> (Noted, Noted) {
    gate.waits_for(1);
    let second = note(rt, alloc, entity, Act::Put(Place { user: 1, lane: 0 }, 1));
    gate.arrive();
    let first = note(rt, alloc, entity, Act::Put(Place { user: 0, lane: 0 }, 1));
    gate.arrive();
    (first, second)
}

// Delivers the file's EOF while the lane is held.
fn try_lane<N: Names, R: Wait + Copy>(
    rt: &R,
    alloc: Global,
    entity: &Entity<N, R>,
    gate: &Watch<R>,
) -> Noted {
    gate.waits_for(1);
    gate.arrive();
    note(rt, alloc, entity, Act::Eof(1, 5))
}

// The EOF comes to the lane after the Metadata, so the deposit follows from the EOF.
#[test]
fn lanes_run_apart(rt: HostRuntime) -> Result<(), Fail> {
    let text = play(rt, 8, Run::Apart)?;
    assert_eq!(rt; text.as_str(), SAID);
    Ok(())
}

const SAID: &str = "points 1
step 4 0 0
points 100
step 5 0 0
points 1
step 5 1 0
step 5 0 1000
points and held 1 1
";
