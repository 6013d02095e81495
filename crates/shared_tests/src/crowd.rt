//! Eight threads work on all lanes of two users, while both users take.

use crate::acts::{Act, LOCAL, tell_in_time};
use crate::heard::Heard;
use crate::runs::{Run, play};
use crate::said::push_line;
use crate::watch::{TURNS, Watch, pause};
use entity_routing::Place;
use shared_entity::Entity;
use shared_lanes::Names;
use std::alloc::{AllocError, Global};
use std::sync::Wait;
use std::sync::atomic::{AtomicUsize, Ordering};
use std::test::*;
use std::thread;
use std::thread::Threads;
use user_queues::UserPort;

// What each thread does. Four deliver, each to the even or the odd lane of a source; two report that the files of a
// source are stored; one puts from all sending lanes, and one pumps. Each lane runs two transactions.
const WORK: [&[Act]; 8] = [
    &[
        Act::Metadata(1, 5),
        Act::Eof(1, 5),
        Act::Metadata(1, 7),
        Act::Eof(1, 7),
    ],
    &[
        Act::Metadata(1, 6),
        Act::Eof(1, 6),
        Act::Metadata(1, 8),
        Act::Eof(1, 8),
    ],
    &[
        Act::Metadata(3, 5),
        Act::Eof(3, 5),
        Act::Metadata(3, 7),
        Act::Eof(3, 7),
    ],
    &[
        Act::Metadata(3, 6),
        Act::Eof(3, 6),
        Act::Metadata(3, 8),
        Act::Eof(3, 8),
    ],
    &[
        Act::Stored(1, 5, 1),
        Act::Stored(1, 6, 1),
        Act::Stored(1, 7, 1),
        Act::Stored(1, 8, 1),
    ],
    &[
        Act::Stored(3, 6, 1),
        Act::Stored(3, 5, 1),
        Act::Stored(3, 8, 1),
        Act::Stored(3, 7, 1),
    ],
    &[
        Act::Put(Place { user: 0, lane: 0 }, 1),
        Act::Put(Place { user: 1, lane: 0 }, 1),
        Act::Put(Place { user: 0, lane: 1 }, 1),
        Act::Put(Place { user: 1, lane: 1 }, 1),
        Act::Put(Place { user: 0, lane: 0 }, 1),
        Act::Put(Place { user: 1, lane: 0 }, 1),
        Act::Put(Place { user: 0, lane: 1 }, 1),
        Act::Put(Place { user: 1, lane: 1 }, 1),
    ],
    &[
        Act::Pump(LOCAL, 4),
        Act::Pump(LOCAL, 4),
        Act::Pump(LOCAL, 4),
        Act::Pump(LOCAL, 5),
        Act::Pump(LOCAL, 5),
        Act::Pump(LOCAL, 5),
        Act::Pump(LOCAL, 6),
        Act::Pump(LOCAL, 6),
        Act::Pump(LOCAL, 6),
        Act::Pump(LOCAL, 7),
        Act::Pump(LOCAL, 7),
        Act::Pump(LOCAL, 7),
        Act::Pump(LOCAL, 8),
        Act::Pump(LOCAL, 8),
        Act::Pump(LOCAL, 8),
        Act::Pump(LOCAL, 9),
        Act::Pump(LOCAL, 9),
        Act::Pump(LOCAL, 9),
        Act::Pump(LOCAL, 10),
        Act::Pump(LOCAL, 10),
        Act::Pump(LOCAL, 10),
        Act::Pump(LOCAL, 11),
        Act::Pump(LOCAL, 11),
        Act::Pump(LOCAL, 11),
    ],
];

// The job of a thread.
#[derive(Drop)]
enum Job {
    Work(&'static [Act]),
    Take(UserPort),
}

// The outcome of a job: whether all events were accepted, or what a user took.
#[derive(Clone, Copy)]
enum Came {
    Worked(bool),
    Took(Heard),
}

fn jobs(alloc: Global, ports: Vec<UserPort>) -> Result<Vec<Job>, AllocError> {
    let mut jobs = Vec::new(alloc);
    for acts in WORK {
        jobs.push(Job::Work(acts))?;
    }
    for port in ports {
        jobs.push(Job::Take(port))?;
    }
    Ok(jobs)
}

// Passes events to their lanes, each once the one before was accepted.
fn work<N: Names, R: Wait + Copy>(
    rt: &R,
    alloc: Global,
    entity: &Entity<N, R>,
    gate: &Watch<R>,
    acts: &[Act],
) -> bool {
    for act in acts {
        if !tell_in_time(rt, alloc, entity, gate, *act) {
            return false;
        }
    }
    true
}

// Takes all bundles until all threads have worked and the queue is empty.
fn take_all<R: Wait>(rt: &R, worked: &AtomicUsize, port: UserPort) -> Heard {
    let mut port = port;
    let mut heard = Heard::new(port.user());
    for _ in 0..TURNS {
        let is_over = worked.load(Ordering::SeqCst) == WORK.len();
        if !heard.take(rt, &mut port) {
            if is_over {
                break;
            }
            pause(rt);
        }
    }
    heard
}

fn run<N: Names, R: Wait + Copy>(
    rt: &R,
    alloc: Global,
    entity: &Entity<N, R>,
    worked: &AtomicUsize,
    job: Job,
) -> Came {
    match job {
        Job::Work(acts) => {
            let well = work(rt, alloc, entity, &Watch::new(*rt), acts);
            worked.fetch_add(1, Ordering::SeqCst);
            Came::Worked(well)
        }
        Job::Take(port) => Came::Took(take_all(rt, worked, port)),
    }
}

/// Has the threads work while the users take. Adds whether each thread worked well, and what each user took.
pub(crate) fn crowd<N: Names + Send + Sync, R: Threads + Wait + Copy + Send + Sync>(
    rt: &R,
    alloc: Global,
    text: &mut String,
    entity: &Entity<N, R>,
    ports: Vec<UserPort>,
) -> Result<(), AllocError> {
    let worked = AtomicUsize::new(0);
    let all = thread::map_vec(
        rt,
        jobs(alloc, ports)?,
        &|job: Job| { run(rt, alloc, entity, &worked, job) },
    )?;
    for came in all {
        match came {
            Came::Worked(well) => push_line(text, "worked", &[u64::from(well)])?,
            Came::Took(heard) => heard.push(text)?,
        }
    }
    Ok(())
}

const ALL_WORKED: &str = "worked 1
worked 1
worked 1
worked 1
worked 1
worked 1
worked 1
worked 1
lanes 44043084083 64063104103 61062063081082083 51052053071072073
others 0
lanes 54053094093 74073114113 61062063081082083 51052053071072073
others 0
";

// With queues that have room, and with queues of one bundle.
#[test]
fn eight_threads(rt: HostRuntime) -> Result<(), Fail> {
    for capacity in [8, 1] {
        let text = play(rt, capacity, Run::Crowd)?;
        assert_eq!(rt; text.as_str(), ALL_WORKED);
    }
    Ok(())
}
