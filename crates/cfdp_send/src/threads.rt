//! The main thread of the program, which works in turns, beside the other threads.
use crate::ended::status_of;
use crate::outputs::Outputs;
use crate::refusing::RefusingStore;
use answer_texts::push_bundle;
use cfdp_types::{PutRequest, TxnKey};
use entity_routing::Request;
use program_arrivals::{Sources, Turns};
use program_common::Common;
use program_desk::{Desk, Step, Urgency, moment};
use program_numbers::HeldNumbers;
use program_start::ProgramFault;
use program_station::{REST_MS, Station};
use program_storing::{Depot, Storer, StorerTurn};
use program_tallies::Tallies;
use program_threads::{MainThread, WayIn, run_beside};
use program_udp::PduSender;
use shared_entity::{Entity, EntityRefusal};
use shared_lanes::{Names, NoGate};
use std::alloc::{AllocError, Global};
use std::io::Write;
use std::net::UdpSocket;
use std::rt::Files;
use std::sync::Wait;
use std::thread;
use std::thread::Threads;
use std::time::{Clock, Duration};
use user_queues::UserPort;

// How many steps may wait for the main thread.
const STEPS: usize = 1_024;

// How many milliseconds the main thread sleeps at most.
const LONGEST_SLEEP_MS: u64 = 60_000;

/// What is put, by which user, how fast its octets may be sent, and whose datagrams are taken.
#[derive(Drop)]
pub(crate) struct Wanted<R: Files + AllocGlobal + Drop> {
    pub(crate) user: usize,
    pub(crate) put: PutRequest,
    pub(crate) octets_a_second: Option<u64>,
    pub(crate) sources: Sources,
    /// The file of transaction numbers, if there is one.
    pub(crate) numbers: Option<HeldNumbers<R>>,
}

/// What a run puts, and where it prints.
#[derive(Drop)]
pub(crate) struct Run<R: Files + AllocGlobal + Drop, W: Drop, P: Drop> {
    pub(crate) wanted: Wanted<R>,
    pub(crate) outputs: Outputs<W, P>,
}

// What the main thread owns. It works with references to the parts.
#[derive(Drop)]
struct Putter<'a, N: Names, R: Files + AllocGlobal + Copy + Drop, W: Drop, P: Drop> {
    rt: &'a R,
    alloc: Global,
    desk: &'a Desk,
    steps: Vec<Step>,
    station: Station<'a, N, R>,
    storer: Storer<'a, N, R, RefusingStore>,
    numbers: Option<HeldNumbers<R>>,
    ports: Vec<UserPort>,
    user: usize,
    put: PutRequest,
    outputs: Outputs<W, P>,
}

// What the main thread works with, once the Put is made: what a function over it costs to prove grows with all that a
// value owns, so the parts are references.
#[derive(Drop)]
struct Working<'s, 'a, N: Names, R: Copy> {
    rt: &'a R,
    alloc: Global,
    desk: &'a Desk,
    /// The steps that have yet to be noted, the last one first.
    steps: &'s mut Vec<Step>,
    station: &'s mut Station<'a, N, R>,
    /// What refuses files that this entity receives.
    storer: &'s mut Storer<'a, N, R, RefusingStore>,
    ports: &'s mut Vec<UserPort>,
    user: usize,
    /// How many octets the file has.
    size: u64,
}

/// Puts a file with an open entity and its socket, and runs until the transaction has ended; returns the exit status.
pub(crate) fn put_over<
    N: Names + Send + Sync,
    R: Threads + Wait + Clock + Files + AllocGlobal + Copy + Drop + Send + Sync,
    W: Write + Drop,
    P: Write + Drop,
>(
    rt: &R,
    alloc: Global,
    entity: &Entity<N, R>,
    ports: Vec<UserPort>,
    socket: &UdpSocket,
    run: Run<R, W, P>,
) -> Result<u8, ProgramFault> {
    let desk = Desk::new(alloc, STEPS, 1)?;
    let tallies = Tallies::new(alloc, 1, entity.config().remotes())?;
    let depot = Depot::new(alloc, entity.config())?;
    let common = Common {
        rt,
        alloc,
        entity,
        socket,
        desk: &desk,
    };
    let turns = Turns::new(alloc, entity.config(), 1)?;
    let kept = (&depot, &tallies, &turns);
    put_at(&common, ports, kept, run)
}

// Puts a file with a desk whose memory is reserved; that of the threads is, too, before the first one starts. The
// worker has the main thread handle each step within a millisecond, because only that thread takes the user's
// indications.
fn put_at<
    'x,
    N: Names + Send + Sync,
    R: Threads + Wait + Clock + Files + AllocGlobal + Copy + Drop + Send + Sync,
    W: Write + Drop,
    P: Write + Drop,
>(
    common: &Common<'x, N, R>,
    ports: Vec<UserPort>,
    kept: (&'x Depot, &'x Tallies, &'x Turns),
    run: Run<R, W, P>,
) -> Result<u8, ProgramFault> {
    let sources = run.wanted.sources;
    let (depot, tallies, turns) = kept;
    let putter = putter_over(common, ports, (depot, tallies), run)?;
    let way_in = WayIn::new(common, (tallies, turns), Urgency::Soon, sources, None)?;
    run_beside(common, way_in, putter)
}

fn putter_over<'x, N: Names, R: Wait + Clock + Files + AllocGlobal + Copy + Drop, W: Drop, P: Drop>(
    common: &Common<'x, N, R>,
    ports: Vec<UserPort>,
    (depot, tallies): (&'x Depot, &'x Tallies),
    run: Run<R, W, P>,
) -> Result<Putter<'x, N, R, W, P>, AllocError> {
    let Common {
        rt,
        alloc,
        entity,
        socket,
        desk,
    } = *common;
    let sender = PduSender::new(alloc, socket, entity.config(), &tallies.own, &tallies.links)?;
    let steps = Vec::with_capacity(alloc, desk.step_room())?;
    let Run { wanted, outputs } = run;
    let Wanted {
        user,
        put,
        octets_a_second,
        numbers,
        ..
    } = wanted;
    let store = RefusingStore { refused: 0 };
    Ok(Putter {
        rt,
        alloc,
        desk,
        steps,
        station: Station::new(common, sender, depot, tallies, octets_a_second)?,
        storer: Storer::new(rt, alloc, entity, desk, depot, store),
        numbers,
        ports,
        user,
        put,
        outputs,
    })
}

impl<
    'a,
    N: Names,
    R: Wait + Clock + Files + AllocGlobal + Copy + Drop,
    W: Write + Drop,
    P: Write + Drop,
> MainThread for Putter<'a, N, R, W, P> {
    /// Makes the Put, and works until the transaction has ended.
    fn work(self) -> Result<u8, ProgramFault> {
        let Putter {
            rt,
            alloc,
            desk,
            mut steps,
            mut station,
            mut storer,
            mut numbers,
            mut ports,
            user,
            put,
            mut outputs,
        } = self;
        let mut work = Working {
            rt,
            alloc,
            desk,
            steps: &mut steps,
            station: &mut station,
            storer: &mut storer,
            ports: &mut ports,
            user,
            size: put.file().as_slice().len() as u64,
        };
        let ended = put_and_work(&mut work, &mut outputs, &mut numbers, put);
        outputs.end_line();
        if let Some(numbers) = &numbers {
            numbers.leave(rt);
        }
        ended
    }
}

fn put_and_work<
    N: Names,
    R: Wait + Clock + Files + AllocGlobal + Copy + Drop,
    W: Write + Drop,
    P: Write + Drop,
>(
    work: &mut Working<'_, '_, N, R>,
    outputs: &mut Outputs<W, P>,
    numbers: &mut Option<HeldNumbers<R>>,
    put: PutRequest,
) -> Result<u8, ProgramFault> {
    let key = begin(work, numbers, put)?;
    let mut text = String::new(work.alloc);
    for _ in work.rt.forever() {
        let has_settled = work.station.settle_left(work.desk, work.steps);
        if !work.station.is_settled() {
            thread::sleep(work.rt, Duration::from_millis(REST_MS));
            continue;
        }
        text.clear();
        let status = work.take_one(key, &mut text)?;
        outputs.tell(text.as_str())?;
        if let Some(status) = status {
            return Ok(status);
        }
        let now = moment(work.rt);
        let has_worked = work.turn(key, now);
        outputs.show(work.alloc, work.station.reach(), work.size);
        if !has_settled && text.is_empty() && !has_worked {
            let until = work.station.next_moment(now);
            let latest = now.saturating_add(LONGEST_SLEEP_MS);
            work.desk.wait(work.rt, now, until.min(latest));
        }
    }
    Ok(2)
}

// Passes the Put to the entity, once the file of numbers covers its number.
fn begin<N: Names, R: Wait + Clock + Files + AllocGlobal + Copy + Drop>(
    work: &mut Working<'_, '_, N, R>,
    numbers: &mut Option<HeldNumbers<R>>,
    put: PutRequest,
) -> Result<TxnKey, ProgramFault> {
    work.station.timetable.reserve()?;
    let destination = put.destination();
    let request = Request::Put(0, put);
    let entity = work.station.entity();
    if !entity.may_request(work.user, &request) {
        return Err(ProgramFault::Usage);
    }
    cover(numbers)?;
    match entity.request(work.rt, &NoGate, work.user, request) {
        Ok(Ok(done)) => {
            let key = done.key;
            work.station.timetable.begin(key, destination);
            work.station.settle_own(done);
            Ok(key)
        }
        Ok(Err(refused)) => Err(ProgramFault::Refused(refused.why)),
        Err(EntityRefusal::Lane(refused)) => Err(ProgramFault::Refused(refused.why)),
        Err(EntityRefusal::Route(why)) => Err(ProgramFault::NotRouted(why)),
        Err(EntityRefusal::WrongLane) => Err(ProgramFault::WrongLane),
    }
}

// Whether the file of numbers covers the Put's number, if there is such a file.
fn cover<R: Files + AllocGlobal + Drop>(
    numbers: &mut Option<HeldNumbers<R>>,
) -> Result<(), ProgramFault> {
    match numbers {
        Some(numbers) => numbers.cover(),
        None => Ok(()),
    }
}

impl<'s, 'a, N: Names, R: Wait + Clock + Copy> Working<'s, 'a, N, R> {
    // Goes on with timers and PDUs, and refuses files that this entity receives; returns whether there was any work.
    fn turn(&mut self, key: TxnKey, now: u64) -> bool {
        let has_worked = self.station.turn(now);
        self.abandon_full(key);
        let has_refused = self.refuse_files(now);
        has_worked || has_refused
    }

    // Abandons the Put's transaction if its journal is full, because it can't end by itself then. If memory or room in
    // the user's queue runs out, that is tried again.
    fn abandon_full(&mut self, key: TxnKey) {
        let Some(full) = self.station.take_full() else {
            return;
        };
        if full != key {
            return;
        }
        let entity = self.station.entity();
        let request = Request::Abandon(key);
        if !entity.may_request(self.user, &request) {
            return;
        }
        let is_passing = match entity.request(self.rt, &NoGate, self.user, request) {
            Ok(Ok(done)) => {
                self.station.settle_own(done);
                return;
            }
            Ok(Err(refused)) => EntityRefusal::Lane(refused).is_passing(),
            Err(refusal) => refusal.is_passing(),
        };
        if is_passing {
            self.station.give_back_full(key);
        }
    }

    // Refuses a file that this entity has received; returns whether there was one.
    fn refuse_files(&mut self, now: u64) -> bool {
        let turn = self.storer.turn(now);
        for _ in self.rt.forever() {
            if self.station.take_stored().is_none() {
                break;
            }
        }
        turn == StorerTurn::Worked
    }

    // Takes the bundle at the front of the user's queue, if there is one, and adds its lines; returns the exit status
    // if it ends the transaction.
    fn take_one(&mut self, key: TxnKey, text: &mut String) -> Result<Option<u8>, ProgramFault> {
        let config = self.station.entity().config();
        let name = config.name_of(self.user).unwrap_or("");
        for port in self.ports.iter_mut() {
            if port.user() == self.user {
                let Some(bundle) = port.take(self.rt) else {
                    return Ok(None);
                };
                push_bundle(self.alloc, text, name, &bundle)?;
                return Ok(status_of(&bundle, key));
            }
        }
        Ok(None)
    }
}
