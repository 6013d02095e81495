//! Workers, each in its own thread, which bring datagrams to the lanes of an entity.
ghost use Rattle.std.specs.Prelude.{◌≡◌, All, IfOk, Ok, vec_len};
ghost use Rattle.pdu_reading.specs.Reading.{reading};
ghost use Rattle.pdu_values.specs.Spelling.{written};
ghost use Rattle.entity_workers.specs.Carrying.{AcceptsAnswers};

use crate::carrier::Carrier;
use crate::fault::WorkersFault;
use crate::intake::IntakeEnd;
use crate::source::Source;
use pdu_codec::Pdu;
use pdu_codec::laws::round_trip;
use shared_entity::Entity;
use shared_lanes::{Gate, Names, Point};
use std::alloc::Global;
use std::sync::Wait;
use std::thread;
use std::thread::Threads;

/// Runs a worker for each carrier, which brings datagrams from an intake to their lanes ([`run_workers_from`]).
pub fn run_workers<
    N: Names + Send + Sync,
    R: Threads + Wait + Copy + Send + Sync,
    G: Gate<N, R> + Sync,
    C: Carrier<G::Answer> + Send + Drop,
>(
    rt: &R,
    alloc: Global,
    entity: &Entity<N, R>,
    intake: &IntakeEnd,
    carriers: Vec<C>,
    gate: &G,
) -> Result<Vec<C>, WorkersFault>
    requires { All (λ carrier. AcceptsAnswers N.queue (G.gives gate.now) entity.now (C.accepts carrier)) carriers.items }
    ensures { IfOk result (λ back. vec_len back ≡ vec_len carriers) }
{
    run_workers_from(rt, alloc, entity, intake, carriers, gate)
}

/// Runs a worker for each carrier, which brings datagrams from a source to their lanes until no more can come. Returns
/// the carriers in their order. All memory is allocated before the first thread starts. If a thread can't be started,
/// the workers before it still run to their end.
pub fn run_workers_from<
    N: Names + Send + Sync,
    R: Threads + Wait + Copy + Send + Sync,
    G: Gate<N, R> + Sync,
    C: Carrier<G::Answer> + Send + Drop,
    S: Source<R, G::Answer, C> + Sync,
>(
    rt: &R,
    alloc: Global,
    entity: &Entity<N, R>,
    source: &S,
    carriers: Vec<C>,
    gate: &G,
) -> Result<Vec<C>, WorkersFault>
    requires { All (λ carrier. AcceptsAnswers N.queue (G.gives gate.now) entity.now (C.accepts carrier)) carriers.items }
    ensures { IfOk result (λ back. vec_len back ≡ vec_len carriers) }
{
    thread::scope(
        thread::scope_env(),
        rt,
        move |scope| -> Result<Vec<C>, WorkersFault>
            requires { All (λ carrier. AcceptsAnswers N.queue (G.gives gate.now) entity.now (C.accepts carrier)) carriers.items }
            ensures { IfOk result (λ back. vec_len back ≡ vec_len carriers) }
        {
            let count = carriers.len();
            let Ok(mut threads) = Vec::with_capacity(alloc, count) else {
                return Err(WorkersFault::NoMemory);
            };
            let Ok(mut back) = Vec::with_capacity(alloc, count) else {
                return Err(WorkersFault::NoMemory);
            };
            let mut carriers = carriers;
            while let Some(carrier) = carriers.pop() {
                let started = scope.spawn(
                    move || -> C
                        requires { AcceptsAnswers N.queue (G.gives gate.now) entity.now (C.accepts carrier) }
                    { work(rt, entity, source, gate, carrier) },
                );
                let Ok(thread) = started else {
                    break;
                };
                threads.push_reserved(thread);
            }
            while let Some(thread) = threads.pop() {
                back.push_reserved(thread.join(rt));
            }
            if back.len() < count {
                return Err(WorkersFault::Start);
            }
            Ok(back)
        },
    )
}

// Returns the PDU itself; the contract adds that some octets are read as it.
fn spelled(pdu: Pdu) -> Pdu
    ensures same { result ≡ pdu }
    ensures read { reading (written pdu) ≡ Ok pdu }
{
    let _fitting = pdu.parts();
    round_trip();
    pdu
}

// Brings datagrams to their lanes until no more can come, and returns the carrier.
fn work<N: Names, R: Wait + Copy, G: Gate<N, R>, C: Carrier<G::Answer>, S: Source<R, G::Answer, C>>(
    rt: &R,
    entity: &Entity<N, R>,
    source: &S,
    gate: &G,
    mut carrier: C,
) -> C
    requires { AcceptsAnswers N.queue (G.gives gate.now) entity.now (C.accepts carrier) }
{
    for _ in rt.forever() {
        let Some(pdu) = source.next(rt, &mut carrier) else {
            break;
        };
        gate.at(Point::Taken);
        carrier.carry(entity.deliver_pdu(rt, gate, spelled(pdu)));
    }
    carrier
}
