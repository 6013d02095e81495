//! Plays offers and takes with both kinds of queue, and compares them with a plain list.
ghost use Rattle.std.specs.Prelude.{◌≡◌, ◌<◌, ◌+◌, ◌++◌, ◌∷◌, [], List, IsTrue, not, OnOk};
ghost use Rattle.indications.specs.LaneLists.{IsLaneList};
ghost use Rattle.indications.specs.declared.bundle.Bundle.{Bundle as BundleValue};
ghost use Rattle.queue_rule.specs.Views.{with_sent};
ghost use Rattle.queue_tests.specs.Senders.{SendsOver, BothSend, HoldsOver};
ghost use Rattle.user_queues.specs.Queue.{EndsInHeld, with_last};

use crate::bundles::{are_alike, bundle_of};
use crate::shared::{TwoEnds, ends_of_two};
use indications::{Bundle, Outlet};
use std::alloc::{AllocError, Global};
use std::collections::VecDeque;
use std::sync::Wait;
use std::test::*;
use user_queues::{LaneOutlet, ListQueue};

// How many turns there are.
const COUNT: u64 = 10_000;

// One turn with a queue.
#[derive(Clone, Copy)]
enum Turn {
    FirstOffers,
    SecondOffers,
    Take,
}

// The result of a turn.
#[derive(Drop)]
enum Told {
    Offered { is_taken: bool },
    Taken(Option<Bundle>),
}

// Turns from a fixed pseudo-random sequence: half of them are takes.
#[derive(Drop)]
struct Draws {
    state: u32,
}

impl Draws {
    fn next(&mut self) -> Turn {
        self.state = self
            .state
            .wrapping_mul(1_664_525)
            .wrapping_add(1_013_904_223);
        match self.state >> 30 {
            0 => Turn::FirstOffers,
            1 => Turn::SecondOffers,
            _ => Turn::Take,
        }
    }
}

fn new_draws() -> Draws {
    Draws { state: 1 }
}

// Whether two lists have the same results, bundle by bundle.
fn are_same(told: &[Told], expected: &[Told]) -> bool {
    told.len() == expected.len()
        && told
            .iter()
            .zip(expected)
            .all(|(one, other)| is_same(one, other))
}

fn is_same(told: &Told, expected: &Told) -> bool {
    match (told, expected) {
        (Told::Offered { is_taken }, Told::Offered { is_taken: expected }) => is_taken == expected,
        (Told::Taken(None), Told::Taken(None)) => true,
        (Told::Taken(Some(bundle)), Told::Taken(Some(expected))) => are_alike(bundle, expected),
        _ => false,
    }
}

// One turn with a plain list that has room for `capacity` bundles.
fn modelled_turn(
    alloc: Global,
    held: &mut VecDeque<Bundle>,
    capacity: usize,
    turn: Turn,
    number: u64,
) -> Result<Told, AllocError> {
    let lane = match turn {
        Turn::FirstOffers => 0,
        Turn::SecondOffers => 1,
        Turn::Take => return Ok(Told::Taken(held.pop_front())),
    };
    let is_taken = held.len() < capacity;
    if is_taken {
        held.push_back(bundle_of(alloc, lane, number)?)?;
    }
    Ok(Told::Offered { is_taken })
}

fn modelled(alloc: Global, capacity: usize) -> Result<Vec<Told>, AllocError> {
    let mut draws = new_draws();
    let mut held = VecDeque::new(alloc);
    let mut told = Vec::new(alloc);
    for number in 0..COUNT {
        told.push(modelled_turn(alloc, &mut held, capacity, draws.next(), number + 1)?)?;
    }
    Ok(told)
}

// Whether a one-thread queue took a bundle of a lane.
fn put(queue: &mut ListQueue, lane: usize, bundle: Bundle) -> bool
    requires lanes { lane < queue.old.lanes }
    requires of_user { bundle.user ≡ queue.old.user }
    requires of_lane { bundle.lane ≡ lane }
    requires goes_on { (bundles : List BundleValue) × EndsInHeld queue.old lane bundles
        × IsLaneList bundle.user bundle.lane bundle.key.source (bundles ++ bundle ∷ []) }
    ensures taken { IsTrue result → queue.new ≡ with_last queue.old bundle }
    ensures back { IsTrue (not result) → queue.new ≡ queue.old }
{
    queue.outlet(lane).offer(bundle).is_ok()
}

// Puts the bundle with the next number into a one-thread queue.
fn put_next(
    alloc: Global,
    queue: &mut ListQueue,
    lane: usize,
    number: u64,
) -> Result<Told, AllocError>
    requires lane { lane < 2 }
    requires number { number < COUNT }
    requires holds { HoldsOver queue.old number }
    ensures { OnOk result (HoldsOver queue.new (number + 1)) }
{
    let bundle = bundle_of(alloc, lane, number + 1)?;
    let is_taken = put(queue, lane, bundle);
    Ok(Told::Offered { is_taken })
}

fn listed_turn(
    alloc: Global,
    queue: &mut ListQueue,
    turn: Turn,
    number: u64,
) -> Result<Told, AllocError>
    requires number { number < COUNT }
    requires holds { HoldsOver queue.old number }
    ensures { OnOk result (HoldsOver queue.new (number + 1)) }
{
    match turn {
        Turn::FirstOffers => put_next(alloc, queue, 0, number),
        Turn::SecondOffers => put_next(alloc, queue, 1, number),
        Turn::Take => Ok(Told::Taken(queue.take())),
    }
}

fn listed(alloc: Global, capacity: usize) -> Result<Vec<Told>, AllocError> {
    let mut draws = new_draws();
    let mut queue = ListQueue::new(alloc, 0, 2, capacity)?;
    let mut told = Vec::new(alloc);
    for number in 0..COUNT {
        told.push(listed_turn(alloc, &mut queue, draws.next(), number)?)?;
    }
    Ok(told)
}

// Whether a shared queue took a bundle of a lane.
fn offer<R: Wait + Copy>(outlet: &mut LaneOutlet<R>, bundle: Bundle) -> bool
    requires of_user { bundle.user ≡ outlet.old.knows.user }
    requires of_lane { bundle.lane ≡ outlet.old.knows.lane }
    requires goes_on { IsLaneList bundle.user bundle.lane bundle.key.source (outlet.old.knows.sent ++ bundle ∷ []) }
    ensures taken { IsTrue result → outlet.new.knows ≡ with_sent outlet.old.knows bundle }
    ensures back { IsTrue (not result) → outlet.new.knows ≡ outlet.old.knows }
{
    outlet.offer(bundle).is_ok()
}

// Offers the bundle with the next number to a shared queue.
fn offer_next<R: Wait + Copy>(
    alloc: Global,
    outlet: &mut LaneOutlet<R>,
    lane: usize,
    number: u64,
) -> Result<Told, AllocError>
    requires number { number < COUNT }
    requires sends { SendsOver outlet.old lane number }
    ensures { OnOk result (SendsOver outlet.new lane (number + 1)) }
{
    let bundle = bundle_of(alloc, lane, number + 1)?;
    let is_taken = offer(outlet, bundle);
    Ok(Told::Offered { is_taken })
}

fn shared_turn<R: Wait + Copy>(
    rt: &R,
    alloc: Global,
    ends: &mut TwoEnds<R>,
    turn: Turn,
    number: u64,
) -> Result<Told, AllocError>
    requires number { number < COUNT }
    requires send { BothSend ends.old.first ends.old.second number }
    ensures { OnOk result (BothSend ends.new.first ends.new.second (number + 1)) }
{
    match turn {
        Turn::FirstOffers => offer_next(alloc, &mut ends.first, 0, number),
        Turn::SecondOffers => offer_next(alloc, &mut ends.second, 1, number),
        Turn::Take => Ok(Told::Taken(ends.port.take(rt))),
    }
}

fn shared<R: Wait + Copy>(
    rt: &R,
    alloc: Global,
    ends: &mut TwoEnds<R>,
) -> Result<Vec<Told>, AllocError>
    requires { BothSend ends.old.first ends.old.second 0 }
{
    let mut draws = new_draws();
    let mut told = Vec::new(alloc);
    for number in 0..COUNT {
        told.push(shared_turn(rt, alloc, ends, draws.next(), number)?)?;
    }
    Ok(told)
}

// Whether a one-thread queue gave these results.
fn is_listed(alloc: Global, capacity: usize, expected: &[Told]) -> Result<bool, AllocError> {
    Ok(are_same(listed(alloc, capacity)?.as_slice(), expected))
}

// Whether a shared queue gave these results.
fn is_shared<R: Wait + Copy>(
    rt: R,
    alloc: Global,
    capacity: usize,
    expected: &[Told],
) -> Result<bool, AllocError>
    requires { 0 < capacity }
{
    match ends_of_two(rt, alloc, capacity)? {
        None => Ok(false),
        Some(mut ends) => Ok(are_same(shared(&rt, alloc, &mut ends)?.as_slice(), expected)),
    }
}

fn count_of(told: &[Told], one: &Told) -> usize {
    told.iter().filter(|other| is_same(other, one)).count()
}

// Whether the queue was often full and often empty.
fn is_varied(told: &[Told]) -> bool {
    count_of(told, &Told::Offered { is_taken: false }) > 100
        && count_of(told, &Told::Taken(None)) > 100
}

#[test]
fn same_answers(rt: HostRuntime) -> Result<(), Fail> {
    for capacity in 1..5 {
        let expected = modelled(rt.alloc(), capacity)?;
        assert!(rt; is_varied(expected.as_slice()), "{capacity}");
        assert!(rt;
            is_listed(rt.alloc(), capacity, expected.as_slice())?,
            "one thread, {capacity}"
        );
        assert!(rt;
            is_shared(rt, rt.alloc(), capacity, expected.as_slice())?,
            "threads, {capacity}"
        );
    }
    Ok(())
}
