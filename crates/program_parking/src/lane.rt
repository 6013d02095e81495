ghost use Rattle.std.specs.Prelude.{◌≡◌, ◌≤◌, ◌<◌, ◌+◌, ◌-◌, [], false, true, not, length, take, drop, IfOk, OnOk, OnErr};
ghost use Rattle.std.specs.List.{filter, list_any, position, position_or_len};
ghost use Rattle.program_parking.specs.Lanes.{behind, cost, costs, fitting, halved, inserted, is_above, is_behind, is_crowded, is_none_of, is_of_other, is_one, lendable, lending, oldest, parked_in, settled, shortened, transactions, within, without_number};

use crate::counted::Counted;
use crate::outcome::Outcome;
use crate::parked::{Lent, Parked, cost_of};
use std::alloc::{AllocError, Global};
use std::collections::VecDeque;
use std::marker::Model;

/// How many datagrams may wait for one lane.
pub const MOST_DATAGRAMS: usize = 16_384;

/// The datagrams that wait for one lane, in the order in which they are handed in.
#[derive(Drop)]
pub struct LaneParking {
    waiting: VecDeque<Parked>,
    octets: u64,
    is_lent: bool,
    floor: u64,
}

impl Model for LaneParking {
    ghost use Rattle.std.specs.Prelude.{◌≡◌};
    ghost use Rattle.program_parking.specs.Lanes.{LaneValue, costs};

    ghost Value = { LaneValue };

    ghost view = { λ l. record { waiting = l.waiting.items; is_lent = l.is_lent; floor = l.floor } };

    ghost invariant = { λ l. l.octets ≡ costs l.waiting.items };
}

impl LaneParking {
    /// No datagram waits, and none was handed in.
    pub fn new(alloc: Global) -> LaneParking
        ensures { result ≡ record { waiting = []; is_lent = false; floor = 0 } }
    {
        LaneParking {
            waiting: VecDeque::new(alloc),
            octets: 0,
            is_lent: false,
            floor: 0,
        }
    }

    /// How many datagrams wait.
    pub fn len(&self) -> usize
        ensures { result ≡ length self.now.waiting }
    {
        self.waiting.len()
    }

    /// How many octets of the room they take up.
    pub fn octets(&self) -> u64
        ensures { result ≡ costs self.now.waiting }
    {
        self.octets
    }

    /// The greatest transaction number of which the lane took a datagram, or 0.
    pub fn floor(&self) -> u64
        ensures { result ≡ self.now.floor }
    {
        self.floor
    }

    /// Whether one of them is being handed in.
    pub fn is_lent(&self) -> bool
        ensures { result ≡ self.now.is_lent }
    {
        self.is_lent
    }

    /// Parks a datagram, and then drops the last ones that don't fit into `limit` octets or exceed `MOST_DATAGRAMS`.
    pub fn park(&mut self, one: Parked, limit: u64) -> Result<(), AllocError>
        requires { costs self.old.waiting ≤ limit }
        ensures ok { OnOk result (self.new ≡ parked_in limit one self.old) }
        ensures err { OnErr result (self.new ≡ self.old) }
    {
        self.octets = park_in(&mut self.waiting, self.octets, one, limit)?;
        Ok(())
    }

    /// Lends the first datagram to be handed in, unless one is lent already. The error says that memory ran out.
    pub fn lend(&mut self) -> Result<Option<Lent>, AllocError>
        ensures lent { IfOk result (λ lent. lent ≡ lendable self.old) }
        ensures ok { OnOk result (self.new ≡ lending self.old) }
        ensures err { OnErr result (self.new ≡ self.old) }
    {
        if self.is_lent {
            return Ok(None);
        }
        let Some(front) = self.waiting.front() else {
            return Ok(None);
        };
        let lent = Lent {
            number: front.number,
            arrival: front.arrival,
            octets: front.octets.copy()?,
        };
        self.is_lent = true;
        Ok(Some(lent))
    }

    /// Settles the datagram that was lent. If it was taken, it goes, with those before it; if it was refused for good,
    /// it goes alone; else it stays where it is.
    #[tactic(auto, using(crate::proofs::PlaceFacts::costs_drop_less, crate::proofs::PlaceFacts::costs_filter, crate::proofs::PlaceFacts::fitting_all))]
    pub fn settle(&mut self, number: u64, arrival: u64, outcome: Outcome)
        ensures after { self.new ≡ settled outcome number arrival self.old }
        ensures room { costs self.new.waiting ≤ costs self.old.waiting }
    {
        self.is_lent = false;
        match outcome {
            Outcome::Taken => {
                self.floor = self.floor.max(number);
                let count = behind_place(&self.waiting, number, arrival);
                self.octets = drop_front(&mut self.waiting, self.octets, count);
            }
            Outcome::Refused => {
                take_out(&mut self.waiting, number, arrival);
                self.octets = fit(&self.waiting, self.octets).1;
            }
            Outcome::Waits => {}
        }
    }

    /// Drops what waits of the transaction with this number.
    #[tactic(auto, using(crate::proofs::PlaceFacts::costs_filter, crate::proofs::PlaceFacts::fitting_all))]
    pub fn forget(&mut self, number: u64)
        ensures after { self.new ≡ without_number number self.old }
        ensures room { costs self.new.waiting ≤ costs self.old.waiting }
    {
        keep_others(&mut self.waiting, number);
        self.octets = fit(&self.waiting, self.octets).1;
    }

    /// Drops the last datagrams, those of the highest numbers, until the others take up half as much at most.
    #[tactic(auto, using(crate::proofs::PlaceFacts::fitting_room))]
    pub fn give_way(&mut self)
        ensures after { self.new ≡ halved self.old }
        ensures room { costs self.new.waiting ≤ costs self.old.waiting }
    {
        let limit = self.octets / 2;
        self.octets = shorten(&mut self.waiting, limit);
    }

    /// Drops the last datagrams, those of the highest numbers, until the others take up so many octets at most.
    #[tactic(auto, using(crate::proofs::PlaceFacts::fitting_less))]
    pub fn shorten(&mut self, limit: u64)
        ensures after { self.new ≡ shortened limit self.old }
        ensures room { costs self.new.waiting ≤ costs self.old.waiting }
    {
        self.octets = shorten(&mut self.waiting, limit);
    }

    /// Whether the datagram with this number and arrival waits.
    pub fn has(&self, number: u64, arrival: u64) -> bool
        ensures { result ≡ list_any (is_one number arrival) self.now.waiting }
    {
        self.waiting
            .iter()
            .any(|one| one.number == number && one.arrival == arrival)
    }

    /// Whether the first datagram that waits has a number that isn't above this one.
    pub fn is_crowded(&self, number: u64) -> bool
        ensures { result ≡ is_crowded number self.now.waiting }
    {
        match self.waiting.front() {
            Some(front) => front.number <= number,
            None => false,
        }
    }

    /// How many transactions wait.
    pub fn transactions(&self) -> u64
        ensures { result ≡ transactions self.now.waiting }
    {
        self.waiting
            .iter()
            .fold(Counted::default(), |before, one| before.with(one.number))
            .count
    }

    /// Since when the oldest datagram waits, in milliseconds since 1970, or the greatest number if none does.
    pub fn oldest(&self) -> u64
        ensures { result ≡ oldest self.now.waiting }
    {
        self.waiting
            .iter()
            .fold(u64::MAX, |oldest, one| oldest.min(one.since))
    }
}

// Parks a datagram, and returns how many octets of the room those that wait take up then.
fn park_in(
    waiting: &mut VecDeque<Parked>,
    octets: u64,
    one: Parked,
    limit: u64,
) -> Result<u64, AllocError>
    requires octets { octets ≡ costs waiting.old.items }
    requires room { octets ≤ limit }
    ensures octets { IfOk result (λ now. now ≡ costs waiting.new.items) }
    ensures within { OnOk result (waiting.new.items ≡ within limit (inserted one waiting.old.items)) }
    ensures err { OnErr result (waiting.new.items ≡ waiting.old.items) }
{
    let cost = cost_of(&one);
    if has_room(waiting.len(), octets, cost, limit) {
        insert_fitting(waiting, one, limit)?;
        Ok(octets + cost)
    } else {
        insert(waiting, one)?;
        Ok(cut(waiting, limit))
    }
}

// Whether one more datagram has room beside those that wait.
fn has_room(count: usize, octets: u64, cost: u64, limit: u64) -> bool
    requires { octets ≤ limit }
    ensures octets { result ≡ true → octets + cost ≤ limit }
    ensures count { result ≡ true → count < 16384 }
{
    count < MOST_DATAGRAMS && cost <= limit - octets
}

// Inserts a datagram that has room.
#[tactic(auto, using(crate::proofs::PlaceFacts::within_all, crate::proofs::PlaceFacts::costs_inserted))]
fn insert_fitting(waiting: &mut VecDeque<Parked>, one: Parked, limit: u64) -> Result<(), AllocError>
    requires octets { costs waiting.old.items + cost one ≤ limit }
    requires count { length waiting.old.items < 16384 }
    ensures within { OnOk result (waiting.new.items ≡ within limit (inserted one waiting.old.items)) }
    ensures octets { OnOk result (costs waiting.new.items ≡ costs waiting.old.items + cost one) }
    ensures err { OnErr result (waiting.new.items ≡ waiting.old.items) }
{
    insert(waiting, one)?;
    Ok(())
}

// Inserts a datagram in the order of the numbers.
#[tactic(auto, using(crate::proofs::PlaceFacts::place_within))]
fn insert(waiting: &mut VecDeque<Parked>, one: Parked) -> Result<(), AllocError>
    ensures ok { OnOk result (waiting.new.items ≡ inserted one waiting.old.items) }
    ensures err { OnErr result (waiting.new.items ≡ waiting.old.items) }
{
    let place = entry_place(waiting, one.number);
    match waiting.insert(place, one) {
        Ok(()) => Ok(()),
        Err(_) => Err(AllocError),
    }
}

// The place at which a datagram with a number is inserted.
#[tactic(auto, using(crate::proofs::PlaceFacts::first_place, crate::proofs::PlaceFacts::no_place))]
fn entry_place(waiting: &VecDeque<Parked>, number: u64) -> usize
    ensures { result ≡ position_or_len (is_above number) waiting.now.items }
{
    match first_above(waiting, number) {
        Some(place) => place,
        None => waiting.len(),
    }
}

// The place of the first datagram with a greater number.
fn first_above(waiting: &VecDeque<Parked>, number: u64) -> Option<usize>
    ensures { result ≡ position (is_above number) waiting.now.items }
{
    waiting.iter().position(|one| number < one.number)
}

// The place of the first datagram that comes after the one with this number and arrival, or the end.
#[tactic(auto, using(crate::proofs::PlaceFacts::first_place, crate::proofs::PlaceFacts::no_place))]
fn behind_place(waiting: &VecDeque<Parked>, number: u64, arrival: u64) -> usize
    ensures { result ≡ position_or_len (is_behind number arrival) waiting.now.items }
{
    match first_behind(waiting, number, arrival) {
        Some(place) => place,
        None => waiting.len(),
    }
}

// The place of the first such datagram, if there is one.
fn first_behind(waiting: &VecDeque<Parked>, number: u64, arrival: u64) -> Option<usize>
    ensures { result ≡ position (is_behind number arrival) waiting.now.items }
{
    waiting.iter().position(|one| number < one.number
        || (one.number == number && arrival < one.arrival))
}

// Keeps the datagrams of other transactions.
fn keep_others(waiting: &mut VecDeque<Parked>, number: u64)
    ensures { waiting.new.items ≡ filter (is_of_other number) waiting.old.items }
{
    waiting.retain(
        |one: &Parked| -> bool
            ensures { result ≡ is_of_other number one.now }
        { one.number != number },
    );
}

// Takes out the datagram with this number and arrival.
fn take_out(waiting: &mut VecDeque<Parked>, number: u64, arrival: u64)
    ensures { waiting.new.items ≡ filter (is_none_of number arrival) waiting.old.items }
{
    waiting.retain(
        |one: &Parked| -> bool
            ensures { result ≡ is_none_of number arrival one.now }
        { !(one.number == number && one.arrival == arrival) },
    );
}

// How many of the first datagrams fit into some octets, and how many octets those take up.
fn fit(waiting: &VecDeque<Parked>, limit: u64) -> (usize, u64)
    ensures count { result.0 ≡ length (fitting limit waiting.now.items) }
    ensures octets { result.1 ≡ costs (fitting limit waiting.now.items) }
{
    let mut left = limit;
    for place in 0..waiting.len() {
        if let Some(one) = waiting.get(place) {
            let cost = cost_of(one);
            if cost > left {
                return (place, limit - left);
            }
            left -= cost;
        }
    }
    (waiting.len(), limit - left)
}

// Takes out so many of the first datagrams, and returns how many octets the others take up.
fn drop_front(waiting: &mut VecDeque<Parked>, octets: u64, count: usize) -> u64
    requires { octets ≡ costs waiting.old.items }
    ensures rest { waiting.new.items ≡ drop count waiting.old.items }
    ensures octets { result ≡ costs waiting.new.items }
{
    let mut octets = octets;
    for _place in 0..count {
        if let Some(one) = waiting.pop_front() {
            octets -= cost_of(&one);
        }
    }
    octets
}

// Drops the last datagrams that don't fit into some octets or exceed `MOST_DATAGRAMS`, and returns how many octets the
// others take up.
fn cut(waiting: &mut VecDeque<Parked>, limit: u64) -> u64
    ensures within { waiting.new.items ≡ within limit waiting.old.items }
    ensures octets { result ≡ costs waiting.new.items }
{
    waiting.truncate(MOST_DATAGRAMS);
    shorten(waiting, limit)
}

// Drops the last datagrams that don't fit into some octets, and returns how many octets the others take up.
#[tactic(auto, using(crate::proofs::PlaceFacts::fitting_is_front))]
fn shorten(waiting: &mut VecDeque<Parked>, limit: u64) -> u64
    ensures fitting { waiting.new.items ≡ fitting limit waiting.old.items }
    ensures octets { result ≡ costs waiting.new.items }
{
    let (count, octets) = fit(waiting, limit);
    waiting.truncate(count);
    octets
}
