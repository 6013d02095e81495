ghost use Rattle.std.specs.Prelude.{◌≡◌, ◌≤◌, ◌<◌, ◌+◌, ◌-◌, ◌/◌, All, length, min, set, slice_get, slice_index, IfOk, OnOk, OnErr, Some, false, []};
ghost use Rattle.std.specs.Option.{option_copied};
ghost use Rattle.program_parking.specs.Lanes.{LaneValue, costs, halved, lendable, lending, parked_in, settled, shortened, without_number};
ghost use Rattle.program_parking.specs.Parkings.{IsKept, giving, held, lendable_at, limit, parked, replaced, share_of, source_at, used};

use crate::lane::LaneParking;
use crate::outcome::Outcome;
use crate::parked::{Lent, OVERHEAD_OCTETS, Parked};
use crate::sharing::{Holder, Rules, giving_by, held_by, limit_of, source_of};
use cfdp_types::Octets;
use std::alloc::{AllocError, Global};
use std::marker::Model;

/// The datagrams that wait for all lanes, within one room. Lanes are named by their places, from 0.
#[derive(Drop)]
pub struct Parking {
    alloc: Global,
    lanes: Vec<LaneParking>,
    /// Each lane's source.
    sources: Vec<usize>,
    octets: u64,
    arrivals: u64,
    room: u64,
    share: u64,
    remotes: usize,
}

impl Model for Parking {
    ghost use Rattle.std.specs.Prelude.{◌≡◌, length};
    ghost use Rattle.program_parking.specs.Parkings.{IsKept, ParkingValue, used};

    ghost Value = { ParkingValue };

    ghost view = { λ p. record { lanes = p.lanes.items; sources = p.sources.items; arrivals = p.arrivals; room = p.room; share = p.share; remotes = p.remotes } };

    ghost invariant = { λ p. (p.octets ≡ used p.lanes.items) × IsKept p.room p.share p.sources.items p.lanes.items × (length p.sources.items ≡ length p.lanes.items) };
}

impl Parking {
    /// No datagram waits for any of the lanes, which have these sources: numbers below `remotes` for remote entities, and
    /// `remotes` for the entity itself. There is room for so many octets.
    pub fn new(
        alloc: Global,
        sources: Vec<usize>,
        remotes: usize,
        room: u64,
    ) -> Result<Parking, AllocError>
        ensures lanes { IfOk result (λ p. (length p.lanes ≡ length sources.items) × (p.sources ≡ sources.items)) }
        ensures share { IfOk result (λ p. (p.share ≡ share_of room remotes) × (p.remotes ≡ remotes)) }
        ensures empty { IfOk result (λ p. All (λ lane. lane ≡ record { waiting = []; is_lent = false; floor = 0 }) p.lanes) }
        ensures room { IfOk result (λ p. (p.room ≡ room) × (p.arrivals ≡ 0)) }
    {
        let share = (room / 4).max(room / remotes.max(1) as u64);
        let mut all = Vec::with_capacity(alloc, sources.len())?;
        for _place in 0..sources.len() {
            all.push(LaneParking::new(alloc))?;
        }
        Ok(Parking {
            alloc,
            lanes: all,
            sources,
            octets: 0,
            arrivals: 0,
            room,
            share,
            remotes,
        })
    }

    /// What waits for the lanes, by their places.
    pub fn lanes(&self) -> &[LaneParking]
        ensures { result.now ≡ self.now.lanes }
    {
        self.lanes.as_slice()
    }

    /// How many octets of the room are taken up.
    pub fn used(&self) -> u64
        ensures value { result ≡ used self.now.lanes }
        ensures room { result ≤ self.now.room }
    {
        self.octets
    }
}

impl Parking {
    /// Parks a datagram of a transaction, by its number, which came at `since`, in milliseconds since 1970. Parks
    /// nothing if the lane took a datagram with a greater number. If there is no room, drops the lane's last datagrams,
    /// those of the highest numbers.
    pub fn park(
        &mut self,
        place: usize,
        number: u64,
        since: u64,
        octets: &[u8],
    ) -> Result<(), AllocError>
        ensures ok { OnOk result (self.new ≡ parked place number since octets.now self.old) }
        ensures err { OnErr result (self.new ≡ self.old) }
    {
        let Some(lane) = self.lanes.get(place) else {
            return Ok(());
        };
        if number < lane.floor() || self.arrivals == u64::MAX {
            return Ok(());
        }
        let own = lane.octets();
        let others = self.octets - own;
        let source = source_of(&self.sources, place);
        let held = held_by(&self.lanes, &self.sources, source);
        let limit = limit_of(self.room, self.octets, self.share, held, own);
        let one = Parked {
            number,
            arrival: self.arrivals,
            since,
            octets: Octets::from_slice(self.alloc, octets)?,
        };
        let now = park_at(&mut self.lanes, place, one, limit)?;
        self.octets = others + now;
        self.arrivals += 1;
        Ok(())
    }

    /// Which lane gives way to a datagram of a transaction, by its number, with so many octets, before it is parked; and how
    /// many octets that lane keeps. `None` if there is room, or if the last ones of the datagram's own lane give way when it
    /// is parked.
    pub fn giving(&self, place: usize, number: u64, octets: usize) -> Option<Holder>
        ensures { result ≡ giving place number octets self.now }
    {
        let rules = Rules {
            room: self.room,
            share: self.share,
            remotes: self.remotes,
        };
        let cost = (octets as u64).saturating_add(OVERHEAD_OCTETS);
        let lanes = self.lanes.as_slice();
        giving_by(
            rules,
            lanes,
            self.sources.as_slice(),
            self.octets,
            place,
            number,
            cost,
        )
    }

    /// Drops a lane's last datagrams, those of the highest numbers, until the others take up so many octets at most.
    pub fn shorten(&mut self, holder: Holder)
        ensures { self.new ≡ replaced holder.place (shortened holder.octets) self.old }
    {
        if let Some(lane) = self.lanes.get(holder.place) {
            let others = self.octets - lane.octets();
            let now = shorten_at(&mut self.lanes, holder);
            self.octets = others + now;
        }
    }

    /// Lends the next datagram of a lane to be handed in, unless one is lent already. The error says that memory ran
    /// out.
    pub fn lend(&mut self, place: usize) -> Result<Option<Lent>, AllocError>
        ensures lent { IfOk result (λ lent. lent ≡ lendable_at (slice_get self.old.lanes place)) }
        ensures ok { OnOk result (self.new ≡ replaced place lending self.old) }
        ensures err { OnErr result (self.new ≡ self.old) }
    {
        if place >= self.lanes.len() {
            return Ok(None);
        }
        let lent = lend_at(&mut self.lanes, place)?;
        Ok(lent)
    }

    /// Settles the datagram that was lent, by its number and arrival. If it was taken, it goes, with those before it; if
    /// it was refused for good, it goes alone; else it stays where it is.
    pub fn settle(&mut self, place: usize, number: u64, arrival: u64, outcome: Outcome)
        ensures { self.new ≡ replaced place (settled outcome number arrival) self.old }
    {
        if let Some(lane) = self.lanes.get(place) {
            let others = self.octets - lane.octets();
            let now = settle_at(&mut self.lanes, place, number, arrival, outcome);
            self.octets = others + now;
        }
    }

    /// Drops what waits in a lane of the transaction with this number.
    pub fn forget(&mut self, place: usize, number: u64)
        ensures { self.new ≡ replaced place (without_number number) self.old }
    {
        if let Some(lane) = self.lanes.get(place) {
            let others = self.octets - lane.octets();
            let now = forget_at(&mut self.lanes, place, number);
            self.octets = others + now;
        }
    }

    /// Memory ran out: drops a lane's last datagrams, those of the highest numbers, until its others take up half as
    /// much at most.
    pub fn give_way(&mut self, place: usize)
        ensures { self.new ≡ replaced place halved self.old }
    {
        if let Some(lane) = self.lanes.get(place) {
            let others = self.octets - lane.octets();
            let now = give_way_at(&mut self.lanes, place);
            self.octets = others + now;
        }
    }
}

// Parks a datagram in the lane at a place; returns how much of the room the lane takes up then.
fn park_at(
    lanes: &mut Vec<LaneParking>,
    place: usize,
    one: Parked,
    limit: u64,
) -> Result<u64, AllocError>
    requires place { place < length lanes.old.items }
    requires room { (lane : LaneValue) → slice_get lanes.old.items place ≡ Some lane → costs lane.waiting ≤ limit }
    ensures ok { OnOk result ((lane : LaneValue) → slice_get lanes.old.items place ≡ Some lane → lanes.new.items ≡ set lanes.old.items place (parked_in limit one lane)) }
    ensures octets { IfOk result (λ now. (lane : LaneValue) → slice_get lanes.old.items place ≡ Some lane → now ≡ costs (parked_in limit one lane).waiting) }
    ensures err { OnErr result (lanes.new.items ≡ lanes.old.items) }
{
    let lane = &mut lanes[place];
    lane.park(one, limit)?;
    Ok(lane.octets())
}

// Lends the next datagram of the lane at a place.
fn lend_at(lanes: &mut Vec<LaneParking>, place: usize) -> Result<Option<Lent>, AllocError>
    requires { place < length lanes.old.items }
    ensures lent { IfOk result (λ lent. (lane : LaneValue) → slice_get lanes.old.items place ≡ Some lane → lent ≡ lendable lane) }
    ensures ok { OnOk result ((lane : LaneValue) → slice_get lanes.old.items place ≡ Some lane → lanes.new.items ≡ set lanes.old.items place (lending lane)) }
    ensures err { OnErr result (lanes.new.items ≡ lanes.old.items) }
{
    lanes[place].lend()
}

// Settles the datagram that was lent from the lane at a place; returns how much of the room the lane takes up then.
fn settle_at(
    lanes: &mut Vec<LaneParking>,
    place: usize,
    number: u64,
    arrival: u64,
    outcome: Outcome,
) -> u64
    requires { place < length lanes.old.items }
    ensures lanes { (lane : LaneValue) → slice_get lanes.old.items place ≡ Some lane
        → lanes.new.items ≡ set lanes.old.items place (settled outcome number arrival lane) }
    ensures octets { (lane : LaneValue) → slice_get lanes.old.items place ≡ Some lane → result ≡ costs (settled outcome number arrival lane).waiting }
    ensures less { (lane : LaneValue) → slice_get lanes.old.items place ≡ Some lane → result ≤ costs lane.waiting }
{
    let lane = &mut lanes[place];
    lane.settle(number, arrival, outcome);
    lane.octets()
}

// Drops what waits of a transaction in the lane at a place; returns how much of the room the lane takes up then.
fn forget_at(lanes: &mut Vec<LaneParking>, place: usize, number: u64) -> u64
    requires { place < length lanes.old.items }
    ensures lanes { (lane : LaneValue) → slice_get lanes.old.items place ≡ Some lane
        → lanes.new.items ≡ set lanes.old.items place (without_number number lane) }
    ensures octets { (lane : LaneValue) → slice_get lanes.old.items place ≡ Some lane → result ≡ costs (without_number number lane).waiting }
    ensures less { (lane : LaneValue) → slice_get lanes.old.items place ≡ Some lane → result ≤ costs lane.waiting }
{
    let lane = &mut lanes[place];
    lane.forget(number);
    lane.octets()
}

// Halves what waits for the lane at a place; returns how much of the room the lane takes up then.
fn give_way_at(lanes: &mut Vec<LaneParking>, place: usize) -> u64
    requires { place < length lanes.old.items }
    ensures lanes { (lane : LaneValue) → slice_get lanes.old.items place ≡ Some lane → lanes.new.items ≡ set lanes.old.items place (halved lane) }
    ensures octets { (lane : LaneValue) → slice_get lanes.old.items place ≡ Some lane → result ≡ costs (halved lane).waiting }
    ensures less { (lane : LaneValue) → slice_get lanes.old.items place ≡ Some lane → result ≤ costs lane.waiting }
{
    let lane = &mut lanes[place];
    lane.give_way();
    lane.octets()
}

// Shortens what waits for the lane at a place; returns how much of the room the lane takes up then.
fn shorten_at(lanes: &mut Vec<LaneParking>, holder: Holder) -> u64
    requires { holder.place < length lanes.old.items }
    ensures lanes { (lane : LaneValue) → slice_get lanes.old.items holder.place ≡ Some lane
        → lanes.new.items ≡ set lanes.old.items holder.place (shortened holder.octets lane) }
    ensures octets { (lane : LaneValue) → slice_get lanes.old.items holder.place ≡ Some lane → result ≡ costs (shortened holder.octets lane).waiting }
    ensures less { (lane : LaneValue) → slice_get lanes.old.items holder.place ≡ Some lane → result ≤ costs lane.waiting }
{
    let lane = &mut lanes[holder.place];
    lane.shorten(holder.octets);
    lane.octets()
}
