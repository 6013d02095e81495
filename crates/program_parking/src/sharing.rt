//! How much of the room each source takes up, and which lane gives way where there is none.
ghost use Rattle.std.specs.Prelude.{◌≡◌, ◌<◌, ◌-◌, ◌/◌, ◌^◌, length, max, min, slice_get};
ghost use Rattle.program_parking.specs.Parkings as parkings;
ghost use Rattle.program_parking.specs.Parkings.{held, lane_costs, part, source_at, used};

use crate::lane::LaneParking;

/// How many octets may wait, how many of one source, and how many sources are remote entities.
#[derive(Clone, Copy, Debug, PartialEq, Eq)]
pub struct Rules {
    pub room: u64,
    pub share: u64,
    pub remotes: usize,
}

/// A lane by its place, and a number of octets.
#[derive(Clone, Copy, Debug, PartialEq, Eq)]
pub struct Holder {
    pub place: usize,
    pub octets: u64,
}

// The source of the lane at a place.
pub(crate) fn source_of(sources: &[usize], place: usize) -> usize
    ensures { result ≡ source_at place sources.now }
{
    match sources.get(place) {
        Some(source) => *source,
        None => 0,
    }
}

// How much of the room the lanes of a source take up.
#[tactic(auto, using(crate::proofs::SharingFacts::held_from, crate::proofs::SharingFacts::held_most))]
pub(crate) fn held_by(lanes: &[LaneParking], sources: &[usize], source: usize) -> u64
    requires same { length sources.now ≡ length lanes.now }
    requires room { used lanes.now < 2 ^ 64 }
    ensures { result ≡ held source sources.now lanes.now }
{
    let mut sum = 0u64;
    for place in 0..sources.len() {
        sum += part_of(&lanes[place], sources[place], source);
    }
    sum
}

// How much a lane takes up of what a source does, by the lane's own source.
fn part_of(lane: &LaneParking, own: usize, source: usize) -> u64
    ensures { result ≡ part source own lane.now }
{
    if own == source { lane.octets() } else { 0 }
}

// How much a lane may take up that takes up so much, of what all lanes and its source do.
pub(crate) fn limit_of(room: u64, used: u64, share: u64, held: u64, own: u64) -> u64
    ensures { result ≡ min (room / 4) (min (room - (used - own)) (share - (held - own))) }
{
    let left = room.saturating_sub(used.saturating_sub(own));
    let of_share = share.saturating_sub(held.saturating_sub(own));
    (room / 4).min(left.min(of_share))
}

// Of a source's lanes the one that takes up most so far, and the lane at a place.
fn larger_of(best: Holder, source: usize, place: usize, own: usize, lane: &LaneParking) -> Holder
    ensures { result ≡ parkings.larger_of source place own lane.now best }
{
    let octets = lane.octets();
    if own == source && best.octets < octets {
        Holder { place, octets }
    } else {
        best
    }
}

// The lane of a source that takes up most.
#[tactic(auto, using(crate::proofs::SharingFacts::larger_from))]
fn largest_lane(lanes: &[LaneParking], sources: &[usize], source: usize) -> Holder
    requires { length sources.now ≡ length lanes.now }
    ensures { result ≡ parkings.largest_lane source sources.now lanes.now }
{
    let mut best = Holder {
        place: 0,
        octets: 0,
    };
    for place in 0..sources.len() {
        best = larger_of(best, source, place, sources[place], &lanes[place]);
    }
    best
}

// Of two sources the one that takes up more.
fn greater_of(lanes: &[LaneParking], sources: &[usize], best: usize, source: usize) -> usize
    requires same { length sources.now ≡ length lanes.now }
    requires room { used lanes.now < 2 ^ 64 }
    ensures { result ≡ parkings.greater_of sources.now lanes.now best source }
{
    if held_by(lanes, sources, best) < held_by(lanes, sources, source) {
        source
    } else {
        best
    }
}

// The source that takes up most.
#[tactic(auto, using(crate::proofs::SharingFacts::greatest_more))]
fn greatest(lanes: &[LaneParking], sources: &[usize], remotes: usize) -> usize
    requires same { length sources.now ≡ length lanes.now }
    requires room { used lanes.now < 2 ^ 64 }
    ensures { result ≡ parkings.greatest remotes remotes sources.now lanes.now }
{
    let mut best = remotes;
    for source in 0..remotes {
        best = greater_of(lanes, sources, best, source);
    }
    best
}

// The source that gives way to a datagram of a source that takes up so much.
fn source_giving(
    rules: Rules,
    lanes: &[LaneParking],
    sources: &[usize],
    own: usize,
    cost: u64,
) -> usize
    requires same { length sources.now ≡ length lanes.now }
    requires room { used lanes.now < 2 ^ 64 }
    ensures { result ≡ parkings.source_giving rules cost own sources.now lanes.now }
{
    let held = held_by(lanes, sources, own);
    if rules.share.saturating_sub(held) < cost {
        return own;
    }
    let greatest = greatest(lanes, sources, rules.remotes);
    if held_by(lanes, sources, greatest).saturating_sub(held) <= cost {
        own
    } else {
        greatest
    }
}

// How many octets a datagram of a source lacks, where so much is taken up of the source's share and of the room.
fn missing_of(rules: Rules, held: u64, used: u64, cost: u64) -> u64
    ensures { result ≡ max (cost - (rules.share - held)) (cost - (rules.room - used)) }
{
    let of_share = cost.saturating_sub(rules.share.saturating_sub(held));
    let of_room = cost.saturating_sub(rules.room.saturating_sub(used));
    of_share.max(of_room)
}

// What the largest lane keeps, unless that is the datagram's own.
fn keeps_of(largest: Holder, is_own: bool, own: u64, cost: u64, lacks: u64) -> Option<Holder>
    ensures { result ≡ parkings.keeps_of largest is_own own cost lacks }
{
    if is_own && largest.octets.saturating_sub(own) <= cost {
        return None;
    }
    Some(Holder {
        place: largest.place,
        octets: largest.octets.saturating_sub(lacks),
    })
}

// Whether only a datagram's own lane may give way to it, apart from whether it lacks anything.
fn is_alone(rules: Rules, number: u64, cost: u64, lane: &LaneParking) -> bool
    ensures { result ≡ parkings.is_alone rules number cost lane.now }
{
    number < lane.floor() || (rules.room / 4).saturating_sub(lane.octets()) < cost
}

/// Which lane gives way to a datagram for a lane, and how many octets it keeps. `used` is how much all lanes take up.
pub(crate) fn giving_by(
    rules: Rules,
    lanes: &[LaneParking],
    sources: &[usize],
    used: u64,
    place: usize,
    number: u64,
    cost: u64,
) -> Option<Holder>
    requires same { length sources.now ≡ length lanes.now }
    requires used { used ≡ parkings.used lanes.now }
    ensures { result ≡ parkings.giving_at rules number cost (slice_get lanes.now place) (source_at place sources.now) sources.now lanes.now }
{
    match lanes.get(place) {
        Some(lane) => {
            let own = source_of(sources, place);
            giving_of(rules, lanes, sources, used, lane, own, number, cost)
        }
        None => None,
    }
}

// The same by the lane and its source.
fn giving_of(
    rules: Rules,
    lanes: &[LaneParking],
    sources: &[usize],
    used: u64,
    lane: &LaneParking,
    own: usize,
    number: u64,
    cost: u64,
) -> Option<Holder>
    requires same { length sources.now ≡ length lanes.now }
    requires used { used ≡ parkings.used lanes.now }
    ensures { result ≡ parkings.giving_by rules number cost lane.now own sources.now lanes.now }
{
    let lacks = missing_of(rules, held_by(lanes, sources, own), used, cost);
    if is_alone(rules, number, cost, lane) || lacks == 0 {
        return None;
    }
    let source = source_giving(rules, lanes, sources, own, cost);
    let largest = largest_lane(lanes, sources, source);
    keeps_of(largest, source == own, lane.octets(), cost, lacks)
}
