//! Making the lanes of users, as configured.
ghost use Rattle.std.specs.Prelude.{◌≡◌, ◌^◌, ◌-◌, IsTrue};
ghost use Rattle.config_reading.specs.Texts.{is_within};
ghost use Rattle.lane_table.specs.Lane.{IsSound};
ghost use Rattle.entity_parts.specs.FirstLanes.{first_lane, first_sending};

use entity_config::Config;
use entity_routing::source_of_lane;
use lane_table::Numbers;
use std::alloc::Global;
use txn_lane::Lane;

/// A new lane of a user, which has opened no transaction yet.
#[tactic(auto, using(crate::proofs::FirstFacts::receiving_sound))]
pub fn lane_for(alloc: Global, config: &Config, user: usize, lane: usize) -> Lane
    ensures lane { result ≡ first_lane config.now user lane }
    ensures sound { IsSound result }
{
    match source_of_lane(config, user, lane) {
        Some(remote) => Lane::receiving(alloc, user, lane, remote.id, remote.params),
        None => sending_lane(alloc, config, user, lane),
    }
}

// A sending lane, for the user's Puts.
#[tactic(auto, using(crate::proofs::FirstFacts::sending_sound))]
fn sending_lane(alloc: Global, config: &Config, user: usize, lane: usize) -> Lane
    ensures lane { result ≡ first_sending config.now user lane }
    ensures sound { IsSound result }
{
    let entity = config.entity();
    let numbers = Numbers {
        first: entity.first,
        lanes: entity.put_lanes as u64,
        users: config.users() as u64,
    };
    let greatest = greatest_in(entity.lengths.sequence_octets);
    Lane::sending(alloc, user, lane, entity.local, numbers, greatest)
}

// The greatest number of this many octets.
fn greatest_in(octets: u8) -> u64
    requires { IsTrue (is_within 1 8 octets) }
    ensures { result ≡ 256 ^ octets - 1 }
{
    match octets {
        1 => 0xFF,
        2 => 0xFFFF,
        3 => 0xFF_FFFF,
        4 => 0xFFFF_FFFF,
        5 => 0xFF_FFFF_FFFF,
        6 => 0xFFFF_FFFF_FFFF,
        7 => 0xFF_FFFF_FFFF_FFFF,
        _ => u64::MAX,
    }
}
