//! Users and their lanes, as a configuration has them.
ghost use Rattle.std.specs.Prelude.{◌≡◌};
ghost use Rattle.line_words.specs.Places.{user_of, lane_of};

use crate::operands::{name_of, number_of};
use entity_config::Config;

/// A user's number, from the user's name.
pub fn user_of(config: &Config, word: &[u8]) -> Option<usize>
    ensures { result ≡ user_of config.now word.now }
{
    let name = name_of(word)?;
    match str::from_utf8(name) {
        Ok(name) => config.user_of(name),
        Err(_) => None,
    }
}

/// The number of one of a user's sending lanes.
pub fn lane_of(config: &Config, word: &[u8]) -> Option<usize>
    ensures { result ≡ lane_of config.now word.now }
{
    let lane = number_of(word)? as usize;
    if lane < config.entity().put_lanes {
        Some(lane)
    } else {
        None
    }
}
