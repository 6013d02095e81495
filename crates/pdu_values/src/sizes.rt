//! The bounds that types imply, as contracts.
ghost use Rattle.std.specs.Prelude.{◌≡◌, ◌<◌, ◌^◌};
ghost use Rattle.pdu_values.specs.Spelling.{IsLocation};

use cfdp_types::EntityId;

/// The number itself; the contract adds the bound that its type implies.
pub(crate) fn word(number: u32) -> u32
    ensures value { result ≡ number }
    ensures range { number < 2 ^ 32 }
{
    number
}

pub(crate) fn long_word(number: u64) -> u64
    ensures value { result ≡ number }
    ensures range { number < 2 ^ 64 }
{
    number
}

/// Whether there is a fault location; the contract adds the bound that its type implies.
pub(crate) fn has_location(location: Option<EntityId>) -> bool
    ensures { IsLocation location }
{
    match location {
        None => false,
        Some(id) => {
            let _id = long_word(id.0);
            true
        }
    }
}
