//! Texts of an entity's answers. Each function appends to `text`; after an `Err` the text is not to be used.
ghost use Rattle.std.specs.Prelude.{◌≡◌, ◌++◌, OnOk, string_bytes};
ghost use Rattle.script_replay.specs.Texts.{answer_text, route_text, taken_text};

use answer_texts::{push_bundle, push_decode_fault, push_done, push_refusal, push_refused};
use entity_routing::{WRONG_LANE_NAME, WRONG_LANE_NUMBER};
use indications::Bundle;
use lane_table::Done;
use std::alloc::{AllocError, Global};
use world_core::{EntityRefusal, RouteRefusal};

/// Appends the lines for an event that was accepted or refused; for a Put, also the line of the transaction that it
/// opened.
pub fn push_answer(
    alloc: Global,
    text: &mut String,
    is_put: bool,
    answer: &Result<Done, EntityRefusal>,
) -> Result<(), AllocError>
    ensures { OnOk result (string_bytes text.new ≡ string_bytes text.old ++ answer_text is_put answer.now) }
{
    match answer {
        Ok(done) => push_done(alloc, text, is_put, done),
        Err(EntityRefusal::Lane(refused)) => push_refused(alloc, text, refused),
        Err(EntityRefusal::Route(why)) => push_route_refusal(text, *why),
        Err(EntityRefusal::WrongLane) => push_refusal(text, WRONG_LANE_NUMBER, WRONG_LANE_NAME),
    }
}

fn push_route_refusal(text: &mut String, why: RouteRefusal) -> Result<(), AllocError>
    ensures { OnOk result (string_bytes text.new ≡ string_bytes text.old ++ route_text why) }
{
    match why {
        RouteRefusal::DecodeFault(fault) => push_decode_fault(text, fault.number()),
        _ => push_refusal(text, why.number(), why.name()),
    }
}

/// Appends the lines for the bundle that the user with this name took, or for none.
pub fn push_taken(
    alloc: Global,
    text: &mut String,
    name: &str,
    taken: &Option<Bundle>,
) -> Result<(), AllocError>
    ensures { OnOk result (string_bytes text.new ≡ string_bytes text.old ++ taken_text name.now taken.now) }
{
    match taken {
        Some(bundle) => push_bundle(alloc, text, name, bundle),
        None => text.push_str("none\n"),
    }
}
