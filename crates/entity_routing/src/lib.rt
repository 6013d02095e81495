//! Routing: which lane of which user gets an event of the entity, or why none does.
#![tactic(auto)]

pub mod laws;
mod place;
mod refusal;
mod routing;
mod world_event;

pub use place::Place;
pub use refusal::{RouteRefusal, WRONG_LANE_NAME, WRONG_LANE_NUMBER};
pub use routing::{
    key_of_pdu, lanes_of, params_of_put, place_of_key, place_of_own, place_of_pdu, source_of_lane,
};
pub use world_event::{Request, WorldEvent};
