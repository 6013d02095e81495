//! A protocol entity in one thread: the lanes of its users, and how it handles events.
#![tactic(auto)]

mod opening;
mod stepping;
mod user_part;
mod users;
mod world;

pub use entity_parts::EntityRefusal;
pub use entity_routing::{Place, Request, RouteRefusal, WorldEvent};
pub use stepping::step_lane;
pub use user_part::UserPart;
pub use users::Users;
pub use world::World;
