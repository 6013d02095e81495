//! The entity that threads share: each lane is behind its own lock, with its outlet, and nothing else is locked.
#![tactic(auto)]

mod entity;
mod opening;
mod outlets;
mod queues;

pub use entity::Entity;
pub use entity_parts::EntityRefusal;
pub use entity_routing::{Place, Request, RouteRefusal};
pub use lane_table::{Glance, GlancedFile};
pub use lane_traces::Traced;
pub use queues::queues_of;
pub use shared_lanes::{Gate, Held, Names, NoGate, Point};
