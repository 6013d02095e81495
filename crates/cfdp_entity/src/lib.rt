//! A protocol entity, for one thread (`World`) and for threads that share it (`Entity`).
#![tactic(auto)]

pub use entity_routing::{Place, Request, RouteRefusal, WorldEvent};
pub use lane_table::{Glance, GlancedFile};
pub use shared_entity::{Entity, Gate, Held, Names, NoGate, Point, Traced, queues_of};
pub use world_core::{EntityRefusal, World};
