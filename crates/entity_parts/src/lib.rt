//! What the entity of one thread and the shared entity have in common: the users' new lanes, the requests that a user
//! may make, reading datagrams, and why an entity refuses an event.
#![tactic(auto)]

mod asking;
mod opening;
mod reading;
mod refusal;

pub use asking::may_request;
pub use opening::lane_for;
pub use reading::read_pdu;
pub use refusal::EntityRefusal;
