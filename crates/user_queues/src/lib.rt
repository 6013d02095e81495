//! Users' queues of bundles. A user's lanes put bundles in, and the user takes them out. There is a queue for one
//! thread, and one that threads share.
#![tactic(auto)]

mod lane_outlet;
mod list_outlet;
mod list_queue;
mod names;
mod queues;
mod user_port;

pub use lane_outlet::LaneOutlet;
pub use list_outlet::ListOutlet;
pub use list_queue::ListQueue;
pub use names::Names;
pub use queues::{Queues, UserQueue, open};
pub use user_port::UserPort;
