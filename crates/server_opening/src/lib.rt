//! How the server starts: what its command line asks for, what the file says that this names, what it opens before its
//! threads start, and how it says why it ends.
#![tactic(auto)]

mod checking;
mod ending;
mod kept;
mod sockets;
mod starting;

pub use ending::tell_end;
pub use kept::{Kept, OutboxHold};
pub use sockets::control_sockets;
pub use starting::{Start, begin};
