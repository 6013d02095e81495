//! Values of other members that programs compare.

// this end's role in a transaction
pub const SENDER: &str = "sender";

pub const RECEIVER: &str = "receiver";

// the state of a transaction that has ended
pub const ENDED: &str = "ended";
