//! The cores of both ends, and armed timers.
pub(crate) mod datagrams;
pub(crate) mod far_octets;
pub(crate) mod receptions;
pub(crate) mod sendings;
pub(crate) mod setting;
pub(crate) mod sizes;
pub(crate) mod timers;
