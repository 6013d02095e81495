//! A shared entity.
pub(crate) mod datagrams;
pub(crate) mod deliveries;
