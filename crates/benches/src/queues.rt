//! Users' queues, of one thread and of several.
pub(crate) mod bundles;
pub(crate) mod listed;
pub(crate) mod shared;
