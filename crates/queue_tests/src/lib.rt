//! Users' queues of both kinds, one-thread and shared: both give the same results for offers and takes, and every
//! bundle that a lane sends arrives.
#![tactic(auto)]

#[cfg(test)]
mod both_queues;
#[cfg(test)]
mod bundles;
#[cfg(test)]
mod shared;
