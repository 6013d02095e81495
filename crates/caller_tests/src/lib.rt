//! Short callers of the crates that others may build on, each with a test. The READMEs of these crates show them.
#![tactic(auto)]

#[cfg(test)]
mod codec;
#[cfg(test)]
mod config;
#[cfg(test)]
mod disks;
#[cfg(test)]
mod entity;
#[cfg(test)]
mod lanes;
#[cfg(test)]
mod queues;
#[cfg(test)]
mod scripts;
#[cfg(test)]
mod timers;
#[cfg(test)]
mod world;
