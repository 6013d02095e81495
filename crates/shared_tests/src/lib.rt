//! An entity that threads share, and workers around it: that its lanes and its workers run side by side, and what its
//! users take then.
#![tactic(auto)]

#[cfg(test)]
mod acts;
#[cfg(test)]
mod apart;
#[cfg(test)]
mod closing;
#[cfg(test)]
mod crowd;
#[cfg(test)]
mod heard;
#[cfg(test)]
mod runs;
#[cfg(test)]
mod said;
#[cfg(test)]
mod watch;
#[cfg(test)]
mod workers;
