//! The console's numbers with their labels, what lines say of a station, and which events are kept.
#![tactic(auto)]

#[cfg(test)]
mod events;
#[cfg(test)]
mod numbers;
