//! Public calls of the crates with types, sets, words, configurations, stores and scripts, as their callers see them.
#![tactic(auto)]

#[cfg(test)]
mod broken_ends;
#[cfg(test)]
mod configs;
#[cfg(test)]
mod gaps;
#[cfg(test)]
mod lines;
#[cfg(test)]
mod outputs;
#[cfg(test)]
mod stores;
#[cfg(test)]
mod types;
#[cfg(test)]
mod words;
