//! Parts of the programs, as their callers see them: command lines, the agenda, the desk, seats, counts, events, and the
//! lines of a station, octet for octet.
#![tactic(auto)]

#[cfg(test)]
mod agenda;
#[cfg(test)]
mod desk;
#[cfg(test)]
mod event_lines;
#[cfg(test)]
mod events;
#[cfg(test)]
mod parking;
#[cfg(test)]
mod recorder;
#[cfg(test)]
mod seats;
#[cfg(test)]
mod tallies;
#[cfg(test)]
mod words;
