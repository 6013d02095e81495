//! Plays a script, and explains its lines and their answers in words.
#![tactic(auto)]

mod comments;
mod datagrams;
mod names;
mod pdus;
mod refusals;
mod run;

pub use comments::push_comments;
pub use datagrams::push_datagram;
pub use names::{condition_words, push_condition};
pub use pdus::{push_pdu_words, push_transaction_words, push_way_words};
pub use run::explain_to_end;
