//! The parts of the receiving end's code, over plain values: the received file and how it is examined, the contents of
//! a NAK, the control block, the responses, and what follows an event.
#![tactic(auto)]

pub mod control;
pub mod examine;
pub mod file_after;
pub mod file_change;
pub mod nak;
pub mod pieces;
pub mod received_file;
pub mod response;
pub mod steps;
