//! Events of a transaction at either end, the reasons for refusing one, and the parts of a step that both ends
//! share: the PDUs to send, the timer operations and counts, and tests of events and of the user's indications.
#![tactic(auto)]

mod answer;
mod event;
mod events;
mod lists;
mod refusal;
mod telling;
mod timers;

pub use answer::Answer;
pub use event::{Event, What};
pub use events::{
    body_opens, is_body_too_large, is_expiration, is_of_other_class, is_pdu, is_stale_timer,
    is_too_large, needs_room,
};
pub use lists::{Pdus, TimerOps};
pub use refusal::Refusal;
pub use telling::{has_fault, has_resumed, paused_after};
pub use timers::{CountResets, Stamps, TimerChange, TimerChanges, TimerContext, Tries, operations};
