//! The lines in which a server reports its status and its events. Each is a JSON object and a line feed, with the
//! members that `docs/control-socket.md` defines. Each function adds a line to a text; after an `Err` the text is
//! unchanged.
#![tactic(auto)]

mod count_lines;
mod event;
mod event_lines;
mod letters;
mod line;
mod members;
mod moment;
mod remote_lines;
mod status;
mod status_lines;

pub use count_lines::{push_delivered, push_ended, push_store};
pub use event::{CommandEvent, EventHead, IndicationEvent, PutEvent, SkippedEvent, UnsentEvent};
pub use event_lines::{
    push_command_event, push_end_event, push_hold_event, push_indication_event,
    push_journal_full_event, push_lost_line, push_planned_hold_event, push_put_event,
    push_refused_event, push_release_event, push_skipped_event, push_start_event,
    push_stored_event, push_unparked_event, push_unsent_event,
};
pub use members::{Datagram, RefusedCase, RefusedPdu, SHOWN_OCTETS};
pub use moment::Moment;
pub use remote_lines::push_remote;
pub use status::{
    Counters, DeliveredStatus, EndedStatus, Ending, EntityStatus, Heard, LogStatus, NoteStatus,
    Notice, ParkedStatus, QueuedStatus, ReadingStatus, RemoteStatus, StoreStatus, StoringStatus,
    TransactionStatus, UserStatus,
};
pub use status_lines::{
    push_entity, push_log, push_note, push_parked, push_queued, push_reading, push_refusal,
    push_storing, push_transaction, push_user,
};
