use cfdp_types::{EntityId, TxnKey};
use station_lines::{
    EventHead, Moment, SkippedEvent, push_hold_event, push_journal_full_event, push_release_event,
    push_skipped_event, push_unparked_event,
};
use std::alloc::{AllocError, Global};
use std::test::*;

const HEAD: EventHead = EventHead {
    at: Moment(0),
    number: 1,
};

const KEY: TxnKey = TxnKey {
    source: EntityId(7),
    seq: 3,
};

const SKIPPED: SkippedEvent<'_> = SkippedEvent {
    user: "ops",
    destination: EntityId(7),
    count: 3,
    next: 41,
};

// Lines of events that no other test covers. The contract of each says what the line is, and `proofs/` shows it.
fn push_events(alloc: Global, text: &mut String) -> Result<(), AllocError> {
    push_hold_event(alloc, text, HEAD, EntityId(7))?;
    push_release_event(alloc, text, HEAD, EntityId(7))?;
    push_unparked_event(alloc, text, HEAD, 3)?;
    push_skipped_event(alloc, text, HEAD, &SKIPPED)?;
    push_journal_full_event(alloc, text, HEAD, "ops", KEY)
}

#[test]
fn events(rt: HostRuntime) -> Result<(), Fail> {
    let mut text = String::new(rt.alloc());
    assert!(rt; push_events(rt.alloc(), &mut text).is_ok());
    Ok(())
}
