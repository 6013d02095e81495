use std::alloc::{AllocError, Global};
use std::test::Fail;
use web_console::Events;

fn push(alloc: Global, events: &mut Events, number: u64, json: &[u8]) -> Result<(), AllocError> {
    events.push(number, Vec::from_slice(alloc, json)?)
}

// Events of a run, numbered from one on; the last one is pushed again with other octets.
fn fill(alloc: Global, events: &mut Events, count: u64) -> Result<(), AllocError> {
    events.begin(b"a".as_slice())?;
    for number in 1..=count {
        push(alloc, events, number, b"{}")?;
    }
    events.begin(b"a".as_slice())?;
    push(alloc, events, count, b"[]")
}

// Replaces a text with the events that are sent after this ID.
fn tell(events: &Events, last: &[u8], text: &mut Vec<u8>) -> Result<(), AllocError> {
    text.clear();
    events.append_to(last, text)
}

// The oldest events are dropped. Without an ID all that remain are sent; after the ID of the last but one, only the
// last.
fn are_last(events: &Events, text: &mut Vec<u8>) -> Result<bool, AllocError> {
    tell(events, b"", text)?;
    let are_all = text
        .as_slice()
        .starts_with(b"retry: 1000\n\nid: a-6\n".as_slice());
    tell(events, b"a-1028", text)?;
    Ok(are_all && text.as_slice() == b"retry: 1000\n\nid: a-1029\ndata: {}\n\n".as_slice())
}

// Of another run only its own events are sent.
fn begins_anew(alloc: Global, events: &mut Events, text: &mut Vec<u8>) -> Result<bool, AllocError> {
    events.begin(b"b".as_slice())?;
    push(alloc, events, 2, b"[]")?;
    tell(events, b"a-1028", text)?;
    Ok(text.as_slice() == b"retry: 1000\n\nid: b-2\ndata: []\n\n".as_slice())
}

#[test]
fn events_of_two_runs(rt: HostRuntime) -> Result<(), Fail> {
    let mut events = Events::new(rt.alloc());
    let mut text = Vec::new(rt.alloc());
    fill(rt.alloc(), &mut events, 1029)?;
    assert!(rt; are_last(&events, &mut text)? && begins_anew(rt.alloc(), &mut events, &mut text)?);
    Ok(())
}

// Pieces of a file push out older pieces, and no other event.
fn keeps_others(
    alloc: Global,
    events: &mut Events,
    text: &mut Vec<u8>,
) -> Result<bool, AllocError> {
    events.begin(b"c".as_slice())?;
    push(alloc, events, 1, b"{}")?;
    for number in 2..=1030 {
        push(alloc, events, number, br#"{"level":"detail"}"#)?;
    }
    tell(events, b"", text)?;
    Ok(text.as_slice().starts_with(b"retry: 1000\n\nid: c-1\ndata: {}\n\nid: c-7\n".as_slice()))
}

#[test]
fn pieces_of_a_file(rt: HostRuntime) -> Result<(), Fail> {
    let mut events = Events::new(rt.alloc());
    let mut text = Vec::new(rt.alloc());
    assert!(rt; keeps_others(rt.alloc(), &mut events, &mut text)?);
    Ok(())
}
