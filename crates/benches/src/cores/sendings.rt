//! A sender of a large file, and one that is asked for parts of it again and again.
use crate::cores::datagrams::{KEY, TOWARD_SENDER, arrival};
use crate::cores::setting::params;
use crate::fault::Fault;
use cfdp_types::{Class, EntityId, PutRequest};
use pdu_codec::Pdu;
use sender_core::SenderCore;
use std::alloc::Global;
use txn_events::What;

/// Octets of the sent file.
const FILE: u32 = 4 * 1024 * 1024;

/// Octets of a segment.
const SEGMENT: u32 = 256;

/// Requests of a NAK.
const REQUESTS: u32 = 64;

/// What a NAK asks for.
#[derive(Clone, Copy)]
pub(crate) enum Parts {
    /// Whole segments, at most every second one.
    Segments,
    /// Single octets, at most every second one: as many runs as there can be.
    Octets,
}

impl Parts {
    // Octets of a part.
    fn size(self) -> u32 {
        match self {
            Parts::Segments => SEGMENT,
            Parts::Octets => 1,
        }
    }

    // The NAK with a number: it asks for a part of its own in each stretch of the file.
    fn nak(self, alloc: Global, number: u32) -> Result<Pdu, Fault> {
        let stretch = FILE / REQUESTS;
        let inside = number.saturating_mul(2).saturating_mul(self.size()) % stretch;
        let mut field = Vec::from_slice(alloc, &[8, 0, 0, 0, 0])?;
        field.extend_from_slice(&FILE.to_be_bytes())?;
        for place in 0..REQUESTS {
            let start = (place * stretch).saturating_add(inside);
            field.extend_from_slice(&start.to_be_bytes())?;
            field.extend_from_slice(&start.saturating_add(self.size()).to_be_bytes())?;
        }
        arrival(alloc, TOWARD_SENDER, &[field.as_slice()])
    }
}

// The Put of a file of this size.
fn request(alloc: Global, size: u32) -> Result<PutRequest, Fault> {
    let file = vec![in alloc; 90; size as usize]?;
    let octets = file.as_slice();
    Ok(PutRequest::new(alloc, EntityId(2), Class::Two, b"a", b"b", &[], octets)?)
}

// The sender that it opens.
fn opened(alloc: Global, size: u32) -> Result<SenderCore, Fault> {
    let request = request(alloc, size)?;
    let (mut core, plan) = SenderCore::open(alloc, KEY, &request, params()?)?;
    let _ = core.commit(plan);
    Ok(core)
}

fn step(core: &mut SenderCore, event: &What) -> Result<(), Fault> {
    if core.has_ended() {
        return Err(Fault::Ended);
    }
    let plan = core.plan(event)?;
    let _ = core.commit(plan);
    Ok(())
}

// Sends the Metadata, this many segments and the EOF.
fn send(core: &mut SenderCore, segments: u32) -> Result<u64, Fault> {
    for _ in 0..u64::from(segments) + 2 {
        step(core, &What::Pump)?;
    }
    Ok(u64::from(segments))
}

/// A file of this many segments, sent once.
pub(crate) fn file(alloc: Global, segments: u32) -> Result<u64, Fault> {
    let mut core = opened(alloc, segments.saturating_mul(SEGMENT))?;
    send(&mut core, segments)
}

fn take(core: &mut SenderCore, nak: Pdu) -> Result<(), Fault> {
    step(core, &What::Pdu(nak))
}

// Sends the file, receives this many NAKs, and sends one part after each.
fn send_again(
    alloc: Global,
    core: &mut SenderCore,
    parts: Parts,
    count: u32,
) -> Result<u64, Fault> {
    send(core, FILE / SEGMENT)?;
    for number in 0..count {
        take(core, parts.nak(alloc, number)?)?;
        step(core, &What::Pump)?;
    }
    Ok(u64::from(count))
}

/// A file that is sent, and this many NAKs, each for parts all over the file; one part is sent after each NAK.
pub(crate) fn naks(alloc: Global, parts: Parts, count: u32) -> Result<u64, Fault> {
    let mut core = opened(alloc, FILE)?;
    send_again(alloc, &mut core, parts, count)
}
