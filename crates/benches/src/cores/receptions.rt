//! Receptions of a file.
use crate::cores::datagrams::{KEY, eof, file_data, metadata, prompt};
use crate::cores::setting::params;
use crate::fault::Fault;
use modular_sum::sum_of;
use pdu_codec::Pdu;
use receiver_core::ReceiverCore;
use std::alloc::Global;
use txn_events::What;

/// Octets of a segment.
const SEGMENT: u32 = 256;

/// The order in which the segments of a file come.
#[derive(Clone, Copy)]
pub(crate) enum Order {
    Rising,
    Falling,
    /// Scattered: each place once, if the count isn't a multiple of 5 or 7.
    Mixed,
}

impl Order {
    // The place of the segment that comes after this many others.
    fn place(self, number: u32, count: u32) -> u32 {
        match self {
            Order::Rising => number,
            Order::Falling => count.saturating_sub(number).saturating_sub(1),
            Order::Mixed => {
                let scattered = u64::from(number) * 42_875;
                scattered.checked_rem(u64::from(count)).unwrap_or(0) as u32
            }
        }
    }
}

/// What comes after the Metadata of a file in parts.
#[derive(Clone, Copy)]
pub(crate) enum Coming {
    /// The segments in order, and the EOF after them.
    EofLast,
    /// The EOF, and the segments in an order.
    EofFirst(Order),
    /// One octet at every second offset, the last first.
    SingleOctets,
    /// One octet after each gap of one octet, and a Prompt for a NAK after each.
    Prompts,
}

impl Coming {
    // The size of the file.
    fn size(self, count: u32) -> u32 {
        match self {
            Coming::EofLast | Coming::EofFirst(_) => count.saturating_mul(SEGMENT),
            Coming::SingleOctets | Coming::Prompts => count.saturating_mul(2),
        }
    }

    // How many PDUs come.
    fn pdus(self, count: u32) -> u32 {
        match self {
            Coming::EofLast | Coming::EofFirst(_) => count.saturating_add(1),
            Coming::SingleOctets => count,
            Coming::Prompts => count.saturating_mul(2),
        }
    }

    // Whether the whole file comes.
    fn is_whole(self) -> bool {
        matches!(self, Coming::EofLast | Coming::EofFirst(_))
    }

    // The PDU that comes after this many others.
    fn pdu(self, alloc: Global, file: &[u8], count: u32, number: u32) -> Result<Pdu, Fault> {
        match self {
            Coming::EofLast if number < count => segment(alloc, file, number),
            Coming::EofFirst(order) if number > 0 => {
                segment(alloc, file, order.place(number - 1, count))
            }
            Coming::EofLast | Coming::EofFirst(_) => eof(alloc, sum_of(file), self.size(count)),
            Coming::SingleOctets => {
                let place = Order::Falling.place(number, count);
                file_data(alloc, place.saturating_mul(2), b"a")
            }
            Coming::Prompts if number % 2 == 0 => file_data(alloc, number | 1, b"a"),
            Coming::Prompts => prompt(alloc),
        }
    }
}

// The segment at a place of a file.
fn segment(alloc: Global, file: &[u8], place: u32) -> Result<Pdu, Fault> {
    let start = place.saturating_mul(SEGMENT);
    let from = file.len().min(start as usize);
    let to = file.len().min(from.saturating_add(SEGMENT as usize));
    file_data(alloc, start, &file[from..to])
}

// A file of this size.
fn file_of(alloc: Global, size: u32) -> Result<Vec<u8>, Fault> {
    let mut octets = Vec::with_capacity(alloc, size as usize)?;
    for offset in 0..size {
        octets.push((offset / 7 % 256) as u8)?;
    }
    Ok(octets)
}

// The reception that Metadata opens.
fn opened(alloc: Global, size: u32) -> Result<ReceiverCore, Fault> {
    let params = params()?;
    let pdu = metadata(alloc, size)?;
    if !ReceiverCore::may_open(KEY, &pdu) {
        return Err(Fault::Ended);
    }
    let (mut core, plan) = ReceiverCore::open(alloc, KEY, &pdu, params)?;
    let _ = core.commit(plan);
    Ok(core)
}

fn step(core: &mut ReceiverCore, event: &What) -> Result<(u64, bool), Fault> {
    if core.has_ended() {
        return Err(Fault::Ended);
    }
    let plan = core.plan(event)?;
    let answer = core.commit(plan);
    let sent = answer.pdus.as_slice().len() as u64;
    Ok((sent, answer.deposit.is_some()))
}

// Steps a reception. Returns how many PDUs it sends, and whether it gives the file to its store.
fn take(core: &mut ReceiverCore, pdu: Pdu) -> Result<(u64, bool), Fault> {
    step(core, &What::Pdu(pdu))
}

// Takes all that comes, and returns how many PDUs are sent. A whole file is given to its store at the end.
fn take_all(
    alloc: Global,
    core: &mut ReceiverCore,
    file: &[u8],
    coming: Coming,
    count: u32,
) -> Result<u64, Fault> {
    let (mut sent, mut is_given) = (0u64, false);
    for number in 0..coming.pdus(count) {
        let stepped = take(core, coming.pdu(alloc, file, count, number)?)?;
        sent = sent.saturating_add(stepped.0);
        is_given = stepped.1;
    }
    if is_given == coming.is_whole() {
        Ok(sent)
    } else {
        Err(Fault::NotGiven)
    }
}

fn received(alloc: Global, file: &[u8], coming: Coming, count: u32) -> Result<u64, Fault> {
    let mut core = opened(alloc, coming.size(count))?;
    take_all(alloc, &mut core, file, coming, count)
}

/// Receives what comes of a file, and counts the sent PDUs.
pub(crate) fn receive(alloc: Global, coming: Coming, count: u32) -> Result<u64, Fault> {
    let file = file_of(alloc, coming.size(count))?;
    received(alloc, file.as_slice(), coming, count)
}
