use entity_routing::RouteRefusal;
use pdu_reading::DecodeFault;
use program_tallies::{Ledger, Links, RefusalKind, RemoteTotals, Tallies, Totals};
use std::alloc::{AllocError, Global};
use std::sync::Wait;
use std::test::*;
use txn_events::Refusal;

const ODD: RefusalKind = RefusalKind::Route(RouteRefusal::DecodeFault(DecodeFault::TooShort));

const LATE: RefusalKind = RefusalKind::Lane(Refusal::OldTransaction);

// Two workers each receive a datagram of a remote entity and one of an unknown sender, and fail at a read. The main
// thread sends one datagram, and can't send two.
fn count(tallies: &Tallies) {
    for (place, worker) in tallies.workers.iter().enumerate() {
        worker.note_arrival(10, Some(place));
        worker.note_arrival(1, None);
        worker.note_failed_read();
    }
    tallies.own.note_departure(1, Some(100));
    tallies.own.note_departure(1, None);
    tallies.own.note_unaddressed();
}

const SECOND: RemoteTotals = RemoteTotals {
    datagrams_in: 1,
    octets_in: 10,
    datagrams_out: 1,
    octets_out: 100,
    failed_sends: 1,
};

// The counts are added up, for all remote entities and for each.
fn are_counted(tallies: &Tallies) -> bool {
    let totals = Totals {
        datagrams_in: 4,
        octets_in: 22,
        datagrams_out: 1,
        octets_out: 100,
        failed_sends: 2,
        failed_reads: 2,
        foreign_datagrams: 2,
        ..Totals::default()
    };
    tallies.totals() == totals
        && tallies.remote_totals(1) == SECOND
        && tallies.remote_totals(2) == RemoteTotals::default()
}

// The last moment at which any thread heard a remote entity, once that is requested.
fn are_heard(tallies: &Tallies) -> bool {
    let heard_before = tallies.workers.iter().any(|worker| worker.hears());
    tallies.hear();
    for (place, worker) in tallies.workers.iter().enumerate() {
        worker.note_heard(1, 5_000u64.saturating_add(place as u64));
    }
    tallies.own.note_heard(1, 4_000);
    !heard_before
        && tallies.workers.iter().all(|worker| worker.hears())
        && tallies.heard(1) == Some(5_001)
        && tallies.heard(2).is_none()
}

// Two kinds of refusal, the first one twice.
fn note_first<R: Wait>(rt: &R, ledger: &Ledger) {
    ledger.note(rt, ODD, 5_000, None, &[7; 100]);
    ledger.note(rt, LATE, 5_001, None, &[]);
    ledger.note(rt, ODD, 5_002, None, b"ab");
}

// Each kind has its count and its last case.
fn has_cases<R: Wait>(rt: &R, alloc: Global, ledger: &Ledger) -> Result<bool, AllocError> {
    let cases = ledger.cases(rt, alloc)?;
    Ok(match cases.as_slice() {
        [odd, late] => {
            (odd.kind, odd.count, odd.last) == (ODD, 2, 5_002)
                && odd.octets() == b"ab".as_slice()
                && late.kind == LATE
        }
        _ => false,
    })
}

// How many cases are reported now.
fn reported<R: Wait>(rt: &R, alloc: Global, ledger: &Ledger) -> Result<usize, AllocError> {
    Ok(ledger.take_unreported(rt, alloc)?.len())
}

// Whether one case is reported, with its first octets.
fn reports_one<R: Wait>(rt: &R, alloc: Global, ledger: &Ledger) -> Result<bool, AllocError> {
    let due = ledger.take_unreported(rt, alloc)?;
    Ok(match due.as_slice() {
        [odd] => odd.unreported() == 1 && odd.octets().len() == 64,
        _ => false,
    })
}

fn are_reported<R: Wait>(rt: &R, alloc: Global, ledger: &Ledger) -> Result<bool, AllocError> {
    note_first(rt, ledger);
    let is_known = ledger.total() == 3 && has_cases(rt, alloc, ledger)?;
    let first = (reported(rt, alloc, ledger)?, reported(rt, alloc, ledger)?);
    ledger.note(rt, ODD, 5_020, None, &[7; 100]);
    Ok(is_known && first == (2, 0) && reports_one(rt, alloc, ledger)?)
}

#[test]
fn counts(rt: HostRuntime) -> Result<(), Fail> {
    let tallies = Tallies::new(rt.alloc(), 2, 2)?;
    count(&tallies);
    assert!(rt; are_counted(&tallies) && are_reported(&rt, rt.alloc(), &tallies.ledger)?);
    assert!(rt; are_heard(&tallies));
    Ok(())
}

// A link is held from the first hold on, until it is released.
fn is_held_once(links: &Links) -> bool {
    links.hold(1, 5);
    links.hold(1, 9);
    links.hold(2, 9);
    let is_held = links.held_since(1) == Some(5) && links.is_held(1);
    let are_others_free = !links.is_held(0) && !links.is_held(2);
    let is_released = links.release(1) && !links.release(1) && !links.release(0);
    is_held && are_others_free && is_released && links.held_since(1).is_none()
}

#[test]
fn links(rt: HostRuntime) -> Result<(), Fail> {
    assert!(rt; is_held_once(&Links::new(rt.alloc(), 2)?));
    Ok(())
}
