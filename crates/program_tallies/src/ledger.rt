//! Counts refusals by kind, for all threads.
use crate::refusals::{RefusalCase, RefusalKind};
use std::alloc::{AllocError, Global};
use std::net::SocketAddr;
use std::sync::atomic::{AtomicU64, Ordering};
use std::sync::{Mutex, Wait};

// Room for this many kinds: more than there are numbers of refusals and of decode faults.
const KINDS: usize = 64;

/// Counts refusals by kind, for all threads. Its memory is allocated when it is opened, so noting a refusal allocates
/// nothing.
#[derive(Drop)]
pub struct Ledger {
    cases: Mutex<Vec<RefusalCase>>,
    total: AtomicU64,
}

impl Ledger {
    /// An empty ledger.
    pub fn new(alloc: Global) -> Result<Ledger, AllocError> {
        Ok(Ledger {
            cases: Mutex::new(Vec::with_capacity(alloc, KINDS)?),
            total: AtomicU64::new(0),
        })
    }

    /// Notes a refusal at a moment, in milliseconds since 1970: of a datagram with these octets, or of a command,
    /// without octets.
    pub fn note<R: Wait>(
        &self,
        rt: &R,
        kind: RefusalKind,
        at: u64,
        from: Option<SocketAddr>,
        octets: &[u8],
    ) {
        let mut cases = self.cases.lock(rt);
        note_in(&mut cases, kind, at, from, octets);
        let _before = self.total.fetch_add(1, Ordering::Relaxed);
    }

    /// How many refusals there were. Takes no lock.
    pub fn total(&self) -> u64 {
        self.total.load(Ordering::Relaxed)
    }

    /// The kinds refused so far, in the order in which each first came up.
    pub fn cases<R: Wait>(&self, rt: &R, alloc: Global) -> Result<Vec<RefusalCase>, AllocError> {
        Vec::from_slice(alloc, self.cases.lock(rt).as_slice())
    }

    /// The kinds with refusals that no event has reported. They count as reported from then on.
    pub fn take_unreported<R: Wait>(
        &self,
        rt: &R,
        alloc: Global,
    ) -> Result<Vec<RefusalCase>, AllocError> {
        let mut cases = self.cases.lock(rt);
        let mut due = Vec::with_capacity(alloc, cases.len())?;
        for case in cases.iter_mut() {
            if case.unreported() > 0 {
                due.push(*case)?;
                case.reported = case.count;
            }
        }
        Ok(due)
    }
}

// Notes a refusal under its kind. There is room for all kinds.
fn note_in(
    cases: &mut Vec<RefusalCase>,
    kind: RefusalKind,
    at: u64,
    from: Option<SocketAddr>,
    octets: &[u8],
) {
    for case in cases.iter_mut() {
        if case.kind == kind {
            case.note(at, from, octets);
            return;
        }
    }
    let mut case = RefusalCase::new(kind);
    case.note(at, from, octets);
    let _there_is_room = cases.push(case);
}
