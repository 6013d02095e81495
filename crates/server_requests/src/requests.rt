//! Puts, and other requests in a user's name.
use crate::working::Working;
use cfdp_types::{EntityId, Octets, PutFault, PutRequest, TxnKey};
use entity_routing::{Place, Request};
use lane_table::Done;
use program_desk::{moment, wall_moment};
use program_start::ProgramFault;
use program_status::StationCounts;
use program_tallies::RefusalKind;
use server_answers::{Declined, Outcome, Taken};
use server_kept::FromOutbox;
use server_lines::PutCommand;
use shared_entity::EntityRefusal;
use shared_lanes::{Names, NoGate};
use std::alloc::{AllocError, Global};
use std::rt::Files;
use std::sync::Wait;
use std::time::Clock;

// Where a Put goes.
fn destination_of(request: &Request) -> Option<EntityId> {
    match request {
        Request::Put(_, put) => Some(put.destination()),
        _ => None,
    }
}

// The transaction that a request cancels or abandons.
fn given_up_by(request: &Request) -> Option<TxnKey> {
    match request {
        Request::Cancel(key) | Request::Abandon(key) => Some(*key),
        _ => None,
    }
}

// The source file name of a Put.
fn name_of<'a>(put: &'a PutCommand, from: Option<&'a FromOutbox>) -> &'a [u8] {
    let Some(from) = from else {
        return put.source.as_slice();
    };
    match &from.source_name {
        Some(name) => name.as_slice(),
        None => put.source.as_slice(),
    }
}

// The request for a Put.
fn request_of(
    alloc: Global,
    put: &PutCommand,
    from: Option<&FromOutbox>,
    file: Octets,
) -> Result<Request, PutFault> {
    let request = PutRequest::new(
        alloc,
        put.destination,
        put.class,
        name_of(put, from),
        put.destination_name.as_slice(),
        &[],
        &[],
    )?
    .with_file(file);
    Ok(Request::Put(put.lane, request.with_closure(put.closure)))
}

// Counts a Put that opened a transaction, if anything is counted.
fn count_put(counts: &mut Option<StationCounts>, put: &PutCommand, key: TxnKey, size: u64) {
    if let Some(counts) = counts {
        let (user, lane) = (put.user, put.lane);
        counts.open(Place { user, lane }, key, put.class, size);
    }
}

impl<'s, 'a, N: Names, R: Wait + Clock + Files + AllocGlobal + Copy + Drop> Working<'s, 'a, N, R> {
    /// Puts a file that was read, `from` the outbox if it comes from there.
    pub fn put(
        &mut self,
        put: &PutCommand,
        file: Result<Octets, ProgramFault>,
        from: Option<&FromOutbox>,
    ) -> Outcome {
        let file = match file {
            Ok(file) => file,
            Err(ProgramFault::NoMemory) => return Err(Declined::NoMemory),
            Err(_) => return Err(Declined::Unreadable),
        };
        let queued = from.map(|from| from.number);
        let size = file.as_slice().len() as u64;
        let asked = match self.station.timetable.reserve() {
            Ok(()) => request_of(self.alloc, put, from, file),
            Err(AllocError) => Err(PutFault::NoMemory),
        };
        match asked {
            Ok(request) => self.put_covered(put, size, queued, request),
            Err(PutFault::NoMemory) => Err(Declined::NoMemory),
            Err(_) => Err(Declined::Malformed),
        }
    }

    // Puts, once the file of numbers covers the Put's number, and notes and reports a Put that was taken.
    fn put_covered(
        &mut self,
        put: &PutCommand,
        size: u64,
        queued: Option<u64>,
        request: Request,
    ) -> Outcome {
        if !self.numbers.covers() {
            return Err(Declined::Uncovered);
        }
        let taken = self.ask(put.user, request)?;
        let key = taken.key;
        self.note_put(put, size, queued, key);
        Ok(taken)
    }

    // Notes and reports a Put that opened a transaction.
    fn note_put(&mut self, put: &PutCommand, size: u64, queued: Option<u64>, key: TxnKey) {
        self.numbers.note_put(key);
        self.readiness.note(put.destination, key.seq);
        let (user, lane) = (put.user, put.lane);
        if let Some(number) = queued {
            let now = moment(self.rt);
            self.outbox
                .note_begun(Place { user, lane }, key, number, now);
        }
        self.audience.reports.put(put, size, queued, key);
        count_put(&mut self.audience.counts, put, key, size);
    }

    /// Asks the entity for something, in a user's name. Drops what is parked of a transaction that is given up.
    pub fn ask_for(&mut self, user: usize, request: Request) -> Outcome {
        let given_up = given_up_by(&request);
        let outcome = self.ask(user, request);
        if let Some(key) = given_up {
            self.station.forget_parked(user, key);
        }
        outcome
    }

    // Asks the entity for something, in a user's name.
    fn ask(&mut self, user: usize, request: Request) -> Outcome {
        let entity = self.station.entity();
        if !entity.may_request(user, &request) {
            return Err(Declined::Malformed);
        }
        let destination = destination_of(&request);
        let refusal = match entity.request(self.rt, &NoGate, user, request) {
            Ok(Ok(done)) => return Ok(self.go_on(done, destination)),
            Ok(Err(refused)) => EntityRefusal::Lane(refused),
            Err(refusal) => refusal,
        };
        self.note_refusal(&refusal);
        Err(Declined::Refused(refusal))
    }

    // Carries out the step of a request that the entity took. A Put has a destination.
    fn go_on(&mut self, done: Done, destination: Option<EntityId>) -> Taken {
        let (key, deposit) = (done.key, done.deposit);
        if let Some(destination) = destination {
            self.station.timetable.begin(key, destination);
        }
        self.station.settle_own(done);
        Taken {
            key,
            is_put: destination.is_some(),
            deposit,
        }
    }

    // Notes what the entity refused, and sends the PDU with which the refusal responds, if there is one.
    fn note_refusal(&mut self, refusal: &EntityRefusal) {
        let at = wall_moment(self.rt);
        self.shared
            .tallies
            .ledger
            .note(self.rt, RefusalKind::of(refusal), at, None, &[]);
        self.station.send_echo(refusal);
    }
}
