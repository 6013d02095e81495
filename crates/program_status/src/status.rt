//! The lines of a status.
use crate::count_lines::{heard_at, missing_in, push_counts};
use crate::counts::StationCounts;
use crate::notes::LaneNotes;
use crate::refused::{origin_of, refused_case, refused_pdu};
use cfdp_types::limits::{JOURNAL_ENTRIES, JOURNAL_ENTRIES_KEPT};
use cfdp_types::{EntityId, TxnKey};
use entity_config::Config;
use entity_routing::{Place, lanes_of};
use lane_table::Glance;
use program_desk::Reading;
use program_lot::ParkedLane;
use program_outbox::{Outgoing, Waiting, Windows};
use program_tallies::Tallies;
use shared_entity::Entity;
use shared_lanes::Names;
use station_lines::{
    Counters, EntityStatus, LogStatus, Moment, NoteStatus, Notice, ParkedStatus, QueuedStatus,
    ReadingStatus, RemoteStatus, StoreStatus, StoringStatus, TransactionStatus, UserStatus,
    push_entity, push_log, push_note, push_parked, push_queued, push_reading, push_refusal,
    push_remote, push_storing, push_transaction, push_user,
};
use std::alloc::{AllocError, Global};
use std::sync::Wait;
use user_queues::UserPort;

// How many rounds are few, and how many numbers a round has at most.
const FEW_ROUNDS: u64 = 1_000;

const WIDEST_ROUND: u64 = 512;

/// A remote entity whose receiving lanes the sending lanes here don't divide, so files wait for each other.
#[derive(Debug, Drop)]
pub struct LaneHint {
    pub remote: EntityId,
    /// How many lanes send, of all users together.
    pub sending: u64,
    /// How many lanes the remote entity has for what this entity sends.
    pub receiving: u64,
    /// Numbers of sending lanes with which files wouldn't wait.
    pub better: Vec<u64>,
}

/// What a status shows besides the entity.
#[derive(Clone, Copy)]
pub struct Shown<'a> {
    pub version: &'a str,
    pub started: Moment,
    pub now: Moment,
    /// The same moment by the clock of `windows`, in milliseconds.
    pub clock: u64,
    pub tallies: &'a Tallies,
    pub notes: &'a LaneNotes,
    /// The files to be sent.
    pub outgoing: &'a Outgoing,
    /// The links open for a time.
    pub windows: &'a Windows,
    /// The limit in octets a second that all links without a limit of their own share, if there is one.
    pub rate_of_rest: Option<u64>,
    /// The files being read.
    pub readings: &'a [Reading],
    /// The received files being stored, or those that couldn't be stored so far.
    pub storing: &'a [StoringStatus<'a>],
    /// The lanes for which datagrams wait or were dropped.
    pub parked: &'a [ParkedLane],
    /// The remote entities whose lanes don't fit the lanes here.
    pub hints: &'a [LaneHint],
    /// The number of the last event.
    pub events: u64,
    pub log: Option<LogStatus>,
    pub clients: usize,
    pub dropped_clients: u64,
    /// How many files were given to the store, and how many of them it did not keep.
    pub stores: (u64, u64),
    /// What is counted of transactions and files, if that is asked for, and the last file that the store was given.
    pub counts: Option<&'a StationCounts>,
    pub last_store: Option<StoreStatus>,
    /// Whether refusals show which PDU the last datagram was.
    pub explains: bool,
}

/// Adds a line for the entity, for the log, for each user, for each lane that has run a transaction, for each file of
/// the outbox, for each file being read or stored, for each lane for which datagrams are parked, for each remote
/// entity, for each kind of refusal, for each note on lanes, and for what is counted. The lanes' locks are taken one at
/// a time.
pub fn push_status<N: Names, R: Wait + Copy>(
    rt: &R,
    alloc: Global,
    text: &mut String,
    entity: &Entity<N, R>,
    ports: &mut [UserPort],
    shown: &Shown<'_>,
) -> Result<(), AllocError> {
    push_head(alloc, text, entity, shown)?;
    push_users(rt, alloc, text, entity, ports)?;
    for user in 0..entity.users() {
        push_lanes(rt, alloc, text, entity, user, shown)?;
    }
    push_outbox(alloc, text, entity.config(), shown.outgoing)?;
    push_readings(alloc, text, shown.readings)?;
    push_stores(alloc, text, shown.storing)?;
    push_parked_lanes(alloc, text, entity.config(), shown.parked)?;
    push_remotes(alloc, text, entity, shown)?;
    push_refusals(rt, alloc, text, shown.tallies, shown.explains)?;
    push_notes(alloc, text, shown.hints)?;
    push_counts(alloc, text, shown)
}

fn push_head<N: Names, R: Copy>(
    alloc: Global,
    text: &mut String,
    entity: &Entity<N, R>,
    shown: &Shown<'_>,
) -> Result<(), AllocError> {
    let status = EntityStatus {
        id: entity.config().entity().local,
        version: shown.version,
        started: shown.started,
        now: shown.now,
        workers: shown.tallies.workers.len(),
        clients: shown.clients,
        events: shown.events,
        counters: counters_of(shown),
    };
    push_entity(alloc, text, &status)?;
    match &shown.log {
        Some(log) => push_log(alloc, text, log),
        None => Ok(()),
    }
}

fn counters_of(shown: &Shown<'_>) -> Counters {
    let totals = shown.tallies.totals();
    let (calls, failures) = shown.stores;
    Counters {
        datagrams_in: totals.datagrams_in,
        octets_in: totals.octets_in,
        datagrams_out: totals.datagrams_out,
        octets_out: totals.octets_out,
        failed_sends: totals.failed_sends,
        failed_reads: totals.failed_reads,
        foreign_datagrams: totals.foreign_datagrams,
        decode_faults: totals.decode_faults,
        refused: shown.tallies.ledger.total(),
        stored: calls.saturating_sub(failures),
        failed_stores: failures,
        dropped_clients: shown.dropped_clients,
    }
}

fn push_users<N: Names, R: Wait + Copy>(
    rt: &R,
    alloc: Global,
    text: &mut String,
    entity: &Entity<N, R>,
    ports: &mut [UserPort],
) -> Result<(), AllocError> {
    for port in ports.iter_mut() {
        let user = UserStatus {
            name: entity.config().name_of(port.user()).unwrap_or(""),
            waiting: port.waiting(rt),
            capacity: port.room(),
        };
        push_user(alloc, text, &user)?;
    }
    Ok(())
}

// Adds a line for each lane of a user that has run a transaction.
fn push_lanes<N: Names, R: Wait + Copy>(
    rt: &R,
    alloc: Global,
    text: &mut String,
    entity: &Entity<N, R>,
    user: usize,
    shown: &Shown<'_>,
) -> Result<(), AllocError> {
    for lane in 0..lanes_of(entity.config(), user) {
        match entity.glance(rt, Place { user, lane }) {
            Ok(Some(glance)) => {
                let note = shown.notes.of(user, lane, glance.key);
                let transaction = TransactionStatus {
                    glance: &glance,
                    user: entity.config().name_of(user).unwrap_or(""),
                    lane,
                    last: note.last,
                    ending: if glance.has_ended { note.ending } else { None },
                    notice: notice_of(&glance, few_numbers(entity.config(), glance.key)),
                    missing: missing_in(shown, Place { user, lane }, &glance),
                };
                push_transaction(alloc, text, &transaction)?;
            }
            Ok(None) => {}
            Err(_) => return Err(AllocError),
        }
    }
    Ok(())
}

// The number from which on a lane has few left: a thousand rounds before the greatest that its sequence numbers can
// tell apart, or an eighth before it if that is less.
fn few_numbers(config: &Config, key: TxnKey) -> u64 {
    let entity = config.entity();
    if key.source != entity.local {
        return u64::MAX - FEW_ROUNDS * WIDEST_ROUND;
    }
    let greatest = match 256u64.checked_pow(u32::from(entity.lengths.sequence_octets)) {
        Some(numbers) => numbers.saturating_sub(1),
        None => u64::MAX,
    };
    let width = (config.users() as u64).saturating_mul(entity.put_lanes as u64);
    greatest - FEW_ROUNDS.saturating_mul(width).min(greatest / 8)
}

// The notice on a lane for the operator, if there is one.
fn notice_of(glance: &Glance, few_numbers: u64) -> Option<Notice> {
    if !glance.has_ended && glance.entries >= JOURNAL_ENTRIES - JOURNAL_ENTRIES_KEPT {
        Some(Notice::JournalFull)
    } else if glance.key.seq >= few_numbers {
        Some(Notice::LastNumbers)
    } else {
        None
    }
}

/// Adds a line for each file that waits.
pub fn push_outbox(
    alloc: Global,
    text: &mut String,
    config: &Config,
    outgoing: &Outgoing,
) -> Result<(), AllocError> {
    if let Some(waiting) = outgoing.reading() {
        push_waiting(alloc, text, config, waiting)?;
    }
    for waiting in outgoing.returned() {
        push_waiting(alloc, text, config, waiting)?;
    }
    for waiting in outgoing.waiting() {
        push_waiting(alloc, text, config, waiting)?;
    }
    Ok(())
}

fn push_waiting(
    alloc: Global,
    text: &mut String,
    config: &Config,
    waiting: &Waiting,
) -> Result<(), AllocError> {
    let file = &waiting.file;
    let queued = QueuedStatus {
        number: waiting.number,
        user: config.name_of(waiting.user).unwrap_or(""),
        class: file.class,
        destination: file.destination,
        file: file.source.as_slice(),
        to: file.destination_name.as_slice(),
        since: Moment(file.since),
    };
    push_queued(alloc, text, &queued)
}

fn push_readings(alloc: Global, text: &mut String, readings: &[Reading]) -> Result<(), AllocError> {
    for reading in readings {
        let status = ReadingStatus {
            file: reading.path.as_slice(),
            since: Moment(reading.since),
        };
        push_reading(alloc, text, &status)?;
    }
    Ok(())
}

fn push_stores(
    alloc: Global,
    text: &mut String,
    storing: &[StoringStatus<'_>],
) -> Result<(), AllocError> {
    for status in storing {
        push_storing(alloc, text, status)?;
    }
    Ok(())
}

fn push_parked_lanes(
    alloc: Global,
    text: &mut String,
    config: &Config,
    parked: &[ParkedLane],
) -> Result<(), AllocError> {
    for lane in parked {
        let status = ParkedStatus {
            user: config.name_of(lane.place.user).unwrap_or(""),
            lane: lane.place.lane,
            datagrams: lane.datagrams,
            transactions: lane.transactions,
            octets: lane.octets,
            dropped: lane.dropped,
            since: lane.since.map(Moment),
        };
        push_parked(alloc, text, &status)?;
    }
    Ok(())
}

fn push_remotes<N: Names, R: Copy>(
    alloc: Global,
    text: &mut String,
    entity: &Entity<N, R>,
    shown: &Shown<'_>,
) -> Result<(), AllocError> {
    let (config, tallies) = (entity.config(), shown.tallies);
    for place in 0..config.remotes() {
        let Some(remote) = config.remote_at(place) else {
            break;
        };
        let totals = tallies.remote_totals(place);
        let status = RemoteStatus {
            id: remote.id,
            address: config.address_of(remote.id),
            held_since: tallies.links.held_since(place).map(Moment),
            open_until: open_until(shown, remote.id),
            rate: rate_of(shown, place),
            datagrams_in: totals.datagrams_in,
            octets_in: totals.octets_in,
            datagrams_out: totals.datagrams_out,
            octets_out: totals.octets_out,
            failed_sends: totals.failed_sends,
            heard: heard_at(tallies, place, shown.now),
        };
        push_remote(alloc, text, &status)?;
    }
    Ok(())
}

// Until when the link to a remote entity is open by the wall clock, if it is open only for a time.
fn open_until(shown: &Shown<'_>, remote: EntityId) -> Option<Moment> {
    let until = shown.windows.until(remote)?;
    let left = until.saturating_sub(shown.clock);
    Some(Moment(shown.now.0.saturating_add(left)))
}

// The limit that holds for the link to the remote entity at a place.
fn rate_of(shown: &Shown<'_>, place: usize) -> Option<u64> {
    match shown.tallies.links.rate(place) {
        Some(rate) => Some(rate),
        None => shown.rate_of_rest,
    }
}

fn push_refusals<R: Wait>(
    rt: &R,
    alloc: Global,
    text: &mut String,
    tallies: &Tallies,
    explains: bool,
) -> Result<(), AllocError> {
    for case in &tallies.ledger.cases(rt, alloc)? {
        let origin = origin_of(alloc, case)?;
        let shown = refused_case(case, &origin, case.count);
        let pdu = if explains { refused_pdu(&shown) } else { None };
        push_refusal(alloc, text, &shown, Moment(case.last), pdu)?;
    }
    Ok(())
}

fn push_notes(alloc: Global, text: &mut String, hints: &[LaneHint]) -> Result<(), AllocError> {
    for hint in hints {
        let note = NoteStatus {
            remote: hint.remote,
            sending_lanes: hint.sending,
            receiving_lanes: hint.receiving,
            better: hint.better.as_slice(),
        };
        push_note(alloc, text, &note)?;
    }
    Ok(())
}
