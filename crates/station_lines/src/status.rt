//! The values that the lines of a status show.

use crate::moment::Moment;
use cfdp_types::{Class, Condition, Delivery, EntityId, FileStatus};
use indications::Side;
use lane_table::Glance;

/// The entity and its server.
#[derive(Clone, Copy, Debug)]
pub struct EntityStatus<'a> {
    pub id: EntityId,
    /// The server's version.
    pub version: &'a str,
    /// When the server started.
    pub started: Moment,
    /// When the status was requested.
    pub now: Moment,
    /// How many workers read the socket.
    pub workers: usize,
    /// How many clients are connected.
    pub clients: usize,
    /// The number of the last event.
    pub events: u64,
    pub counters: Counters,
}

/// What a server counts, since its start.
#[derive(Clone, Copy, Debug)]
pub struct Counters {
    /// Datagrams that were read from the socket.
    pub datagrams_in: u64,
    /// Their octets.
    pub octets_in: u64,
    /// Datagrams that were sent.
    pub datagrams_out: u64,
    /// Their octets.
    pub octets_out: u64,
    /// PDUs that the system didn't send, or that are for an entity without an address.
    pub failed_sends: u64,
    /// Reads from the socket that failed.
    pub failed_reads: u64,
    /// Datagrams from an address that isn't in the configuration.
    pub foreign_datagrams: u64,
    /// Datagrams that aren't PDUs.
    pub decode_faults: u64,
    /// Datagrams, commands and timers that the entity refused.
    pub refused: u64,
    /// Received files that the store kept.
    pub stored: u64,
    /// Received files that the store didn't keep.
    pub failed_stores: u64,
    /// Clients that were cut off because they didn't read.
    pub dropped_clients: u64,
}

/// The file that events are written to.
#[derive(Clone, Copy, Debug)]
pub struct LogStatus {
    /// Whether the file can't be written now.
    pub failing: bool,
    /// How many events were written.
    pub written: u64,
    /// How many events were lost because the file couldn't be written.
    pub lost: u64,
}

/// A user's queue.
#[derive(Clone, Copy, Debug)]
pub struct UserStatus<'a> {
    /// The user's name.
    pub name: &'a str,
    /// How many bundles wait.
    pub waiting: usize,
    /// How many bundles can wait.
    pub capacity: usize,
}

/// The transaction that a lane runs, or the last one that it ran.
#[derive(Clone, Copy, Debug)]
pub struct TransactionStatus<'a> {
    pub glance: &'a Glance,
    /// The name of its user.
    pub user: &'a str,
    /// The number of the user's lane.
    pub lane: usize,
    /// When its last indication was issued, if the server saw one.
    pub last: Option<Moment>,
    /// How it ended, if the server saw its end.
    pub ending: Option<Ending>,
    /// What an operator should know of the transaction or its lane, if anything.
    pub notice: Option<Notice>,
    /// How many octets a file being received lacks, if that is counted.
    pub missing: Option<u64>,
}

/// How a transaction ended.
#[derive(Clone, Copy, Debug)]
pub enum Ending {
    /// With this Transaction-Finished indication.
    Finished {
        condition: Condition,
        delivery: Delivery,
        status: FileStatus,
    },
    /// Abandoned, for this condition.
    Abandoned {
        condition: Condition,
    },
}

/// What an operator should know of a transaction or its lane.
#[derive(Clone, Copy, Debug)]
pub enum Notice {
    /// The lane takes no more events.
    JournalFull,
    /// The lane has few transaction numbers left.
    LastNumbers,
}

/// A file that waits in the outbox.
#[derive(Clone, Copy, Debug)]
pub struct QueuedStatus<'a> {
    /// The file's number in the outbox.
    pub number: u64,
    /// The name of the file's user.
    pub user: &'a str,
    pub class: Class,
    /// The remote entity that is to receive it.
    pub destination: EntityId,
    /// The path of the file here.
    pub file: &'a [u8],
    /// The destination file name.
    pub to: &'a [u8],
    /// When it was put in the outbox.
    pub since: Moment,
}

/// A file being read for a Put.
#[derive(Clone, Copy, Debug)]
pub struct ReadingStatus<'a> {
    /// Its path.
    pub file: &'a [u8],
    pub since: Moment,
}

/// A received file being stored, or one that couldn't be stored so far.
#[derive(Clone, Copy, Debug)]
pub struct StoringStatus<'a> {
    pub source: EntityId,
    pub seq: u64,
    /// Since when it is to be stored.
    pub since: Moment,
    /// What hindered the last try, in words, if it was tried.
    pub why: Option<&'a str>,
}

/// A lane for which datagrams wait, or were dropped.
#[derive(Clone, Copy, Debug)]
pub struct ParkedStatus<'a> {
    /// The name of its user.
    pub user: &'a str,
    /// The number of the user's lane.
    pub lane: usize,
    /// How many datagrams wait.
    pub datagrams: u64,
    /// How many transactions they belong to.
    pub transactions: u64,
    /// How many octets of the room they take up.
    pub octets: u64,
    /// How many datagrams were dropped for want of room or memory, since the server's start.
    pub dropped: u64,
    /// Since when the oldest waits, if one waits.
    pub since: Option<Moment>,
}

/// A remote entity.
#[derive(Clone, Copy, Debug)]
pub struct RemoteStatus<'a> {
    pub id: EntityId,
    /// Its address, if the configuration has one.
    pub address: Option<&'a str>,
    /// Since when nothing is sent to it, if it is held.
    pub held_since: Option<Moment>,
    /// Until when its link is open, if it is open only for a time.
    pub open_until: Option<Moment>,
    /// How many octets a second leave for it at most, if that is limited.
    pub rate: Option<u64>,
    /// Datagrams that came from its address.
    pub datagrams_in: u64,
    /// Their octets.
    pub octets_in: u64,
    /// Datagrams that were sent to it.
    pub datagrams_out: u64,
    /// Their octets.
    pub octets_out: u64,
    /// PDUs to it that weren't sent.
    pub failed_sends: u64,
    /// When it was heard last, if that is noted.
    pub heard: Option<Heard>,
}

/// When a remote entity was heard last: a datagram from its address was a PDU.
#[derive(Clone, Copy, Debug)]
pub struct Heard {
    pub at: Moment,
    /// How many milliseconds ago that was.
    pub silence: u64,
}

/// Transactions that ended in one way.
#[derive(Clone, Copy, Debug)]
pub struct EndedStatus {
    /// This end's role.
    pub end: Side,
    /// Their class, or 0 if the server doesn't know it.
    pub class: u8,
    pub condition: u8,
    /// How many there are.
    pub count: u64,
}

/// Files that came whole and were retained, in transactions in which this end has this role.
#[derive(Clone, Copy, Debug)]
pub struct DeliveredStatus {
    pub end: Side,
    pub files: u64,
    pub octets: u64,
}

/// The last received file that was given to the store.
#[derive(Clone, Copy, Debug)]
pub struct StoreStatus {
    pub source: EntityId,
    pub seq: u64,
    pub at: Moment,
    /// How long storing it took, in microseconds.
    pub microseconds: u64,
    /// Why it isn't kept, in words, if it isn't.
    pub why: Option<&'static str>,
}

/// A remote entity whose receiving lanes the sending lanes here don't divide, so files wait for each other.
#[derive(Clone, Copy, Debug)]
pub struct NoteStatus<'a> {
    pub remote: EntityId,
    /// How many lanes send, of all users together.
    pub sending_lanes: u64,
    /// How many lanes the remote entity has for what this entity sends.
    pub receiving_lanes: u64,
    /// Numbers of sending lanes with which files wouldn't wait.
    pub better: &'a [u64],
}
