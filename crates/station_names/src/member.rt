//! The names of members, grouped by the lines that had them first. Other lines have some of them too.

// what each line begins with, and what each event begins with
pub const KIND: &str = "kind";

pub const AT: &str = "at";

pub const NUMBER: &str = "number";

// the entity
pub const ID: &str = "id";

pub const VERSION: &str = "version";

pub const STARTED: &str = "started";

pub const NOW: &str = "now";

pub const WORKERS: &str = "workers";

pub const CLIENTS: &str = "clients";

pub const EVENTS: &str = "events";

pub const COUNTERS: &str = "counters";

// its counters, some of which a remote entity's line has too
pub const DATAGRAMS_IN: &str = "datagrams_in";

pub const OCTETS_IN: &str = "octets_in";

pub const DATAGRAMS_OUT: &str = "datagrams_out";

pub const OCTETS_OUT: &str = "octets_out";

pub const FAILED_SENDS: &str = "failed_sends";

pub const FAILED_READS: &str = "failed_reads";

pub const FOREIGN_DATAGRAMS: &str = "foreign_datagrams";

pub const DECODE_FAULTS: &str = "decode_faults";

pub const REFUSED: &str = "refused";

pub const STORED: &str = "stored";

pub const FAILED_STORES: &str = "failed_stores";

pub const DROPPED_CLIENTS: &str = "dropped_clients";

// the log
pub const FAILING: &str = "failing";

pub const WRITTEN: &str = "written";

pub const LOST: &str = "lost";

// a user and its queue
pub const NAME: &str = "name";

pub const WAITING: &str = "waiting";

pub const CAPACITY: &str = "capacity";

// a transaction, its lane and its state
pub const SOURCE: &str = "source";

pub const SEQ: &str = "seq";

pub const USER: &str = "user";

pub const LANE: &str = "lane";

pub const ROLE: &str = "role";

pub const PEER: &str = "peer";

pub const CLASS: &str = "class";

pub const STATE: &str = "state";

pub const LAST: &str = "last";

pub const NOTICE: &str = "notice";

pub const MISSING: &str = "missing";

// how a transaction or a file ended
pub const CONDITION: &str = "condition";

pub const DELIVERY: &str = "delivery";

pub const STATUS: &str = "status";

// a file, its names and its size
pub const FILE: &str = "file";

pub const TO: &str = "to";

pub const SIZE: &str = "size";

pub const OCTETS: &str = "octets";

pub const ORIGIN: &str = "origin";

pub const MESSAGES: &str = "messages";

pub const AS: &str = "as";

// what waits, and since when
pub const QUEUED: &str = "queued";

pub const DESTINATION: &str = "destination";

pub const SINCE: &str = "since";

pub const WHY: &str = "why";

pub const REASON: &str = "reason";

// datagrams for a lane that is busy
pub const DATAGRAMS: &str = "datagrams";

pub const TRANSACTIONS: &str = "transactions";

pub const DROPPED: &str = "dropped";

// a remote entity, and its link
pub const REMOTE: &str = "remote";

pub const ADDRESS: &str = "address";

pub const HELD: &str = "held";

pub const HELD_SINCE: &str = "held_since";

pub const OPEN_UNTIL: &str = "open_until";

pub const RATE: &str = "rate";

pub const HEARD: &str = "heard";

pub const SILENCE: &str = "silence";

pub const PLANNED: &str = "planned";

// lanes that don't fit those of a remote entity
pub const SENDING_LANES: &str = "sending_lanes";

pub const RECEIVING_LANES: &str = "receiving_lanes";

pub const BETTER: &str = "better";

// refusals and their datagrams
pub const REFUSAL: &str = "refusal";

pub const FAULT: &str = "fault";

pub const COUNT: &str = "count";

pub const FROM: &str = "from";

pub const PDU: &str = "pdu";

// the recordings of transactions
pub const KEPT: &str = "kept";

pub const MISSED: &str = "missed";

pub const FAILED: &str = "failed";

// what a server counts, if it is asked to
pub const FILES: &str = "files";

pub const MICROSECONDS: &str = "microseconds";

// an indication
pub const OFFSET: &str = "offset";

pub const LENGTH: &str = "length";

pub const PROGRESS: &str = "progress";

pub const PHASE: &str = "phase";

// a command and who gave it
pub const WORDS: &str = "words";

pub const ANSWER: &str = "answer";

pub const BY: &str = "by";

pub const SEAT: &str = "seat";

// transaction numbers that were skipped
pub const NEXT: &str = "next";

// endings of a name: for a number that many readers would round, as text; for octets that aren't UTF-8, in hex
pub const TEXT_ENDING: &str = "_text";

pub const HEX_ENDING: &str = "_hex";
