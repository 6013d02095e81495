//! The keys of a station's file, beside those of the entity.
use cfdp_types::limits::RECEIVING_LANES;
use std::alloc::AllocError;

// The greatest rate, in octets a second.
const MOST_OCTETS_A_SECOND: u64 = 1_000_000_000;

/// What the value of a key may be, and what stands for it where the key is absent.
#[derive(Clone, Copy)]
pub enum Kind {
    /// `A.B.C.D:PORT`; the key has to be there.
    Address,
    /// A path; the key has to be there.
    Path,
    /// A path, if the key is there.
    Perhaps,
    /// A path, or `false` for none; by default the store's folder with the row's word as its ending.
    Beside,
    Number {
        least: u64,
        most: u64,
        otherwise: u64,
    },
    Truth {
        otherwise: bool,
    },
    /// One of the row's words, the first one by default.
    Word,
    /// `flat`, `tree` or `by-source`, or a list of the last two; `flat` by default.
    Layout,
    /// A number from 1 to this one, or `none`; by default as many as this entity has.
    Lanes {
        most: u64,
    },
}

/// A key of a station's file: the table that it is in, its name, what its value may be, the words of its kind, and what
/// it is for, as the manual says it.
pub type KeyRow = (
    &'static str,
    &'static str,
    Kind,
    &'static [&'static str],
    &'static str,
);

/// The keys of a station's own tables, table by table, in the order in which they are read.
pub const KEYS: [KeyRow; 23] = [
    BIND,
    WORKERS,
    PARK,
    HOLD,
    SOURCES,
    ABANDON_FULL,
    FOLDER,
    LAYOUT,
    EXISTING,
    RETRY,
    NUMBERS,
    OUTBOX,
    OUTBOX_REPAIR,
    RATE,
    SOCKET,
    MODE,
    STATUS_SOCKET,
    LOG_FILE,
    LOG_LEVEL,
    LOG_COMMANDS,
    RECORD_FOLDER,
    RECORD_WHICH,
    RECORD_MOST,
];

/// The keys of a station in each table `[[remote]]`, beside those of the entity.
pub const REMOTE_KEYS: [KeyRow; 3] = [PEER_RATE, PEER_LANES, PEER_HELD];

pub const BIND: KeyRow = (
    "station",
    "bind",
    Kind::Address,
    &[],
    "where the station listens for datagrams",
);

pub const WORKERS: KeyRow = (
    "station",
    "workers",
    Kind::Number {
        least: 1,
        most: 16,
        otherwise: 4,
    },
    &[],
    "threads that take datagrams",
);

pub const PARK: KeyRow = (
    "station",
    "park",
    Kind::Number {
        least: 0,
        most: 1_000_000_000_000,
        otherwise: 64_000_000,
    },
    &[],
    "octets of datagrams that a busy lane can't take yet and that are kept; 0: none",
);

pub const HOLD: KeyRow = (
    "station",
    "hold",
    Kind::Truth { otherwise: false },
    &[],
    "sends nothing to any remote entity until `release`",
);

pub const SOURCES: KeyRow = (
    "station",
    "sources",
    Kind::Word,
    &["any", "hosts", "known", "own"],
    "whose datagrams are taken: anybody's, those of hosts in the file from any port, those of addresses in the file, or PDUs from the address of their own entity alone",
);

pub const ABANDON_FULL: KeyRow = (
    "station",
    "abandon_full",
    Kind::Truth { otherwise: false },
    &[],
    "abandons each transaction whose journal is full: it could not end by itself",
);

pub const FOLDER: KeyRow = (
    "store",
    "folder",
    Kind::Path,
    &[],
    "where received files are kept; made at the start",
);

pub const LAYOUT: KeyRow = (
    "store",
    "layout",
    Kind::Layout,
    &[],
    "whether slashes in a received file's name lead into folders (`tree`), and whether each source's files are kept in a folder named by its ID (`by-source`)",
);

pub const EXISTING: KeyRow = (
    "store",
    "existing",
    Kind::Word,
    &["replace", "keep"],
    "what becomes of an existing file of the same name; with `keep` the new one gets `.1`, `.2` .. appended",
);

pub const RETRY: KeyRow = (
    "store",
    "retry_s",
    Kind::Number {
        least: 0,
        most: 86_400,
        otherwise: 0,
    },
    &[],
    "for how many seconds storing a received file is retried; 0: one attempt",
);

pub const NUMBERS: KeyRow = (
    "sending",
    "numbers",
    Kind::Beside,
    &[".numbers"],
    "the file that keeps where the numbers of the next run begin",
);

pub const OUTBOX: KeyRow = (
    "sending",
    "outbox",
    Kind::Beside,
    &[".outbox"],
    "the file that keeps what waits in the outbox and what is under way from there",
);

pub const OUTBOX_REPAIR: KeyRow = (
    "sending",
    "outbox_repair",
    Kind::Truth { otherwise: false },
    &[],
    "goes on without the lines of that file that can't be parsed; a copy of it is kept beside it, with `.bad` appended",
);

pub const RATE: KeyRow = (
    "sending",
    "rate",
    Kind::Number {
        least: 0,
        most: MOST_OCTETS_A_SECOND,
        otherwise: 0,
    },
    &[],
    "octets of files a second to all remote entities without a rate of their own; 0: no limit",
);

pub const SOCKET: KeyRow = (
    "control",
    "socket",
    Kind::Path,
    &[],
    "the socket where clients command the station",
);

pub const MODE: KeyRow = (
    "control",
    "mode",
    Kind::Word,
    &["0600", "0660", "0666"],
    "the permissions of both sockets: their owner's, their group's, or everyone's",
);

pub const STATUS_SOCKET: KeyRow = (
    "control",
    "status_socket",
    Kind::Perhaps,
    &[],
    "a second socket, for clients that only look at the station",
);

pub const LOG_FILE: KeyRow = (
    "log",
    "file",
    Kind::Beside,
    &[".log"],
    "the file to which events are appended, a JSON object on each line",
);

pub const LOG_LEVEL: KeyRow = (
    "log",
    "level",
    Kind::Word,
    &["info", "detail", "warning"],
    "the level from which on events are appended there",
);

pub const LOG_COMMANDS: KeyRow = (
    "log",
    "commands",
    Kind::Truth { otherwise: true },
    &[],
    "reports each command that changes something as an event, and who gave it",
);

pub const RECORD_FOLDER: KeyRow = (
    "record",
    "folder",
    Kind::Perhaps,
    &[],
    "where the scripts of transactions are kept; made at the start",
);

pub const RECORD_WHICH: KeyRow = (
    "record",
    "which",
    Kind::Word,
    &["failed", "all"],
    "whose scripts are kept: those of transactions that failed, or all",
);

pub const RECORD_MOST: KeyRow = (
    "record",
    "most",
    Kind::Number {
        least: 1,
        most: 1_000_000,
        otherwise: 1_000,
    },
    &[],
    "how many scripts are kept; then the oldest are deleted",
);

pub const PEER_RATE: KeyRow = (
    "remote",
    "rate",
    Kind::Number {
        least: 0,
        most: MOST_OCTETS_A_SECOND,
        otherwise: 0,
    },
    &[],
    "octets of files a second to this entity; 0: it shares the rate of `[sending]`",
);

pub const PEER_LANES: KeyRow = (
    "remote",
    "lanes",
    Kind::Lanes {
        most: RECEIVING_LANES as u64,
    },
    &[],
    "receiving lanes that this entity has for the station; `\"none\"` if it takes any numbers",
);

pub const PEER_HELD: KeyRow = (
    "remote",
    "held",
    Kind::Truth { otherwise: false },
    &[],
    "sends nothing to this entity until `release`",
);

/// Adds what the value of a key may be.
pub fn push_allowed(text: &mut String, row: &KeyRow) -> Result<(), AllocError> {
    match row.2 {
        Kind::Address => text.push_str("\"A.B.C.D:PORT\", in decimal and without leading zeros"),
        Kind::Path | Kind::Perhaps => text.push_str("a path"),
        Kind::Beside => text.push_str("a path or false"),
        Kind::Number { least, most, .. } => write!(text, "a number from {least} to {most}"),
        Kind::Truth { .. } => text.push_str("true or false"),
        Kind::Word => push_words(text, row.3),
        Kind::Layout => text.push_str(
            "one of \"flat\", \"tree\", \"by-source\", or a list of the last two",
        ),
        Kind::Lanes { most } => write!(text, "a number from 1 to {most}, or \"none\""),
    }
}

fn push_words(text: &mut String, words: &[&str]) -> Result<(), AllocError> {
    let mut between = "one of ";
    for word in words {
        write!(text, "{between}\"{word}\"")?;
        between = ", ";
    }
    Ok(())
}
