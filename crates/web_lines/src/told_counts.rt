//! Families whose numbers are in the lines of a station that counts.
use crate::families::Family::{Counter, Gauge};
use crate::kind::Kind::{Delivered, Ended, Remote, Store, Transaction};
use crate::place::Place::Member;
use crate::told::Told;
use station_names::member;

/// The families of a station that counts.
pub(crate) const TOLD_COUNTS: [Told; 6] = [
    Told(
        Counter(
            "cfdp_ended_transactions_total",
            "Transactions that ended, by role, class and condition code.",
        ),
        Ended,
        Member(member::COUNT),
    ),
    Told(
        Counter(
            "cfdp_delivered_files_total",
            "Files that came whole and were retained.",
        ),
        Delivered,
        Member(member::FILES),
    ),
    Told(
        Counter("cfdp_delivered_bytes_total", "Octets of these files."),
        Delivered,
        Member(member::OCTETS),
    ),
    Told(
        Gauge(
            "cfdp_missing_bytes",
            "Octets that the file lacks which a lane receives.",
        ),
        Transaction,
        Member(member::MISSING),
    ),
    Told(
        Gauge(
            "cfdp_remote_silence_milliseconds",
            "How long ago a PDU came from a remote entity.",
        ),
        Remote,
        Member(member::SILENCE),
    ),
    Told(
        Gauge(
            "cfdp_last_store_microseconds",
            "How long storing the last received file took.",
        ),
        Store,
        Member(member::MICROSECONDS),
    ),
];
