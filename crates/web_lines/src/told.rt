//! Families whose numbers are in lines.
use crate::families::Family;
use crate::families::Family::{Counter, Gauge};
use crate::kind::Kind;
use crate::kind::Kind::{Entity, Log, Parked, Recorder, Refusal, Remote, User};
use crate::place::Place;
use crate::place::Place::{Counted, Known, Member, Truth};
use station_names::member;

/// A family, the kind of the lines that have its numbers, and where they are there.
#[derive(Clone, Copy, Debug)]
pub(crate) struct Told(pub(crate) Family, pub(crate) Kind, pub(crate) Place);

/// The families whose numbers are in lines.
pub(crate) const TOLD: [Told; 35] = [
    Told(
        Gauge(
            "cfdp_entity_info",
            "The entity by its number and version; always 1.",
        ),
        Entity,
        Known(member::VERSION),
    ),
    Told(
        Gauge("cfdp_workers", "Threads that work on transactions."),
        Entity,
        Member(member::WORKERS),
    ),
    Told(
        Gauge("cfdp_control_clients", "Clients of the control socket."),
        Entity,
        Member(member::CLIENTS),
    ),
    Told(
        Counter("cfdp_events_total", "Events since the start."),
        Entity,
        Member(member::EVENTS),
    ),
    Told(
        Counter(
            "cfdp_datagrams_received_total",
            "Datagrams read from the socket.",
        ),
        Entity,
        Counted(member::DATAGRAMS_IN),
    ),
    Told(
        Counter("cfdp_received_bytes_total", "Octets read from the socket."),
        Entity,
        Counted(member::OCTETS_IN),
    ),
    Told(
        Counter("cfdp_datagrams_sent_total", "Datagrams sent."),
        Entity,
        Counted(member::DATAGRAMS_OUT),
    ),
    Told(
        Counter("cfdp_sent_bytes_total", "Octets sent."),
        Entity,
        Counted(member::OCTETS_OUT),
    ),
    Told(
        Counter("cfdp_failed_sends_total", "PDUs that were not sent."),
        Entity,
        Counted(member::FAILED_SENDS),
    ),
    Told(
        Counter(
            "cfdp_failed_reads_total",
            "Reads from the socket that failed.",
        ),
        Entity,
        Counted(member::FAILED_READS),
    ),
    Told(
        Counter(
            "cfdp_foreign_datagrams_total",
            "Datagrams from addresses that the configuration does not have.",
        ),
        Entity,
        Counted(member::FOREIGN_DATAGRAMS),
    ),
    Told(
        Counter("cfdp_decode_faults_total", "Datagrams that are no PDU."),
        Entity,
        Counted(member::DECODE_FAULTS),
    ),
    Told(
        Counter(
            "cfdp_refusals_total",
            "Datagrams, commands and timers that the entity refused.",
        ),
        Entity,
        Counted(member::REFUSED),
    ),
    Told(
        Counter(
            "cfdp_stored_files_total",
            "Received files that the store kept.",
        ),
        Entity,
        Counted(member::STORED),
    ),
    Told(
        Counter(
            "cfdp_failed_stores_total",
            "Received files that the store did not keep.",
        ),
        Entity,
        Counted(member::FAILED_STORES),
    ),
    Told(
        Counter(
            "cfdp_dropped_clients_total",
            "Clients of the control socket that were cut because they did not read.",
        ),
        Entity,
        Counted(member::DROPPED_CLIENTS),
    ),
    Told(
        Gauge("cfdp_log_failing", "Whether events do not reach the log."),
        Log,
        Truth(member::FAILING),
    ),
    Told(
        Counter(
            "cfdp_log_events_written_total",
            "Events written to the log.",
        ),
        Log,
        Member(member::WRITTEN),
    ),
    Told(
        Counter(
            "cfdp_log_events_lost_total",
            "Events lost because the log could not be written.",
        ),
        Log,
        Member(member::LOST),
    ),
    Told(
        Gauge("cfdp_queue_bundles", "Bundles that wait in a user's queue."),
        User,
        Member(member::WAITING),
    ),
    Told(
        Gauge(
            "cfdp_queue_capacity_bundles",
            "Bundles that a user's queue can hold.",
        ),
        User,
        Member(member::CAPACITY),
    ),
    Told(
        Gauge(
            "cfdp_parked_datagrams",
            "Datagrams that wait until their lane can take them.",
        ),
        Parked,
        Member(member::DATAGRAMS),
    ),
    Told(
        Gauge(
            "cfdp_parked_transactions",
            "Transactions of which datagrams wait for a lane.",
        ),
        Parked,
        Member(member::TRANSACTIONS),
    ),
    Told(
        Gauge(
            "cfdp_parked_octets",
            "Room that the datagrams that wait for a lane take up.",
        ),
        Parked,
        Member(member::OCTETS),
    ),
    Told(
        Counter(
            "cfdp_parked_dropped_total",
            "Datagrams for a lane that were dropped for want of room.",
        ),
        Parked,
        Member(member::DROPPED),
    ),
    Told(
        Gauge(
            "cfdp_remote_held",
            "Whether sending to a remote entity is held.",
        ),
        Remote,
        Truth(member::HELD),
    ),
    Told(
        Counter(
            "cfdp_remote_datagrams_received_total",
            "Datagrams from a remote entity.",
        ),
        Remote,
        Member(member::DATAGRAMS_IN),
    ),
    Told(
        Counter(
            "cfdp_remote_received_bytes_total",
            "Octets from a remote entity.",
        ),
        Remote,
        Member(member::OCTETS_IN),
    ),
    Told(
        Counter(
            "cfdp_remote_datagrams_sent_total",
            "Datagrams to a remote entity.",
        ),
        Remote,
        Member(member::DATAGRAMS_OUT),
    ),
    Told(
        Counter("cfdp_remote_sent_bytes_total", "Octets to a remote entity."),
        Remote,
        Member(member::OCTETS_OUT),
    ),
    Told(
        Counter(
            "cfdp_remote_failed_sends_total",
            "PDUs for a remote entity that were not sent.",
        ),
        Remote,
        Member(member::FAILED_SENDS),
    ),
    Told(
        Counter("cfdp_refused_datagrams_total", "Refusals by reason."),
        Refusal,
        Member(member::COUNT),
    ),
    Told(
        Counter(
            "cfdp_recordings_kept_total",
            "Recordings that were written.",
        ),
        Recorder,
        Member(member::KEPT),
    ),
    Told(
        Counter(
            "cfdp_recordings_missed_total",
            "Transactions that were not recorded because their journal was gone.",
        ),
        Recorder,
        Member(member::MISSED),
    ),
    Told(
        Counter(
            "cfdp_recordings_failed_total",
            "Recordings that could not be made or written.",
        ),
        Recorder,
        Member(member::FAILED),
    ),
];
