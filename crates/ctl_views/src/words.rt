//! The words for each event.
use crate::parts::Part;
use crate::parts::Part::{
    Condition, End, Meaning, Name, Names, Number, SomeNumber, SomeOctets, SomeText, Text, Words,
};
use station_names::{kind, member};

/// The words for an indication of this name, if it is known.
pub(crate) fn indication_words(name: &str) -> Option<&'static [Part]> {
    let parts: &'static [Part] = match name {
        "Transaction" => &[Words("begun")],
        "EOF-Sent" => &[Words("EOF sent")],
        "EOF-Recv" => &[Words("EOF received")],
        "Metadata-Recv" => &[
            Words("metadata received: "),
            Names,
            SomeOctets(", ", member::SIZE),
        ],
        "File-Segment-Recv" => &[
            Words("segment received: "),
            Number(member::LENGTH, "?"),
            Words(" octets at "),
            Number(member::OFFSET, "?"),
        ],
        "Suspended" => &[Words("suspended: "), Condition],
        "Resumed" => &[Words("resumed at octet "), Number(member::PROGRESS, "?")],
        "Report" => &[
            Words("report: "),
            Text(member::PHASE, "?"),
            Words(", octets "),
            Number(member::PROGRESS, "?"),
        ],
        "Fault" => &[Words("fault: "), Condition],
        "Abandoned" => &[Words("abandoned: "), Condition],
        "Transaction-Finished" => &[Words("finished: "), End],
        _ => return None,
    };
    Some(parts)
}

/// The words for any other event of this kind, if it is known.
pub(crate) fn event_words(name: &str) -> Option<&'static [Part]> {
    let parts = match name {
        kind::START => START,
        kind::END => END,
        kind::PUT => PUT,
        kind::STORED => STORED,
        kind::UNSENT => UNSENT,
        kind::HOLD => HOLD,
        kind::RELEASE => RELEASE,
        kind::UNPARKED => UNPARKED,
        kind::COMMAND => COMMAND,
        kind::SKIPPED => SKIPPED,
        kind::REFUSED => REFUSED,
        kind::JOURNAL_FULL => JOURNAL_FULL,
        _ => return None,
    };
    Some(parts)
}

// The words for each kind of event.
const START: &[Part] = &[
    Words("the server starts as entity "),
    Number(member::ID, "?"),
];

const END: &[Part] = &[Words("the server ends")];

const PUT: &[Part] = &[
    Words("put: "),
    Names,
    SomeOctets(", ", member::SIZE),
    Words(", for entity "),
    Number(member::PEER, "?"),
    Words(" in class "),
    Number(member::CLASS, "?"),
    SomeNumber(", file ", member::QUEUED, " of the outbox"),
];

const STORED: &[Part] = &[
    Words("file "),
    Text(member::STATUS, "?"),
    SomeText(": ", member::WHY, ""),
];

const UNSENT: &[Part] = &[
    Words("file "),
    Number(member::QUEUED, "?"),
    Words(" of the outbox is not sent: "),
    Name(member::FILE),
    Words(", for entity "),
    Number(member::DESTINATION, "?"),
    Words(": "),
    Text(member::WHY, "?"),
    SomeText(" (", member::REASON, ")"),
];

const HOLD: &[Part] = &[
    Words("the link to entity "),
    Number(member::ID, "?"),
    Words(" is held"),
];

const RELEASE: &[Part] = &[
    Words("the link to entity "),
    Number(member::ID, "?"),
    Words(" is released"),
];

const UNPARKED: &[Part] = &[
    Words("parked datagrams dropped for want of room: "),
    Number(member::COUNT, "?"),
];

const COMMAND: &[Part] = &[
    Words("command "),
    Text(member::WORDS, "?"),
    Words(": "),
    Text(member::ANSWER, "?"),
    SomeText(" (", member::REASON, ")"),
    Words(", from "),
    Text(member::BY, "?"),
    SomeNumber(" at seat ", member::SEAT, ""),
];

const SKIPPED: &[Part] = &[
    Words("transaction numbers skipped toward entity "),
    Number(member::DESTINATION, "?"),
    Words(": "),
    Number(member::COUNT, "?"),
    SomeNumber(", the next one is ", member::NEXT, ""),
];

const REFUSED: &[Part] = &[
    Words("refused: "),
    Text(member::NAME, "?"),
    SomeNumber(" ", member::FAULT, ""),
    SomeNumber(", times ", member::COUNT, ""),
    SomeText(", from ", member::FROM, ""),
    Meaning(": "),
];

const JOURNAL_FULL: &[Part] = &[Words("abandoned: its journal is full")];
