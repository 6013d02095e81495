//! The tables of a status.
use crate::columns::Column::{Left, Right};
use crate::parts::Part;
use crate::parts::Part::{
    Age, Bar, Condition, Direction, End, Held, Meaning, Name, Names, Number, Octets, Percent, Rate,
    SomeNumber, SomeNumbers, SomeOctets, SomeText, Text, Words,
};
use station_names::{kind, member};

/// A column of a table: its head, and the parts of its cells.
#[derive(Clone, Copy)]
pub(crate) enum Column {
    /// Words, aligned left.
    Left(&'static str, &'static [Part]),
    /// Numbers, aligned right.
    Right(&'static str, &'static [Part]),
}

impl Column {
    /// The column's head.
    pub(crate) fn head(&self) -> &'static str {
        match self {
            Left(head, _) | Right(head, _) => head,
        }
    }

    /// The parts of the column's cells.
    pub(crate) fn parts(&self) -> &'static [Part] {
        match self {
            Left(_, parts) | Right(_, parts) => parts,
        }
    }

    /// Whether the column's cells are aligned right.
    pub(crate) fn is_right(&self) -> bool {
        matches!(self, Right(_, _))
    }
}

/// The lines for which a table has a row.
#[derive(Clone, Copy, PartialEq, Eq)]
pub(crate) enum Rows<'a> {
    /// Each line of this kind, except transactions that have ended.
    Of(&'a str),
    /// Each transaction that has ended.
    Ended,
}

/// A table.
#[derive(Clone, Copy)]
pub(crate) struct Layout {
    pub(crate) rows: Rows<'static>,
    pub(crate) title: &'static str,
    pub(crate) columns: &'static [Column],
}

// Columns that several tables have.
const TRANSACTION: Column = Left(
    "transaction",
    &[
        Number(member::SOURCE, "?"),
        Words("."),
        Number(member::SEQ, "?"),
    ],
);

const USER: Column = Left("user", &[Text(member::USER, "?")]);

const PEER: Column = Left("peer", &[Direction, Number(member::PEER, "?")]);

const FILE: Column = Left("file", &[Names, SomeText(" (", member::NOTICE, ")")]);

/// The tables, in the order in which they are shown.
pub(crate) const LAYOUTS: [Layout; 12] = [
    Layout {
        rows: Rows::Of(kind::USER),
        title: "Users",
        columns: &[
            Right("waiting", &[Number(member::WAITING, "-")]),
            Right("of", &[Number(member::CAPACITY, "-")]),
            Left("user", &[Text(member::NAME, "?")]),
        ],
    },
    Layout {
        rows: Rows::Of(kind::TRANSACTION),
        title: "Active",
        columns: &[
            TRANSACTION,
            USER,
            PEER,
            Left("state", &[Text(member::STATE, "?")]),
            Left("progress", &[Bar]),
            Right("", &[Percent]),
            Right(
                "octets",
                &[
                    Octets(member::OCTETS, "0 B"),
                    SomeOctets(", lacks ", member::MISSING),
                ],
            ),
            Right("rate", &[Rate]),
            Right("last event", &[Age]),
            FILE,
        ],
    },
    Layout {
        rows: Rows::Of(kind::QUEUED),
        title: "Outbox",
        columns: &[
            Right("number", &[Number(member::NUMBER, "-")]),
            USER,
            Right("to", &[Number(member::DESTINATION, "-")]),
            Right("class", &[Number(member::CLASS, "-")]),
            Left("since", &[Text(member::SINCE, "?")]),
            Left("file", &[Names]),
        ],
    },
    Layout {
        rows: Rows::Of(kind::READING),
        title: "Reading",
        columns: &[
            Left("since", &[Text(member::SINCE, "?")]),
            Left("file", &[Name(member::FILE)]),
        ],
    },
    Layout {
        rows: Rows::Of(kind::STORING),
        title: "Storing",
        columns: &[
            TRANSACTION,
            Left("since", &[Text(member::SINCE, "?")]),
            Left("hindered by", &[Text(member::WHY, "-")]),
        ],
    },
    Layout {
        rows: Rows::Of(kind::PARKED),
        title: "Parked",
        columns: &[
            USER,
            Right("lane", &[Number(member::LANE, "-")]),
            Right("datagrams", &[Number(member::DATAGRAMS, "-")]),
            Right("transactions", &[Number(member::TRANSACTIONS, "-")]),
            Right("octets", &[Octets(member::OCTETS, "-")]),
            Right("dropped", &[Number(member::DROPPED, "-")]),
            Left("since", &[Text(member::SINCE, "-")]),
        ],
    },
    Layout {
        rows: Rows::Ended,
        title: "Ended",
        columns: &[
            TRANSACTION,
            USER,
            PEER,
            Right("size", &[Octets(member::SIZE, "-")]),
            Left("end", &[End]),
            FILE,
        ],
    },
    Layout {
        rows: Rows::Of(kind::REMOTE),
        title: "Remotes",
        columns: &[
            Right("entity", &[Number(member::ID, "-")]),
            Right("in", &[Number(member::DATAGRAMS_IN, "-")]),
            Right("octets in", &[Octets(member::OCTETS_IN, "-")]),
            Right("out", &[Number(member::DATAGRAMS_OUT, "-")]),
            Right("octets out", &[Octets(member::OCTETS_OUT, "-")]),
            Right("failed", &[Number(member::FAILED_SENDS, "-")]),
            Left(
                "link",
                &[
                    Text(member::ADDRESS, "no address"),
                    Held,
                    SomeNumber(", at most ", member::RATE, " octets a second"),
                    SomeText(", heard ", member::HEARD, ""),
                ],
            ),
        ],
    },
    Layout {
        rows: Rows::Of(kind::REFUSAL),
        title: "Refusals",
        columns: &[
            Right("count", &[Number(member::COUNT, "-")]),
            Left(
                "refusal",
                &[
                    Number(member::NUMBER, "?"),
                    Words(" "),
                    Text(member::NAME, "?"),
                    SomeNumber(" ", member::FAULT, ""),
                    SomeText(", ", member::PDU, ""),
                    SomeNumber(" of ", member::SOURCE, ""),
                    SomeNumber(".", member::SEQ, ""),
                ],
            ),
            Left("last", &[Text(member::LAST, "-")]),
            Left("from", &[Text(member::FROM, "-")]),
            Left("meaning", &[Meaning("")]),
        ],
    },
    Layout {
        rows: Rows::Of(kind::ENDED),
        title: "Ends",
        columns: &[
            Right("count", &[Number(member::COUNT, "-")]),
            Left("role", &[Text(member::ROLE, "?")]),
            Right("class", &[Number(member::CLASS, "-")]),
            Left("condition", &[Condition]),
        ],
    },
    Layout {
        rows: Rows::Of(kind::DELIVERED),
        title: "Delivered",
        columns: &[
            Right("files", &[Number(member::FILES, "-")]),
            Right("octets", &[Octets(member::OCTETS, "-")]),
            Left("role", &[Text(member::ROLE, "?")]),
        ],
    },
    Layout {
        rows: Rows::Of(kind::STORE),
        title: "Last store",
        columns: &[
            TRANSACTION,
            Right("microseconds", &[Number(member::MICROSECONDS, "-")]),
            Left("at", &[Text(member::AT, "?")]),
            Left("why not kept", &[SomeText("", member::WHY, "")]),
        ],
    },
];

/// The line of the entity, above the tables.
pub(crate) const ENTITY: [Part; 8] = [
    Words("Entity "),
    Number(member::ID, "?"),
    Words(", cfdp_server "),
    Text(member::VERSION, "?"),
    Words(", since "),
    Text(member::STARTED, "?"),
    Words(", now "),
    Text(member::NOW, "?"),
];

/// The line of a log that fails.
pub(crate) const FAILING_LOG: [Part; 2] = [
    Words("The log can't be written; events lost: "),
    Number(member::LOST, "?"),
];

/// The line of a note on a remote entity's lanes.
pub(crate) const NOTE: [Part; 9] = [
    Words("Note: "),
    Number(member::SENDING_LANES, "?"),
    Words(" sending lanes don't divide the "),
    Number(member::RECEIVING_LANES, "?"),
    Words(" receiving lanes of entity "),
    Number(member::REMOTE, "?"),
    Words(", so files wait for each other"),
    SomeNumbers("; ", member::BETTER, " would not"),
    Words("."),
];
