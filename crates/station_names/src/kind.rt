//! The kinds of lines: the values of the member `kind`.

// of the lines of a status
pub const ENTITY: &str = "entity";

pub const LOG: &str = "log";

pub const USER: &str = "user";

pub const TRANSACTION: &str = "transaction";

pub const QUEUED: &str = "queued";

pub const READING: &str = "reading";

pub const STORING: &str = "storing";

pub const PARKED: &str = "parked";

pub const REMOTE: &str = "remote";

pub const REFUSAL: &str = "refusal";

pub const NOTE: &str = "note";

pub const RECORDER: &str = "recorder";

// of the lines that show what a server counts, if it is asked to
pub const ENDED: &str = "ended";

pub const DELIVERED: &str = "delivered";

pub const STORE: &str = "store";

// of events
pub const START: &str = "start";

pub const END: &str = "end";

pub const INDICATION: &str = "indication";

pub const PUT: &str = "put";

pub const UNSENT: &str = "unsent";

pub const STORED: &str = "stored";

pub const REFUSED: &str = "refused";

pub const HOLD: &str = "hold";

pub const RELEASE: &str = "release";

pub const COMMAND: &str = "command";

pub const UNPARKED: &str = "unparked";

pub const SKIPPED: &str = "skipped";

pub const JOURNAL_FULL: &str = "journal-full";

/// Of a line of the log alone: how many events before it were lost.
pub const LOST: &str = "lost";
