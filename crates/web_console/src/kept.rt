//! The last reply to `status`, and the plan as it was read last.
use crate::plan::Mark;
use std::alloc::Global;
use std::sync::Arc;
use std::time::Duration;

/// For how many milliseconds a reply is used again.
const FRESH_MILLIS: u64 = 500;

/// The lines of a reply; None if the station couldn't be asked.
pub(crate) type Lines = Option<Arc<Vec<u8>, Global>>;

/// The last reply to `status`, when it came, and whether somebody asks for the next one.
#[derive(Drop)]
pub(crate) struct Kept {
    // on the system's monotonic clock; None where nothing was asked yet
    at: Option<Duration>,
    lines: Lines,
    is_asking: bool,
}

impl Kept {
    /// Nothing was asked yet.
    pub(crate) fn new() -> Kept {
        Kept {
            at: None,
            lines: None,
            is_asking: false,
        }
    }

    /// Whether somebody asks.
    pub(crate) fn is_asking(&self) -> bool {
        self.is_asking
    }

    /// Whether the reply can still be used at a moment.
    pub(crate) fn is_fresh(&self, now: Duration) -> bool {
        match self.at {
            Some(at) => now.saturating_sub(at) < Duration::from_millis(FRESH_MILLIS),
            None => false,
        }
    }

    /// The reply's lines.
    pub(crate) fn lines(&self) -> Lines {
        match &self.lines {
            Some(lines) => Arc::try_clone(lines).ok(),
            None => None,
        }
    }

    /// Notes that somebody asks.
    pub(crate) fn begin(&mut self) {
        self.is_asking = true;
    }

    /// Keeps the reply that came at a moment.
    pub(crate) fn keep(&mut self, at: Option<Duration>, lines: Lines) {
        self.at = at;
        self.lines = lines;
        self.is_asking = false;
    }
}

/// The plan as it was read last.
#[derive(Drop)]
pub(crate) struct KeptPlan {
    // how its file was then
    mark: Option<Mark>,
    json: Lines,
}

impl KeptPlan {
    /// Nothing was read yet.
    pub(crate) fn new() -> KeptPlan {
        KeptPlan {
            mark: None,
            json: None,
        }
    }

    /// Whether the plan was read from its file as it is now.
    pub(crate) fn is_of(&self, mark: Option<Mark>) -> bool {
        self.json.is_some() && self.mark == mark
    }

    /// The plan, if it was read.
    pub(crate) fn json(&self) -> Lines {
        match &self.json {
            Some(json) => Arc::try_clone(json).ok(),
            None => None,
        }
    }

    /// Keeps the plan, as it was read from a file.
    pub(crate) fn keep(&mut self, mark: Option<Mark>, json: Lines) {
        self.mark = mark;
        self.json = json;
    }
}
