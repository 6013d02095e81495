//! The work between the threads, behind one lock.
use crate::files::Reading;
use crate::said::Said;
use crate::step::{Step, Urgency};
use cfdp_types::Octets;
use program_seats::Asker;
use program_start::ProgramFault;
use std::alloc::{AllocError, Global};
use std::collections::VecDeque;

/// A line of commands, and its client.
#[derive(Drop)]
pub struct AskedLine {
    pub said: Said,
    /// The client that awaits the reply, if the line came from one.
    pub asker: Option<Asker>,
}

/// Whether more lines come, and if not, why.
#[derive(Clone, Copy, Debug, PartialEq, Eq)]
pub(crate) enum LinesEnd {
    /// More may come.
    Open,
    /// No line is left to be read.
    Over,
    /// Memory for a line ran out.
    NoMemory,
    /// Workers could not be started, so nobody brings datagrams to their lanes.
    Deserted,
}

/// How the main thread waits, and so which work wakes it.
#[derive(Clone, Copy, Debug, PartialEq, Eq)]
pub(crate) enum Rest {
    /// It works, or somebody has woken it.
    Awake,
    /// For a millisecond at most: only work that can't wait that long wakes it.
    Naps,
    /// Until a moment: work that is due before then wakes it.
    SleepsUntil(u64),
}

/// The work between the threads.
#[derive(Drop)]
pub(crate) struct Trays {
    pub(crate) lines: VecDeque<AskedLine>,
    pub(crate) lines_end: LinesEnd,
    pub(crate) steps: Vec<Step>,
    /// Whether a step can't wait for a millisecond.
    pub(crate) has_urgent_step: bool,
    /// Whether the main thread was called since it took steps.
    pub(crate) is_called: bool,
    /// The files being read, and how many readings there were before.
    pub(crate) readings: Vec<Reading>,
    pub(crate) next_reading: u64,
    /// The path of the wanted file.
    pub(crate) wanted: Option<Octets>,
    /// The file that was wanted, or the fault if it can't be read.
    pub(crate) file: Option<Result<Octets, ProgramFault>>,
    pub(crate) is_closed: bool,
    pub(crate) rest: Rest,
}

impl Trays {
    /// Empty trays with room for this many steps and lines.
    pub(crate) fn new(alloc: Global, steps: usize, lines: usize) -> Result<Trays, AllocError> {
        Ok(Trays {
            lines: VecDeque::with_capacity(alloc, lines)?,
            lines_end: LinesEnd::Open,
            steps: Vec::with_capacity(alloc, steps)?,
            has_urgent_step: false,
            is_called: false,
            readings: Vec::new(alloc),
            next_reading: 0,
            wanted: None,
            file: None,
            is_closed: false,
            rest: Rest::Awake,
        })
    }

    /// Whether there is work for the main thread.
    pub(crate) fn has_something(&self) -> bool {
        !self.steps.is_empty() || self.has_something_urgent()
    }

    /// Whether there is work for the main thread that can't wait for a millisecond.
    pub(crate) fn has_something_urgent(&self) -> bool {
        self.has_urgent_step
            || self.is_called
            || !self.lines.is_empty()
            || self.lines_end != LinesEnd::Open
            || self.file.is_some()
    }

    /// Whether the main thread has to be woken for a step that was left. It then counts as awake, so that nobody else
    /// wakes it.
    pub(crate) fn takes_waking(&mut self, step: Urgency, soonest: u64, is_half_full: bool) -> bool {
        let wakes = match self.rest {
            Rest::Awake => false,
            Rest::Naps => step == Urgency::Now || is_half_full,
            Rest::SleepsUntil(until) => {
                step != Urgency::WithItsTimers || soonest < until || is_half_full
            }
        };
        if wakes {
            self.rest = Rest::Awake;
        }
        wakes
    }
}
