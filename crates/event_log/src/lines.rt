//! The lines of a turn for the log.
use crate::queue::LogQueue;
use event_levels::{Level, push_labelled};
use std::alloc::{AllocError, Global};
use std::sync::Wait;

// From how many octets on a turn's lines are left before its end.
const MOST_OCTETS: usize = 64 * 1_024;

/// The lines of a turn for the log: those of events from a level on, with their levels.
#[derive(Drop)]
pub struct LogLines<'a> {
    queue: &'a LogQueue,
    least: Level,
    lines: Vec<u8>,
    count: u64,
    /// How many lines were lost for want of memory.
    lost: u64,
}

impl<'a> LogLines<'a> {
    /// No line so far.
    pub fn new(alloc: Global, queue: &'a LogQueue, least: Level) -> LogLines<'a> {
        LogLines {
            queue,
            least,
            lines: Vec::new(alloc),
            count: 0,
            lost: 0,
        }
    }

    /// Where the lines are left for the thread that writes them.
    pub fn queue(&self) -> &'a LogQueue {
        self.queue
    }

    /// Whether events of a level are written.
    pub fn takes(&self, level: Level) -> bool {
        level.reaches(self.least)
    }

    /// Adds an event's line, if it is written. If memory runs out it is lost, and counted.
    pub fn push(&mut self, level: Level, line: &[u8]) {
        if !self.takes(level) {
            return;
        }
        let before = self.lines.len();
        if push_labelled(&mut self.lines, line, level).is_ok() {
            self.count = self.count.saturating_add(1);
        } else {
            self.lines.truncate(before);
            self.lost = self.lost.saturating_add(1);
        }
    }

    /// Leaves the lines to be written, if there are many.
    pub fn relieve<R: Wait>(&mut self, rt: &R) {
        if self.lines.len() >= MOST_OCTETS {
            self.leave(rt);
        }
    }

    /// Leaves the lines to be written.
    pub fn leave<R: Wait>(&mut self, rt: &R) {
        if self.count > 0 || self.lost > 0 {
            self.queue.leave(rt, &mut self.lines, self.count, self.lost);
            self.count = 0;
            self.lost = 0;
        }
    }
}
