//! The lines of events on their way from the main thread to the one that writes them.
ghost use Rattle.std.specs.Prelude.{◌≡◌};
ghost use Rattle.event_log.specs.Waiting.{has_room, is_failing, is_over};

use program_desk::moment;
use std::alloc::Global;
use std::mem;
use std::sync::atomic::{AtomicBool, AtomicU64, Ordering};
use std::sync::{Condvar, CondvarTimeouts, Mutex, Wait};
use std::time::{Clock, Duration};

// How many octets of lines may wait: more than the events of the largest bundle have.
const WAITING_OCTETS: usize = 8 * 1_024 * 1_024;

// For how long the thread waits for lines before it looks at the file's path, in milliseconds.
const LOOK_MS: u64 = 500;

// For how long it waits at the end, if the file can't be written.
const CLOSED_LOOK_MS: u64 = 20;

// For how long at the end lines that wait are still written, in milliseconds.
const END_MS: u64 = 2_000;

// For how long the main thread waits until the file is opened anew, in milliseconds.
const REOPEN_MS: u64 = 500;

// How long a write may take until the log counts as failing, in milliseconds.
const SLOW_MS: u64 = 1_000;

// That the thread isn't at the file.
const AT_REST: u64 = u64::MAX;

/// How a log stands.
#[derive(Clone, Copy, Debug, PartialEq, Eq)]
pub struct LogState {
    /// Whether the file can't be written now, or a write has taken longer than a second.
    pub is_failing: bool,
    /// How many events were written.
    pub written: u64,
    /// How many events were lost.
    pub lost: u64,
}

// What waits between the threads.
#[derive(Drop)]
struct Tray {
    lines: Vec<u8>,
    /// How many lines these are, and how many were lost since the last ones were taken.
    count: u64,
    lost: u64,
    /// The number of the last request to open the file anew, and of the last one that was done, with its outcome.
    asked: u64,
    done: u64,
    is_open: bool,
    /// Up to which moment by the runtime's clock lines are still written, once the log is closed.
    until: Option<u64>,
}

/// The lines of events between the main thread, which leaves them, and the thread that writes them.
#[derive(Drop)]
pub struct LogQueue {
    tray: Mutex<Tray>,
    /// Notified when there is something to do for the thread.
    came: Condvar,
    /// Notified when the file was opened anew.
    reopened: Condvar,
    has_failed: AtomicBool,
    written: AtomicU64,
    lost: AtomicU64,
    /// Since when the thread is at the file, by the runtime's clock.
    at_file_since: AtomicU64,
}

/// What the thread that writes took.
#[derive(Clone, Copy, Debug)]
pub(crate) struct Taken {
    /// How many lines, and how many were lost after them.
    pub(crate) count: u64,
    pub(crate) lost: u64,
    /// The number of a request to open the file anew.
    pub(crate) reopening: Option<u64>,
    /// Up to which moment lines are still written, once the log is closed.
    pub(crate) until: Option<u64>,
}

impl LogQueue {
    /// Nothing waits.
    pub fn new(alloc: Global) -> LogQueue {
        LogQueue {
            tray: Mutex::new(Tray {
                lines: Vec::new(alloc),
                count: 0,
                lost: 0,
                asked: 0,
                done: 0,
                is_open: true,
                until: None,
            }),
            came: Condvar::new(),
            reopened: Condvar::new(),
            has_failed: AtomicBool::new(false),
            written: AtomicU64::new(0),
            lost: AtomicU64::new(0),
            at_file_since: AtomicU64::new(AT_REST),
        }
    }

    /// Leaves so many lines to be written, and empties `lines`; so many more were lost. If too much waits, or memory runs
    /// out, these are lost too.
    pub(crate) fn leave<R: Wait>(&self, rt: &R, lines: &mut Vec<u8>, count: u64, lost: u64) {
        let mut tray = self.tray.lock(rt);
        let mut lost = lost;
        if tray.lines.is_empty() {
            mem::swap(&mut tray.lines, lines);
            tray.count = count;
        } else if has_room(tray.lines.len(), lines.len())
            && tray.lines.extend_from_slice(lines.as_slice()).is_ok()
        {
            tray.count = tray.count.saturating_add(count);
        } else {
            lost = lost.saturating_add(count);
        }
        tray.lost = tray.lost.saturating_add(lost);
        drop(tray);
        self.count_lost(lost);
        lines.clear();
        self.came.notify_one();
    }

    /// Counts lines that no file has.
    pub(crate) fn count_lost(&self, count: u64) {
        let _before = self.lost.fetch_add(count, Ordering::Relaxed);
    }

    /// Takes what waits; lines only if `takes_lines`, into `lines`, which are empty then. If nothing is to be done, it
    /// waits for that, half a second at most.
    pub(crate) fn take<R: Wait + Clock>(
        &self,
        rt: &R,
        lines: &mut Vec<u8>,
        takes_lines: bool,
    ) -> Taken {
        let mut tray = self.tray.lock(rt);
        if tray.asked == tray.done && !(takes_lines && (tray.count > 0 || tray.lost > 0)) {
            let length = match tray.until {
                Some(_) => Duration::from_millis(CLOSED_LOOK_MS),
                None => Duration::from_millis(LOOK_MS),
            };
            let (again, _) = self.came.wait_timeout(rt, tray, length);
            tray = again;
        }
        let mut taken = Taken {
            count: 0,
            lost: 0,
            reopening: None,
            until: tray.until,
        };
        if tray.asked != tray.done {
            taken.reopening = Some(tray.asked);
        }
        if takes_lines {
            mem::swap(&mut tray.lines, lines);
            taken.count = mem::replace(&mut tray.count, 0);
            taken.lost = mem::replace(&mut tray.lost, 0);
        }
        taken
    }

    /// Whether lines wait.
    pub(crate) fn has_lines<R: Wait>(&self, rt: &R) -> bool {
        self.tray.lock(rt).count > 0
    }

    /// Notes that the thread goes to the file at a moment.
    pub(crate) fn begin(&self, now: u64) {
        self.at_file_since
            .store(now.min(AT_REST - 1), Ordering::Relaxed);
    }

    /// Notes how the file stands once the thread has left it.
    pub(crate) fn note(&self, has_failed: bool, written: u64) {
        self.has_failed.store(has_failed, Ordering::Relaxed);
        self.written.store(written, Ordering::Relaxed);
        self.at_file_since.store(AT_REST, Ordering::Relaxed);
    }

    /// Notes the outcome of a request to open the file anew.
    pub(crate) fn note_reopened<R: Wait>(&self, rt: &R, number: u64, is_open: bool) {
        let mut tray = self.tray.lock(rt);
        tray.done = number;
        tray.is_open = is_open;
        drop(tray);
        self.reopened.notify_all();
    }

    /// Has the file opened anew, and returns whether that worked within half a second.
    pub fn reopen<R: Wait + Clock>(&self, rt: &R) -> bool {
        let mut tray = self.tray.lock(rt);
        let number = tray.asked.saturating_add(1);
        tray.asked = number;
        self.came.notify_one();
        let until = moment(rt).saturating_add(REOPEN_MS);
        for _ in rt.forever() {
            if tray.done >= number {
                return tray.is_open;
            }
            let rest = until.saturating_sub(moment(rt));
            if rest == 0 {
                return false;
            }
            let (again, _) = self
                .reopened
                .wait_timeout(rt, tray, Duration::from_millis(rest));
            tray = again;
        }
        false
    }

    /// How the log stands.
    pub fn state<R: Clock>(&self, rt: &R) -> LogState {
        let since = match self.at_file_since.load(Ordering::Relaxed) {
            AT_REST => None,
            since => Some(since),
        };
        LogState {
            is_failing: is_failing(self.has_failed.load(Ordering::Relaxed), since, moment(rt)),
            written: self.written.load(Ordering::Relaxed),
            lost: self.lost.load(Ordering::Relaxed),
        }
    }

    /// Closes the log: what waits is still written, for two seconds at most.
    pub fn close<R: Wait + Clock>(&self, rt: &R) {
        self.tray.lock(rt).until = Some(moment(rt).saturating_add(END_MS));
        self.came.notify_all();
    }
}

// Whether so many octets may be added to those that wait.
fn has_room(waiting: usize, more: usize) -> bool
    ensures { result ≡ has_room waiting more }
{
    waiting <= WAITING_OCTETS && more <= WAITING_OCTETS - waiting
}

/// Whether the thread ends, if lines wait or don't.
pub(crate) fn is_over(until: Option<u64>, waits: bool, now: u64) -> bool
    ensures { result ≡ is_over until waits now }
{
    match until {
        None => false,
        Some(until) => !waits || until <= now,
    }
}

// Whether the file can't be written.
fn is_failing(has_failed: bool, since: Option<u64>, now: u64) -> bool
    ensures { result ≡ is_failing has_failed since now }
{
    match since {
        None => has_failed,
        Some(since) => has_failed || now.saturating_sub(since) >= SLOW_MS,
    }
}
