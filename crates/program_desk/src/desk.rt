//! The desk, where other threads leave work for the main thread.
use crate::said::Said;
use crate::step::{Step, Urgency};
use crate::trays::{AskedLine, LinesEnd, Rest, Trays};
use program_seats::Asker;
use std::alloc::{AllocError, Global};
use std::mem;
use std::sync::atomic::{AtomicBool, Ordering};
use std::sync::{Condvar, CondvarTimeouts, Mutex, Wait};
use std::time::{Clock, Duration};

// How long the main thread naps before it sleeps, in milliseconds.
const NAP_MS: u64 = 1;

/// What the main thread gets when it asks for a line.
#[derive(Drop)]
pub enum NextLine {
    /// A line, and the client that it came from.
    Line(AskedLine),
    /// No line so far.
    Awaited,
    /// No more lines will come.
    End,
    /// Memory for a line ran out.
    NoMemory,
    /// Workers could not be started.
    Deserted,
}

/// Where other threads leave work for the main thread: lines of commands, the rest of the steps that workers made, and
/// files that were read. Memory for lines and steps is reserved at the start. A thread that leaves a line or a step
/// waits while there is no room, until the desk is closed.
#[derive(Drop)]
pub struct Desk {
    pub(crate) trays: Mutex<Trays>,
    /// Notified when work came for the main thread.
    pub(crate) came: Condvar,
    /// Notified when there is room for a line or a step again.
    room: Condvar,
    /// Notified when a file is to be read.
    pub(crate) wants: Condvar,
    /// The same as in the trays, for threads that ask often and must not wait for the lock.
    is_closed: AtomicBool,
    step_room: usize,
    line_room: usize,
}

impl Desk {
    /// An empty desk with room for this many steps and lines.
    pub fn new(alloc: Global, step_room: usize, line_room: usize) -> Result<Desk, AllocError> {
        Ok(Desk {
            trays: Mutex::new(Trays::new(alloc, step_room, line_room)?),
            came: Condvar::new(),
            room: Condvar::new(),
            wants: Condvar::new(),
            is_closed: AtomicBool::new(false),
            step_room,
            line_room,
        })
    }

    /// How many steps have room.
    pub fn step_room(&self) -> usize {
        self.step_room
    }

    /// Leaves a parsed line, with the client that awaits its reply, if it came from one; returns whether more lines
    /// are wanted.
    pub fn leave_line<R: Wait>(&self, rt: &R, said: Said, asker: Option<Asker>) -> bool {
        let mut trays = self.trays.lock(rt);
        for _ in rt.forever() {
            if trays.is_closed {
                return false;
            }
            if trays.lines.len() < self.line_room {
                break;
            }
            trays = self.room.wait(rt, trays);
        }
        if trays.lines.push_back(AskedLine { said, asker }).is_err() {
            trays.lines_end = LinesEnd::NoMemory;
        }
        drop(trays);
        self.came.notify_one();
        true
    }

    /// Notes that no more lines come. The first reason that was noted stays.
    pub fn end_lines<R: Wait>(&self, rt: &R) {
        self.end_with(rt, LinesEnd::Over);
    }

    /// Notes that no more lines come because memory for one ran out. That is reported once all lines before it were
    /// taken.
    pub fn fail_lines<R: Wait>(&self, rt: &R) {
        self.end_with(rt, LinesEnd::NoMemory);
    }

    /// Notes that workers could not be started. Reported once all earlier lines were taken, unless no more lines come
    /// anyway.
    pub fn desert<R: Wait>(&self, rt: &R) {
        self.end_with(rt, LinesEnd::Deserted);
    }

    fn end_with<R: Wait>(&self, rt: &R, end: LinesEnd) {
        let mut trays = self.trays.lock(rt);
        if trays.lines_end == LinesEnd::Open {
            trays.lines_end = end;
        }
        drop(trays);
        self.came.notify_one();
    }

    /// Leaves a step, or drops it if the desk is closed. The main thread is woken if it would wake too late for the
    /// step, or if the desk is half full.
    pub fn leave_step<R: Wait>(&self, rt: &R, step: Step, urgency: Urgency) {
        let soonest = step.soonest();
        let mut trays = self.trays.lock(rt);
        for _ in rt.forever() {
            if trays.is_closed {
                return;
            }
            if trays.steps.len() < self.step_room {
                break;
            }
            trays = self.room.wait(rt, trays);
        }
        let _there_was_room = trays.steps.push(step);
        if urgency == Urgency::Now {
            trays.has_urgent_step = true;
        }
        let is_half_full = trays.steps.len() >= self.step_room / 2;
        let wakes = trays.takes_waking(urgency, soonest, is_half_full);
        drop(trays);
        if wakes {
            self.came.notify_one();
        }
    }

    /// Moves the steps that were left into `steps`, in place of its content. `steps` should be empty, with as much room
    /// as the desk has; the desk then uses its memory.
    pub fn take_steps<R: Wait>(&self, rt: &R, steps: &mut Vec<Step>) {
        let mut trays = self.trays.lock(rt);
        let was_full = trays.steps.len() >= self.step_room;
        mem::swap(&mut trays.steps, steps);
        trays.has_urgent_step = false;
        trays.is_called = false;
        drop(trays);
        if was_full {
            self.room.notify_all();
        }
    }

    /// Takes the first line that was left.
    pub fn take_line<R: Wait>(&self, rt: &R) -> NextLine {
        let mut trays = self.trays.lock(rt);
        let was_full = trays.lines.len() >= self.line_room;
        let next = match (trays.lines.pop_front(), trays.lines_end) {
            (Some(line), _) => NextLine::Line(line),
            (None, LinesEnd::Open) => NextLine::Awaited,
            (None, LinesEnd::Over) => NextLine::End,
            (None, LinesEnd::NoMemory) => NextLine::NoMemory,
            (None, LinesEnd::Deserted) => NextLine::Deserted,
        };
        drop(trays);
        if was_full {
            self.room.notify_all();
        }
        next
    }

    /// Waits until urgent work is left or the moment `until` comes; returns at once if urgent work is there. First it
    /// naps for a millisecond, in which steps that can wait that long gather.
    pub fn wait<R: Wait + Clock>(&self, rt: &R, now: u64, until: u64) {
        if until <= now || !self.nap(rt) {
            return;
        }
        let mut trays = self.trays.lock(rt);
        let napped_until = now.saturating_add(NAP_MS);
        if trays.has_something() || until <= napped_until {
            return;
        }
        trays.rest = Rest::SleepsUntil(until);
        let length = Duration::from_millis(until - napped_until);
        let (mut trays, _) = self.came.wait_timeout(rt, trays, length);
        trays.rest = Rest::Awake;
    }

    // Naps, unless work is there that can't wait; returns whether there is still no work after it.
    fn nap<R: Wait + Clock>(&self, rt: &R) -> bool {
        let mut trays = self.trays.lock(rt);
        if trays.has_something_urgent() {
            return false;
        }
        trays.rest = Rest::Naps;
        let length = Duration::from_millis(NAP_MS);
        let (mut trays, _) = self.came.wait_timeout(rt, trays, length);
        trays.rest = Rest::Awake;
        !trays.has_something()
    }

    /// Wakes the main thread, which looks for work.
    pub fn wake<R: Wait>(&self, rt: &R) {
        let mut trays = self.trays.lock(rt);
        trays.is_called = true;
        let wakes = trays.rest != Rest::Awake;
        trays.rest = Rest::Awake;
        drop(trays);
        if wakes {
            self.came.notify_one();
        }
    }

    /// Closes the desk: no more work is wanted, and threads that wait for room go on.
    pub fn close<R: Wait>(&self, rt: &R) {
        self.is_closed.store(true, Ordering::SeqCst);
        self.trays.lock(rt).is_closed = true;
        self.room.notify_all();
        self.wants.notify_all();
    }

    /// Whether the desk is closed. Takes no lock.
    pub fn is_closed(&self) -> bool {
        self.is_closed.load(Ordering::SeqCst)
    }
}
