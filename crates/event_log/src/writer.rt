//! The thread that writes the log.
use crate::file::LogFile;
use crate::queue::{LogQueue, is_over};
use program_desk::{moment, wall_moment};
use program_start::RuntimeFiles;
use station_lines::Moment;
use std::alloc::Global;
use std::rt::Files;
use std::sync::Wait;
use std::time::Clock;

/// Writes logs. A thread other than the main one uses it, so that a disk that takes its time holds nobody else up.
pub trait LogFiles {
    /// Writes what is left in the queue to the file at a path, until the queue is closed.
    fn write_log<R: Wait + Clock>(&self, rt: &R, alloc: Global, queue: &LogQueue, path: String);
}

impl<Q: Files> LogFiles for RuntimeFiles<Q> {
    fn write_log<R: Wait + Clock>(&self, rt: &R, alloc: Global, queue: &LogQueue, path: String) {
        let mut file = LogFile::new(alloc, path);
        let mut lines = Vec::new(alloc);
        for _ in rt.forever() {
            if write_some(rt, self.runtime(), queue, &mut file, &mut lines) {
                return;
            }
        }
    }
}

// Takes what waits and writes it, as far as the file takes it; `lines` is empty. Returns whether the log is over.
fn write_some<R: Wait + Clock, Q: Files>(
    rt: &R,
    files: &Q,
    queue: &LogQueue,
    file: &mut LogFile<Q>,
    lines: &mut Vec<u8>,
) -> bool {
    let taken = queue.take(rt, lines, !file.has_waiting());
    file.take(lines, taken.count);
    if taken.lost > 0 {
        file.tell_lost(Moment(wall_moment(rt)), taken.lost);
    }
    queue.begin(moment(rt));
    if let Some(number) = taken.reopening {
        let is_open = file.reopen(files);
        queue.note_reopened(rt, number, is_open);
    }
    file.flush(files, moment(rt));
    queue.note(file.is_failing(), file.written());
    queue.count_lost(file.take_lost());
    let waits = file.has_waiting() || queue.has_lines(rt);
    is_over(taken.until, waits, moment(rt))
}
