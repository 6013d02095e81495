//! What the server does about files that wait.
use crate::working::{Working, unread_in};
use cfdp_types::Octets;
use held_outbox::Way;
use program_start::{ProgramFault, Unread};
use server_answers::{Declined, Outcome, may_pass, push_declined};
use server_kept::{path_of, put_of};
use shared_lanes::Names;
use std::rt::Files;
use std::sync::Wait;
use std::time::Clock;

impl<'s, 'a, N: Names, R: Wait + Clock + Files + AllocGlobal + Copy + Drop> Working<'s, 'a, N, R> {
    /// Puts the file of the outbox that was read. If none is being read, uses up numbers that lag, and begins to read
    /// the file whose turn it is, if a lane of its user can take it. Returns whether it did any of these.
    pub fn start_queued(&mut self, now: u64) -> bool {
        if self.station.take_ended() {
            self.outbox.outgoing.try_from(now);
            self.outbox.begun.look_again(true);
        }
        self.note_ends(now);
        if self.outbox.outgoing.is_reading() {
            return self.put_read(now);
        }
        self.abandon_opened();
        if !self.outbox.outgoing.is_due(now) {
            return false;
        }
        self.look_at_lanes(now);
        self.readiness
            .note_files(&self.shared.tallies.links, &self.outbox.outgoing);
        let has_skipped = self.skip_some(now);
        let has_begun = self.read_next(now) || has_skipped;
        self.outbox
            .outgoing
            .try_from(self.readiness.end_of_rest(now));
        has_begun
    }

    /// Looks at all sending lanes.
    pub(crate) fn look_at_lanes(&mut self, now: u64) {
        self.readiness.look(self.rt, self.station.entity(), now);
    }

    // Begins to read the file whose turn it is. Returns whether it did.
    fn read_next(&mut self, now: u64) -> bool {
        let (idle, stops) = (self.readiness.idle(), self.readiness.stops());
        if !self.outbox.outgoing.begin_reading(now, idle, stops) {
            return false;
        }
        match path_of(&self.outbox.outgoing) {
            Some(path) => {
                self.shared.desk.want_file(self.rt, path);
                true
            }
            None => {
                self.outbox.outgoing.give_back(now);
                false
            }
        }
    }

    // Puts the file of the outbox that is being read, once it was read. If it can't be put yet, it comes back. Returns
    // whether it was read.
    fn put_read(&mut self, now: u64) -> bool {
        let Some(file) = self.shared.desk.take_file(self.rt) else {
            return false;
        };
        let unread = if self.settings.explains {
            unread_in(&file)
        } else {
            None
        };
        match self.put_queued(file, now) {
            Some(Ok(_)) => drop(self.outbox.outgoing.finish()),
            Some(Err(declined)) => self.leave_unsent(&declined, unread, now),
            None => self.outbox.outgoing.give_back(now),
        }
        true
    }

    // Puts the file of the outbox that was read into the lane of its user whose number goes to its entity next. `None`
    // if it was withdrawn meanwhile, its link is held, no such lane is idle, or memory ran out.
    fn put_queued(&mut self, file: Result<Octets, ProgramFault>, now: u64) -> Option<Outcome> {
        let Some((mut put, from)) = put_of(&self.outbox.outgoing) else {
            return None;
        };
        if self.station.timetable.is_held(put.destination) {
            return None;
        }
        if file.is_ok() {
            self.look_at_lanes(now);
            put.lane = self.readiness.lane_for(put.user, put.destination)?;
        }
        Some(self.put(&put, file, Some(&from)))
    }

    // Takes the file that was read out of the outbox unsent, and reports that; or gives it back, if it may be taken
    // later or memory ran out.
    fn leave_unsent(&mut self, declined: &Declined, unread: Option<Unread>, now: u64) {
        let mut answer = String::new(self.alloc);
        let is_told = push_declined(self.alloc, &mut answer, declined).is_ok();
        if !is_told || may_pass(declined, self.outbox.is_kept()) {
            self.outbox.outgoing.give_back(now);
        } else if let Some(waiting) = self.outbox.outgoing.finish() {
            self.outbox.leave(waiting.number, Way::Dropped, now);
            self.audience
                .reports
                .fail(&waiting, answer.as_str(), unread);
        }
    }
}
