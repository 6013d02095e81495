ghost use Rattle.std.specs.Prelude.{◌≡◌, ◌≤◌, ◌<◌, ◌↔◌, ◌⊎◌, ◌+◌, IfOk, IfSome, OnErr, OnOk, Err, None, false, nat_le, is_some, length, min, option_to_list, position, vec_capacity};
ghost use Rattle.std.specs.Option.{option_copied};
ghost use Rattle.program_outbox.specs.Outboxes.{after_going, first_turns, has_number};
ghost use Rattle.program_outbox.specs.Outgoings.{begun, can_leave, file_count, given_back, has_waiting, is_due, is_named, moment_until, named, next_file, queued_as_at, queued_at, left_of, turn_of, without_named};

use crate::outbox::{
    MOST_FILES, Outbox, OutboxFault, OutboxFile, Stop, Waiting, is_idle, is_stopped, number_place,
};
use std::alloc::{AllocError, Global};
use std::marker::Model;

/// After how many milliseconds the outbox is looked at again if no file's turn came.
const LANE_REST_MS: u64 = 10;

/// After how many milliseconds files that came back are tried again.
const FILE_REST_MS: u64 = 1_000;

/// The outbox with its files on their way: the one being read, if there is one, and those that were read and couldn't
/// be put yet. No more than `MOST_FILES` are in it. Moments are milliseconds of the caller's clock.
#[derive(Drop)]
pub struct Outgoing {
    outbox: Outbox,
    reading: Option<Waiting>,
    is_reading: bool,
    returned: Vec<Waiting>,
    outbox_due: u64,
    returned_due: u64,
}

impl Model for Outgoing {
    ghost use Rattle.std.specs.Prelude.{◌≡◌, ◌≤◌, ◌+◌, length, vec_capacity, option_to_list, None, false};
    ghost use Rattle.program_outbox.specs.Outgoings.{OutgoingValue};

    ghost Value = { OutgoingValue };

    ghost view = { λ o. record {
      outbox = o.outbox;
      reading = o.reading;
      is_reading = o.is_reading;
      returned = o.returned.items;
      outbox_due = o.outbox_due;
      returned_due = o.returned_due;
    } };

    ghost invariant = { λ o. (1024 ≤ vec_capacity o.returned)
        × (length o.outbox.waiting + length o.returned.items + length (option_to_list o.reading) ≤ 1024)
        × (o.is_reading ≡ false → o.reading ≡ None) };
}

impl Outgoing {
    /// No file waits.
    pub fn new(alloc: Global, users: usize) -> Result<Outgoing, AllocError>
        ensures empty { IfOk result (λ outgoing. file_count outgoing ≡ 0) }
        ensures turns { IfOk result (λ outgoing. outgoing.outbox.turns ≡ first_turns users) }
        ensures next { IfOk result (λ outgoing. outgoing.outbox.next ≡ 1) }
        ensures idle { IfOk result (λ outgoing. outgoing.is_reading ≡ false) }
        ensures due { IfOk result (λ outgoing. (outgoing.outbox_due ≡ 0) × (outgoing.returned_due ≡ 0)) }
    {
        Ok(Outgoing {
            outbox: Outbox::new(alloc, users)?,
            reading: None,
            is_reading: false,
            returned: Vec::with_capacity(alloc, MOST_FILES)?,
            outbox_due: 0,
            returned_due: 0,
        })
    }

    /// Puts a user's file after all others, and has files tried from this moment on. Returns its number.
    pub fn push(&mut self, user: usize, file: OutboxFile, now: u64) -> Result<u64, OutboxFault>
        ensures ok { IfOk result (λ number. (number ≡ self.old.outbox.next) × (self.new ≡ queued_at user file now self.old)) }
        ensures err { OnErr result (self.new ≡ self.old) }
        ensures full { (result ≡ Err OutboxFault.Full)
            ↔ ((1024 ≤ file_count self.old) ⊎ (self.old.outbox.next ≡ 18446744073709551615)) }
    {
        if self.file_count() >= MOST_FILES {
            return Err(OutboxFault::Full);
        }
        let number = self.outbox.push(user, file)?;
        self.try_from(now);
        Ok(number)
    }

    /// Puts a user's file after all others, with this number, as one that waited when an earlier run stopped. The next
    /// file gets the number after it.
    pub fn push_as(
        &mut self,
        number: u64,
        user: usize,
        file: OutboxFile,
        now: u64,
    ) -> Result<(), OutboxFault>
        ensures ok { OnOk result (self.new ≡ queued_as_at number user file now self.old) }
        ensures err { OnErr result (self.new ≡ self.old) }
        ensures full { (result ≡ Err OutboxFault.Full)
            ↔ ((1024 ≤ file_count self.old) ⊎ (number ≡ 18446744073709551615)) }
    {
        if self.file_count() >= MOST_FILES {
            return Err(OutboxFault::Full);
        }
        self.outbox.push_as(number, user, file)?;
        self.try_from(now);
        Ok(())
    }

    /// Gives the next file this number, which an earlier run left.
    pub fn go_on_from(&mut self, next: u64)
        ensures { self.new ≡ record self.old { outbox = record self.old.outbox { next = next } } }
    {
        self.outbox.go_on_from(next);
    }

    /// Whether there is no room for another file.
    pub fn is_full(&self) -> bool
        ensures { result ≡ nat_le 1024 (file_count self.now) }
    {
        self.file_count() >= MOST_FILES
    }

    // How many files are in it.
    fn file_count(&self) -> usize
        ensures { result ≡ file_count self.now }
    {
        let read = if self.reading.is_some() { 1 } else { 0 };
        self.outbox.waiting().len() + self.returned.len() + read
    }

    /// Has files tried from a moment on.
    pub fn try_from(&mut self, now: u64)
        ensures { self.new ≡ record self.old { outbox_due = min self.old.outbox_due now } }
    {
        self.outbox_due = self.outbox_due.min(now);
    }

    /// The file being read, unless it was withdrawn meanwhile.
    pub fn reading(&self) -> Option<&Waiting>
        ensures { option_copied result ≡ self.now.reading }
    {
        self.reading.as_ref()
    }

    /// The files that came back because they couldn't be put yet, in the order in which they came back.
    pub fn returned(&self) -> &[Waiting]
        ensures { result.now ≡ self.now.returned }
    {
        self.returned.as_slice()
    }

    /// The files whose turn has not come, in the order in which they came.
    pub fn waiting(&self) -> &[Waiting]
        ensures { result.now ≡ self.now.outbox.waiting }
    {
        self.outbox.waiting()
    }

    /// Takes out the file with a number. If it is being read, the reading goes on, and what is read will not be put.
    pub fn withdraw(&mut self, number: u64) -> Option<Waiting>
        ensures file { result ≡ named number self.old }
        ensures rest { self.new ≡ without_named number self.old }
    {
        if self.is_reading_of(number) {
            return self.reading.take();
        }
        match number_place(&self.returned, number) {
            Some(place) => Some(self.returned.remove(place)),
            None => self.outbox.withdraw(number),
        }
    }

    // Whether the file with a number is the one that is being read.
    fn is_reading_of(&self, number: u64) -> bool
        ensures { result ≡ is_named number self.now.reading }
    {
        match &self.reading {
            Some(file) => file.number == number,
            None => false,
        }
    }

    /// Whether a file is being read.
    pub fn is_reading(&self) -> bool
        ensures { result ≡ self.now.is_reading }
    {
        self.is_reading
    }

    // Whether a file waits whose turn may come.
    fn has_waiting(&self) -> bool
        ensures { result ≡ has_waiting self.now }
    {
        !self.is_reading && (!self.returned.is_empty() || !self.outbox.waiting().is_empty())
    }

    /// Whether a file may be tried at a moment.
    pub fn is_due(&self, now: u64) -> bool
        ensures { result ≡ is_due now self.now }
    {
        now >= self.outbox_due && self.has_waiting()
    }

    /// A moment, or the one at which files are tried next if that comes before it.
    pub fn next_moment(&self, until: u64) -> u64
        ensures { result ≡ moment_until until self.now }
    {
        if self.has_waiting() {
            until.min(self.outbox_due)
        } else {
            until
        }
    }

    /// Begins to read the file whose turn it is, unless one is being read. It is one that waits or else, from the
    /// moment on at which those are tried, the first one that came back. Its user has an idle lane, and the user's
    /// files to its entity aren't stopped. Returns whether it began. If there is no such file, files are tried again
    /// ten milliseconds later.
    pub fn begin_reading(&mut self, now: u64, idle: &[bool], stops: &[Stop]) -> bool
        ensures began { result ≡ is_some (next_file now idle.now stops.now self.old) }
        ensures after { self.new ≡ begun now idle.now stops.now self.old }
        ensures kept { file_count self.new ≡ file_count self.old }
    {
        if self.is_reading {
            return false;
        }
        let tries_returned = now >= self.returned_due;
        self.reading = take_turn(
            &mut self.outbox,
            &mut self.returned,
            tries_returned,
            idle,
            stops,
        );
        self.is_reading = self.reading.is_some();
        if !self.is_reading {
            self.outbox_due = now.saturating_add(LANE_REST_MS);
        }
        self.is_reading
    }

    /// Takes out the file that was read. `None` if it was withdrawn meanwhile.
    pub fn finish(&mut self) -> Option<Waiting>
        ensures file { result ≡ self.old.reading }
        ensures rest { self.new ≡ record self.old { reading = None; is_reading = false } }
    {
        self.is_reading = false;
        self.reading.take()
    }

    /// The file that was read couldn't be put yet. It comes back, after all others that did, and none of them is tried
    /// for a second.
    pub fn give_back(&mut self, now: u64)
        ensures after { self.new ≡ given_back now self.old }
        ensures kept { file_count self.new ≡ file_count self.old }
    {
        self.is_reading = false;
        if let Some(waiting) = self.reading.take() {
            self.returned_due = now.saturating_add(FILE_REST_MS);
            self.returned.push_reserved(waiting);
        }
    }
}

// Takes out the file whose turn it is, of those that wait, or else of those that came back, if these are tried.
fn take_turn(
    outbox: &mut Outbox,
    returned: &mut Vec<Waiting>,
    tries_returned: bool,
    idle: &[bool],
    stops: &[Stop],
) -> Option<Waiting>
    ensures file { result ≡ turn_of tries_returned idle.now stops.now outbox.old returned.old.items }
    ensures waiting { outbox.new ≡ after_going idle.now stops.now outbox.old }
    ensures returned { returned.new.items ≡ left_of tries_returned idle.now stops.now outbox.old returned.old.items }
    ensures room { vec_capacity returned.new ≡ vec_capacity returned.old }
    ensures count { length outbox.new.waiting + length returned.new.items + length (option_to_list result)
        ≡ length outbox.old.waiting + length returned.old.items }
{
    let waiting = outbox.take(idle, stops);
    if waiting.is_some() || !tries_returned {
        return waiting;
    }
    let place = returned_place(returned, idle, stops)?;
    Some(returned.remove(place))
}

// The place of the first file that came back and can leave.
fn returned_place(returned: &[Waiting], idle: &[bool], stops: &[Stop]) -> Option<usize>
    ensures place { result ≡ position (can_leave idle.now stops.now) returned.now }
    ensures range { IfSome result (λ place. place < length returned.now) }
{
    returned.iter().position(|one| is_idle(idle, one.user)
        && !is_stopped(stops, one.user, one.file.destination))
}
