//! The outbox of a server: the files that wait, those that it began, and the file that keeps both over restarts.
use cfdp_types::TxnKey;
use cfdp_types::limits::FILE_OCTETS;
use disk::SystemDisk;
use entity_config::Config;
use entity_routing::Place;
use held_outbox::{Gone, HeldFault, HeldOutbox, Way, file_of};
use program_desk::{moment, wall_moment};
use program_outbox::{MOST_FILES, OutboxFault, Outgoing, Waiting};
use program_start::ProgramFault;
use program_status::push_outbox;
use server_answers::{push_no_memory, push_too_large};
use server_lanes::Begun;
use server_lines::{SendCommand, send_words};
use std::alloc::{AllocError, Global};
use std::rt::Files;
use std::time::Clock;

/// The file of an outbox, in its folder.
pub type OutboxFolder<R> = HeldOutbox<SystemDisk<R>>;

/// The files that wait to be sent, what was begun of them, and the file of both, if there is one.
#[derive(Drop)]
pub struct Outbox<R: Files + AllocGlobal + Copy + Drop> {
    pub outgoing: Outgoing,
    pub held: Option<OutboxFolder<R>>,
    pub begun: Begun,
}

impl<R: Clock + Files + AllocGlobal + Copy + Drop> Outbox<R> {
    /// Puts a file whose size was looked at in the outbox, unless it can't be sent, and adds the reply.
    pub fn queue_known(
        &mut self,
        rt: &R,
        alloc: Global,
        config: &Config,
        send: SendCommand,
        size: Result<u64, ProgramFault>,
        text: &mut String,
    ) -> Result<(), AllocError> {
        match size {
            Ok(size) if size > u64::from(FILE_OCTETS) => push_too_large(text),
            Ok(_) => self.queue(rt, alloc, config, send, text),
            Err(ProgramFault::NoMemory) => push_no_memory(text),
            Err(_) => text.push_str("read fault\n"),
        }
    }

    /// Puts a file in the outbox, and adds the reply.
    pub fn queue(
        &mut self,
        rt: &R,
        alloc: Global,
        config: &Config,
        send: SendCommand,
        text: &mut String,
    ) -> Result<(), AllocError> {
        match self.queue_file(rt, alloc, config, send) {
            Ok(number) => writeln!(text, "queued {number}"),
            Err(HeldFault::Full) => text.push_str("refused OutboxFull\n"),
            Err(HeldFault::NoMemory) => push_no_memory(text),
            Err(HeldFault::Disk | HeldFault::NoFile) => text.push_str("outbox fault\n"),
        }
    }

    // Puts a file in the outbox, and in its file, if there is one. Returns the file's number.
    fn queue_file(
        &mut self,
        rt: &R,
        alloc: Global,
        config: &Config,
        send: SendCommand,
    ) -> Result<u64, HeldFault> {
        let (user, now, since) = (send.user, moment(rt), wall_moment(rt));
        let Some(held) = &mut self.held else {
            return match self.outgoing.push(user, file_of(send, since), now) {
                Ok(number) => Ok(number),
                Err(OutboxFault::Full) => Err(HeldFault::Full),
                Err(OutboxFault::NoMemory) => Err(HeldFault::NoMemory),
            };
        };
        let Ok(words) = send_words(alloc, config, &send) else {
            return Err(HeldFault::NoMemory);
        };
        let file = file_of(send, since);
        held.queue(&mut self.outgoing, user, file, words.as_slice(), now)
    }
}

impl<R: Files + AllocGlobal + Copy + Drop> Outbox<R> {
    /// Whether the files that wait are kept over restarts.
    pub fn is_kept(&self) -> bool {
        self.held.is_some()
    }

    /// Replies with a line for each file that waits, or that memory ran out.
    pub fn answer(
        &self,
        alloc: Global,
        config: &Config,
        text: &mut String,
    ) -> Result<(), AllocError> {
        if push_outbox(alloc, text, config, &self.outgoing).is_err() {
            text.clear();
            return push_no_memory(text);
        }
        Ok(())
    }

    /// Takes the file with a number out of the outbox, if it waits there.
    pub fn withdraw(&mut self, number: u64) -> Result<Option<Waiting>, HeldFault> {
        match &mut self.held {
            Some(held) => held.drop_file(&mut self.outgoing, number),
            None => Ok(self.outgoing.withdraw(number)),
        }
    }

    /// Notes that the file of the outbox with a number is under way in a lane. If the end of the transaction before it
    /// there wasn't noted yet, notes that too. If the disk doesn't take it, nothing is lost, because the file counts as
    /// one that waits.
    pub fn note_begun(&mut self, place: Place, key: TxnKey, number: u64, now: u64) {
        let before = self.begun.note(place, key, number);
        if let Some(ended) = before {
            self.leave(ended, Way::Ended, now);
        }
        if let Some(held) = &mut self.held {
            let _as_it_may = held.began(number);
        }
    }

    /// Notes that the file with a number left the outbox for good. If the disk doesn't take it, that is tried again.
    pub fn leave(&mut self, number: u64, way: Way, now: u64) {
        if let Some(held) = &mut self.held {
            let _as_it_may = held.leave(Gone { number, way }, now);
        }
    }

    /// Whether lanes are to be looked at for transactions of the outbox that have ended.
    pub fn looks_for_ends(&self) -> bool {
        self.held.is_some() && self.begun.looks()
    }

    /// Notes that a lane's transaction, for the file with a number, has ended.
    pub fn note_end(&mut self, place: Place, number: u64, now: u64) {
        self.begun.note_end(place);
        self.leave(number, Way::Ended, now);
    }

    /// Notes all that the disk didn't take before, as far as it takes it now.
    pub fn settle_last(&mut self) {
        for _ in 0..MOST_FILES {
            if !self.settle(u64::MAX) {
                break;
            }
        }
    }

    /// Notes the first of what the disk didn't take before. Returns whether it took that.
    pub fn settle(&mut self, now: u64) -> bool {
        match &mut self.held {
            Some(held) => held.settle(now),
            None => false,
        }
    }

    /// The first moment, until one at most, at which a file may be read, or the disk is asked again.
    pub fn next_moment(&self, until: u64) -> u64 {
        let until = self.outgoing.next_moment(until);
        match &self.held {
            Some(held) => held.next_moment(until),
            None => until,
        }
    }
}

/// Adds the reply to a withdrawal.
pub fn push_withdrawn(
    text: &mut String,
    withdrawn: &Result<Option<Waiting>, HeldFault>,
) -> Result<(), AllocError> {
    match withdrawn {
        Ok(Some(_)) => text.push_str("ok\n"),
        Ok(None) => text.push_str("refused NotQueued\n"),
        Err(HeldFault::NoMemory) => push_no_memory(text),
        Err(_) => text.push_str("outbox fault\n"),
    }
}
