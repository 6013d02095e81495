//! The state of the main thread, and its turns.
use crate::answers::{is_full, obstacle_of};
use cfdp_types::{Deposit, EntityId, TxnKey};
use lane_table::Done;
use program_agenda::{Expiry, Fate, fate_of_pump, fate_of_retry};
use program_common::Common;
use program_desk::{Desk, Step, moment, wall_moment};
use program_lot::Lot;
use program_storing::{Depot, Stored, StoredNote};
use program_tallies::Tallies;
use program_timetable::{Choice, Payer, Timetable};
use program_udp::{PduSender, reach_of};
use shared_entity::{Entity, EntityRefusal};
use shared_lanes::{Names, NoGate};
use std::alloc::{AllocError, Global};
use std::sync::Wait;
use std::time::Clock;
use timer_list::Armed;

// How many PDUs of files are sent in a turn at most, and how many timers expire.
const PUMPS: usize = 16;

const EXPIRATIONS: usize = 16;

// How many kinds of timer a lane has.
const TIMER_KINDS: usize = 4;

// How many timers of a released link run again in a turn at most.
const GOING_ON: usize = 64;

// How many milliseconds later a file is tried again for which the socket has no room: a fast link empties its buffer in one.
const ROOM_MS: u64 = 1;

/// How many milliseconds later work that was refused because memory or room in a queue ran out is tried again.
pub const REST_MS: u64 = 10;

/// A step whose rest isn't noted yet, because memory ran out.
#[derive(Drop)]
struct Unsettled {
    step: Step,
    /// How many of its timer operations are carried out.
    operations_done: usize,
}

/// An entity with the state of its main thread: what is due and when, where received files are left to be stored, and
/// what waits for memory. Nothing new is begun while something waits for memory.
#[derive(Drop)]
pub struct Station<'a, N: Names, R: Copy> {
    pub(crate) rt: &'a R,
    pub(crate) entity: &'a Entity<N, R>,
    sender: PduSender<'a>,
    depot: &'a Depot,
    /// Its timers, the files under way, and its links.
    pub timetable: Timetable<'a>,
    reach: u64,
    unsettled: Option<Unsettled>,
    kept_timer: Option<Armed>,
    kept_deposit: Option<Deposit>,
    pub(crate) tallies: &'a Tallies,
    /// Where datagrams are parked, if any are.
    pub(crate) lot: Option<&'a Lot>,
    pub(crate) may_have_ended: bool,
    /// Transactions that take no more events, because their journals are full.
    full: Vec<TxnKey>,
}

impl<'a, N: Names, R: Wait + Copy + Clock> Station<'a, N, R> {
    /// A station without work, which sends at most `octets_a_second` for its files. All links are open. Memory for the
    /// timers of all lanes is reserved, so the rest of a step needs none.
    pub fn new(
        common: &Common<'a, N, R>,
        sender: PduSender<'a>,
        depot: &'a Depot,
        tallies: &'a Tallies,
        octets_a_second: Option<u64>,
    ) -> Result<Station<'a, N, R>, AllocError> {
        let (rt, alloc, entity) = (common.rt, common.alloc, common.entity);
        let timers = depot.room().saturating_mul(TIMER_KINDS);
        Ok(Station {
            rt,
            entity,
            sender,
            depot,
            timetable: Timetable::new(alloc, entity.config(), tallies, timers, octets_a_second)?,
            reach: 0,
            unsettled: None,
            kept_timer: None,
            kept_deposit: None,
            tallies,
            lot: None,
            may_have_ended: false,
            full: Vec::new(alloc),
        })
    }

    /// Gives a remote entity its own limit in octets a second for files from a moment on. Returns whether the
    /// configuration has the entity.
    pub fn limit(&mut self, remote: EntityId, octets_a_second: Option<u64>, now: u64) -> bool {
        self.timetable.limit(remote, octets_a_second, now)
    }

    /// Holds the link to a remote entity from a moment on, in milliseconds since 1970. Returns whether the configuration
    /// has the entity.
    pub fn hold(&mut self, remote: EntityId, at: u64) -> bool {
        self.timetable.hold(remote, at)
    }

    /// The entity.
    pub fn entity(&self) -> &'a Entity<N, R> {
        self.entity
    }

    /// How far into its file the data that was sent reaches: the greatest end of a segment, over all files.
    pub fn reach(&self) -> u64 {
        self.reach
    }

    /// Whether nothing waits for memory.
    pub fn is_settled(&self) -> bool {
        self.unsettled.is_none() && self.kept_timer.is_none() && self.kept_deposit.is_none()
    }

    /// Sends the PDUs of a step that the main thread made, and notes the rest of the step.
    pub fn settle_own(&mut self, done: Done) {
        self.sender.send_done(&done);
        let step = Step::of(done, moment(self.rt));
        self.hear(&step);
        self.settle(step);
    }

    /// Sends the PDU with which a refusal responds, if there is one.
    pub fn send_echo(&mut self, refusal: &EntityRefusal) {
        self.sender.send_echo(refusal, moment(self.rt));
    }

    // Notes the rest of a step: its timers, its deposit, and that its transaction's file need not rest any more. If
    // memory runs out, `catch_up` continues later, before anything else.
    fn settle(&mut self, step: Step) {
        self.timetable.wake(step.key);
        self.note(Unsettled {
            step,
            operations_done: 0,
        });
    }

    // Notes the rest of a step until memory runs out.
    fn note(&mut self, unsettled: Unsettled) {
        let Unsettled {
            step,
            operations_done,
        } = unsettled;
        for place in operations_done..step.timers.as_slice().len() {
            let Some(operation) = step.timers.as_slice().get(place) else {
                break;
            };
            if self.timetable.apply(*operation, step.at).is_err() {
                self.unsettled = Some(Unsettled {
                    step,
                    operations_done: place,
                });
                return;
            }
        }
        if let Some(deposit) = step.deposit {
            self.keep(deposit);
        }
    }

    // Leaves a received file to be stored.
    fn keep(&mut self, deposit: Deposit) {
        if let Err(back) = self.depot.leave(self.rt, deposit, wall_moment(self.rt)) {
            self.kept_deposit = Some(back);
        }
    }

    // Lets a timer run again.
    fn put_back(&mut self, timer: Armed) {
        if let Err(back) = self.timetable.put_back(timer) {
            self.kept_timer = Some(back);
        }
    }

    // Continues what waits for memory. If anything does, first drops the later half of what is parked for each lane.
    // Returns whether all of it is done.
    fn catch_up(&mut self) -> bool {
        if !self.is_settled() {
            self.give_way();
        }
        if let Some(timer) = self.kept_timer.take() {
            self.put_back(timer);
        }
        if let Some(deposit) = self.kept_deposit.take() {
            self.keep(deposit);
        }
        if let Some(unsettled) = self.unsettled.take() {
            self.note(unsettled);
        }
        self.is_settled()
    }

    /// Notes the rest of the steps that workers left at the desk, in order, as far as there is memory; returns whether
    /// there were any. `steps` is empty at first, with as much room as the desk has, and keeps between calls the steps
    /// that aren't noted yet.
    pub fn settle_left(&mut self, desk: &Desk, steps: &mut Vec<Step>) -> bool {
        if !self.catch_up() {
            return false;
        }
        if steps.is_empty() {
            desk.take_steps(self.rt, steps);
            steps.reverse();
        }
        let count = steps.len();
        for _ in 0..count {
            if !self.is_settled() {
                break;
            }
            if let Some(step) = steps.pop() {
                self.hear(&step);
                self.settle(step);
            }
        }
        count > 0
    }

    /// Notes the steps of lanes whose files were stored, up to the first file that the store was given, and returns
    /// what became of that; `None` if there is no more, or if something waits for memory.
    pub fn take_stored(&mut self) -> Option<StoredNote> {
        let rt = self.rt;
        for _ in rt.forever() {
            if !self.is_settled() {
                break;
            }
            let Stored { note, done } = self.depot.take_stored(rt)?;
            if let Some(done) = done {
                self.settle_own(done);
            }
            if note.is_some() {
                return note;
            }
        }
        None
    }

    /// A turn: at most sixty-four timers of a released link, sixty-four parked datagrams, sixteen expired timers, and
    /// sixteen PDUs of files in rotation. Returns whether it did any work.
    pub fn turn(&mut self, now: u64) -> bool {
        if !self.is_settled() {
            return false;
        }
        let has_gone_on = self.go_on();
        let has_handed = self.hand_in_some(now);
        let has_expired = self.expire_some(now);
        let has_pumped = self.pump_some(now);
        has_gone_on || has_handed || has_expired || has_pumped
    }

    // Lets timers run again that rested for a link that is open again. Returns whether there was such a link.
    fn go_on(&mut self) -> bool {
        let Some(place) = self.timetable.going_on() else {
            return false;
        };
        for _ in 0..GOING_ON {
            if !self.is_settled() {
                break;
            }
            let Some(timer) = self.timetable.next_resting(place) else {
                break;
            };
            self.put_back(timer);
        }
        true
    }

    // Handles timers that have expired; returns whether it did any work.
    fn expire_some(&mut self, now: u64) -> bool {
        let mut has_expired = false;
        for _ in 0..EXPIRATIONS {
            if !self.is_settled() || !self.expire(now) {
                break;
            }
            has_expired = true;
        }
        has_expired
    }

    // Handles a timer that has expired, if there is one.
    fn expire(&mut self, now: u64) -> bool {
        let Some((timer, expiry)) = self.timetable.next_expired(now) else {
            return false;
        };
        match expiry {
            Expiry::Fires => self.tell_expired(timer, now),
            Expiry::Rests(remote) => {
                if let Err(back) = self.timetable.lay_by(remote, timer) {
                    self.kept_timer = Some(back);
                }
                true
            }
            Expiry::RunsUntil(deadline) => {
                self.put_back(Armed { deadline, ..timer });
                true
            }
        }
    }

    // Passes a timer's expiration to the entity; false if the entity refused it for now.
    fn tell_expired(&mut self, timer: Armed, now: u64) -> bool {
        let Armed {
            key,
            kind,
            stamp,
            ..
        } = timer;
        match self.entity.timer(self.rt, &NoGate, key, kind, stamp) {
            Ok(Ok(done)) => {
                self.settle_own(done);
                true
            }
            Ok(Err(refused)) => self.hold_expired(timer, now, &EntityRefusal::Lane(refused)),
            Err(refusal) => self.hold_expired(timer, now, &refusal),
        }
    }

    // Puts back a timer whose expiration was refused, if that may pass, or if the journal is full and there was no
    // memory to note that. Returns false if it may pass.
    fn hold_expired(&mut self, timer: Armed, now: u64, refusal: &EntityRefusal) -> bool {
        let is_passing = fate_of_retry(obstacle_of(refusal)) == Fate::Again;
        if is_passing || (is_full(refusal) && !self.note_full(timer.key)) {
            self.put_back(Armed {
                deadline: now.saturating_add(REST_MS),
                ..timer
            });
        }
        !is_passing
    }

    // Notes a transaction that takes no more events; returns whether there was memory for that.
    fn note_full(&mut self, key: TxnKey) -> bool {
        self.full.contains(&key) || self.full.push(key).is_ok()
    }

    /// Takes out a transaction that takes no more events because its journal is full. It can't end by itself.
    pub fn take_full(&mut self) -> Option<TxnKey> {
        self.full.pop()
    }

    /// Gives back a transaction that takes no more events, so that it is taken out again later.
    pub fn give_back_full(&mut self, key: TxnKey) {
        let _there_was_room = self.note_full(key);
    }

    // Sends the next PDUs of files in turn, as many as the pace, the system and memory allow; returns whether there was
    // one. Files for which the socket has no room rest for a moment.
    fn pump_some(&mut self, now: u64) -> bool {
        let mut has_pumped = false;
        let mut has_room = false;
        for _ in 0..PUMPS {
            if !self.is_settled() {
                break;
            }
            match self.timetable.choose(now) {
                Choice::Nothing => break,
                Choice::Rests => {}
                Choice::Sends(key, payer) => {
                    has_room = has_room || self.sender.has_room();
                    if !has_room {
                        self.timetable.put_off(key, Fate::Again, now, ROOM_MS);
                    } else if !self.pump_file(key, payer, now) {
                        break;
                    }
                }
            }
            has_pumped = true;
        }
        has_pumped
    }

    // Sends the next PDU of a file.
    fn pump_file(&mut self, key: TxnKey, payer: Payer, now: u64) -> bool {
        match self.entity.pump(self.rt, &NoGate, key) {
            Ok(Ok(done)) => {
                let octets = self.sender.send_done(&done) as u64;
                let reach = reach_of(&done);
                self.reach = self.reach.max(reach);
                self.timetable.note_sent(key, payer, octets, now);
                if reach == 0 {
                    self.may_have_ended = true;
                }
                self.settle(Step::of(done, now));
                true
            }
            Ok(Err(refused)) => {
                self.hold_file(key, now, &EntityRefusal::Lane(refused));
                false
            }
            Err(refusal) => {
                self.hold_file(key, now, &refusal);
                false
            }
        }
    }

    // Lets a file whose next PDU was refused rest as long as the refusal asks for, or removes it if its transaction can
    // make no more progress.
    fn hold_file(&mut self, key: TxnKey, now: u64, refusal: &EntityRefusal) {
        if is_full(refusal) {
            let _noted_where_there_is_memory = self.note_full(key);
        }
        let fate = fate_of_pump(obstacle_of(refusal));
        self.timetable.put_off(key, fate, now, REST_MS);
    }

    /// After a turn without work: the moment until which there is nothing to do unless another thread leaves work.
    pub fn next_moment(&self, now: u64) -> u64 {
        if !self.is_settled() {
            return now.saturating_add(REST_MS);
        }
        self.timetable.next_moment(now).min(self.soonest_parked())
    }
}
