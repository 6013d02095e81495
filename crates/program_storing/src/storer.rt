//! The thread that stores received files.
use crate::depot::{Depot, LastStore, Pending, Stored, StoredNote, Storing, Untold, Work};
use crate::station_files::StationFiles;
use cfdp_types::Deposit;
use disk::Hindrance;
use entity_workers::{DepositRest, Filestore, deposit_one, finish};
use lane_table::Done;
use program_desk::{Desk, moment, wall_moment};
use shared_entity::Entity;
use shared_lanes::Names;
use std::alloc::Global;
use std::sync::Wait;
use std::time::Clock;

/// What the store's thread does after a turn.
#[derive(Clone, Copy, Debug, PartialEq, Eq)]
pub enum StorerTurn {
    /// It goes on: it stored a file, or tried to.
    Worked,
    /// It rests for some milliseconds: memory ran out.
    Rests,
    /// It waits for a file, or until a lane is told again.
    Idle,
}

/// What stores received files, one after the other, and notifies their lanes.
#[derive(Drop)]
pub struct Storer<'a, N: Names, R: Copy, S: Drop> {
    rt: &'a R,
    alloc: Global,
    entity: &'a Entity<N, R>,
    desk: &'a Desk,
    depot: &'a Depot,
    store: S,
    /// For how many milliseconds storing a file is tried again.
    retry: u64,
    /// Whether notes say where the store kept a file.
    shows_places: bool,
    /// What the depot had no memory for.
    kept: Option<Work>,
    /// When the store was last given work, in microseconds of the runtime's clock.
    begun: u64,
}

impl<'a, N: Names, R: Wait + Copy + Clock, S: Filestore + StationFiles + Drop> Storer<'a, N, R, S> {
    /// Stores into `store` what is left in the depot. Each file is tried at once, and not again. What became of it is
    /// left in the depot, and the main thread is woken at the desk.
    pub fn new(
        rt: &'a R,
        alloc: Global,
        entity: &'a Entity<N, R>,
        desk: &'a Desk,
        depot: &'a Depot,
        store: S,
    ) -> Storer<'a, N, R, S> {
        Storer {
            rt,
            alloc,
            entity,
            desk,
            depot,
            store,
            retry: 0,
            shows_places: false,
            kept: None,
            begun: 0,
        }
    }

    /// Sets for how many milliseconds storing a file is tried again, if what hinders it may pass.
    pub fn try_for(&mut self, milliseconds: u64) {
        self.retry = milliseconds;
    }

    /// Lets notes say where the store kept a file.
    pub fn show_places(&mut self) {
        self.shows_places = true;
    }

    /// Does what is to be done at a moment by the runtime's clock: stores a file, or notifies a lane again.
    pub fn turn(&mut self, now: u64) -> StorerTurn {
        let kept = self.kept.take();
        self.begun = microseconds(self.rt);
        let work = match kept {
            Some(work) => work,
            None => match self.depot.begin(self.rt, now) {
                Some(work) => work,
                None => return StorerTurn::Idle,
            },
        };
        match work {
            Work::Store(pending) => self.store(pending, now),
            Work::Tell(untold) => self.tell(untold, now),
        }
    }

    // Stores a file, or puts it off if something hinders that for now.
    fn store(&mut self, pending: Pending, now: u64) -> StorerTurn {
        let Pending {
            storing,
            deposit,
            last,
        } = pending;
        let last = last.unwrap_or(now.saturating_add(self.retry));
        self.store.enter(deposit.key.source);
        if let Some(why) = self.hindrance(deposit, now < last) {
            let pending = Pending {
                storing: Storing {
                    why: Some(why),
                    ..storing
                },
                deposit,
                last: Some(last),
            };
            return match self.depot.put_off(self.rt, pending, moment(self.rt)) {
                Ok(()) => StorerTurn::Worked,
                Err(back) => self.keep(Work::Store(back)),
            };
        }
        if self.store.calls() == u64::MAX {
            return StorerTurn::Rests;
        }
        let before = self.counts();
        let answer = deposit_one(self.rt, self.entity, &mut self.store, deposit);
        self.settle(storing, before, answer, now)
    }

    // Tells a lane the store's answer again.
    fn tell(&mut self, untold: Untold, now: u64) -> StorerTurn {
        let Untold { storing, rest, .. } = untold;
        self.store.enter(storing.key.source);
        if self.store.calls() == u64::MAX {
            return self.tell_later(storing, rest, now);
        }
        let before = self.counts();
        let answer = finish(self.rt, self.entity, &mut self.store, rest);
        self.settle(storing, before, answer, now)
    }

    // What hinders storing a file for now, if it may be tried again; a store whose counter is at its end takes no file.
    fn hindrance(&mut self, deposit: Deposit, may_retry: bool) -> Option<Hindrance> {
        if self.store.calls() == u64::MAX {
            return Some(Hindrance::Refuses);
        }
        if !may_retry {
            return None;
        }
        match self.entity.image(self.rt, deposit.key, deposit.stamp) {
            Ok(image) => self
                .store
                .prepare(&image.destination_name, &image.octets)
                .err(),
            Err(refusal) if refusal.is_passing() => Some(Hindrance::NoMemory),
            Err(_) => None,
        }
    }

    // How many files were given to the store, and how many it did not keep.
    fn counts(&self) -> (u64, u64) {
        (self.store.calls(), self.store.failures())
    }

    // Leaves what became of a file. If its lane can't take the answer yet, the lane is told later.
    fn settle(
        &mut self,
        storing: Storing,
        before: (u64, u64),
        answer: Result<Done, DepositRest>,
        now: u64,
    ) -> StorerTurn {
        let note = self.note_since(storing, before);
        let counts = self.counts();
        self.depot.end_one(self.rt, counts);
        if let Some(note) = &note {
            self.note_time(storing, note.is_kept);
        }
        match answer {
            Ok(done) => {
                self.leave(note, Some(done));
                StorerTurn::Worked
            }
            Err(rest) => {
                if note.is_some() {
                    self.leave(note, None);
                }
                if rest.refusal.is_passing() {
                    self.tell_later(storing, rest, now)
                } else {
                    StorerTurn::Worked
                }
            }
        }
    }

    // Notes how long the store took for a file, and why it did not keep it.
    fn note_time(&self, storing: Storing, is_kept: bool) {
        let last = LastStore {
            key: storing.key,
            at: wall_moment(self.rt),
            microseconds: microseconds(self.rt).saturating_sub(self.begun),
            why: if is_kept {
                None
            } else {
                Some(self.store.reason())
            },
        };
        self.depot.note_store(self.rt, last);
    }

    // What became of a file, if the store was given one since it counted so many.
    fn note_since(&self, storing: Storing, before: (u64, u64)) -> Option<StoredNote> {
        let (calls, failures) = self.counts();
        if calls == before.0 {
            return None;
        }
        let is_kept = failures == before.1;
        let detail = if !is_kept {
            String::from_str(self.alloc, self.store.reason()).ok()
        } else if self.shows_places {
            String::from_str(self.alloc, self.store.place()).ok()
        } else {
            None
        };
        Some(StoredNote {
            key: storing.key,
            is_kept,
            detail,
        })
    }

    // Leaves something for the main thread.
    fn leave(&self, note: Option<StoredNote>, done: Option<Done>) {
        self.depot.leave_stored(self.rt, Stored { note, done });
        self.desk.wake(self.rt);
    }

    // Tells a lane later that couldn't take the store's answer.
    fn tell_later(&mut self, storing: Storing, rest: DepositRest, now: u64) -> StorerTurn {
        match self.depot.tell_later(self.rt, storing, rest, now) {
            Ok(()) => StorerTurn::Worked,
            Err(back) => self.keep(Work::Tell(back)),
        }
    }

    // Keeps what the depot has no memory for.
    fn keep(&mut self, work: Work) -> StorerTurn {
        self.kept = Some(work);
        StorerTurn::Rests
    }
}

// The moment by the runtime's clock, in microseconds, or 0 if it has none.
fn microseconds(rt: &impl Clock) -> u64 {
    match rt.monotonic() {
        Ok(time) => u64::try_from(time.as_micros()).unwrap_or(u64::MAX),
        Err(_) => 0,
    }
}

/// Stores files until the depot is closed.
pub fn run_storer<N: Names, R: Wait + Copy + Clock, S: Filestore + StationFiles + Drop>(
    storer: Storer<'_, N, R, S>,
) {
    let mut storer = storer;
    let (rt, depot) = (storer.rt, storer.depot);
    for _ in rt.forever() {
        if depot.is_closed() {
            break;
        }
        let now = moment(rt);
        match storer.turn(now) {
            StorerTurn::Worked => {}
            StorerTurn::Rests => depot.rest(rt),
            StorerTurn::Idle => depot.wait_work(rt, now),
        }
    }
    depot.end(rt);
}
