//! What passes between the main thread and the one that stores received files.
use cfdp_types::{Deposit, TxnKey};
use disk::Hindrance;
use entity_config::Config;
use entity_routing::lanes_of;
use entity_workers::DepositRest;
use lane_table::Done;
use program_agenda::StoreQueue;
use program_desk::moment;
use std::alloc::{AllocError, Global};
use std::collections::VecDeque;
use std::sync::atomic::{AtomicBool, Ordering};
use std::sync::{Condvar, CondvarTimeouts, Mutex, Wait};
use std::time::{Clock, Duration};

// How many milliseconds later work that the entity refused for now is tried again.
const REST_MS: u64 = 10;

/// A received file on its way into the store.
#[derive(Clone, Copy)]
pub struct Storing {
    pub key: TxnKey,
    /// Since when it is to be stored, in milliseconds since 1970.
    pub since: u64,
    /// What hindered the last try, if it was tried.
    pub why: Option<Hindrance>,
}

/// A received file that waits for the store.
#[derive(Drop)]
pub(crate) struct Pending {
    pub(crate) storing: Storing,
    pub(crate) deposit: Deposit,
    /// Up to which moment by the runtime's clock it is tried again, if storing it fails for a while. The store's thread
    /// sets it at the first try.
    pub(crate) last: Option<u64>,
}

/// A lane that couldn't take the store's result yet.
#[derive(Drop)]
pub(crate) struct Untold {
    pub(crate) storing: Storing,
    pub(crate) rest: DepositRest,
    /// When it is told again, by the runtime's clock.
    due: u64,
}

/// What the store's thread does next.
#[derive(Drop)]
pub(crate) enum Work {
    Store(Pending),
    Tell(Untold),
}

/// What became of a received file.
#[derive(Debug, Drop)]
pub struct StoredNote {
    pub key: TxnKey,
    /// Whether the store kept it.
    pub is_kept: bool,
    /// Where the store kept it, if that is wanted, or why it did not, if there was memory for that.
    pub detail: Option<String>,
}

/// The last file that the store was given.
#[derive(Clone, Copy, Debug, PartialEq, Eq)]
pub struct LastStore {
    pub key: TxnKey,
    /// When it was stored, in milliseconds since 1970.
    pub at: u64,
    /// How long the last try to store it took, in microseconds.
    pub microseconds: u64,
    /// Why the store did not keep it, in words, if it didn't.
    pub why: Option<&'static str>,
}

/// What the store's thread leaves for the main thread.
#[derive(Debug, Drop)]
pub struct Stored {
    /// What became of a file that the store was given.
    pub note: Option<StoredNote>,
    /// The step of its lane.
    pub done: Option<Done>,
}

/// What a depot shows of itself.
#[derive(Drop)]
pub struct DepotReport {
    /// The file that the store is at.
    pub under_way: Option<Storing>,
    /// Those that couldn't be stored so far, in the order in which they are tried again.
    pub waiting: Vec<Storing>,
}

// What is behind the lock.
#[derive(Drop)]
struct Trays {
    queue: StoreQueue<Pending>,
    /// The lanes that are told again, by the moments at which they are.
    untold: VecDeque<Untold>,
    stored: VecDeque<Stored>,
    under_way: Option<Storing>,
    /// How many files were given to the store, and how many of them it did not keep.
    stores: (u64, u64),
    last_store: Option<LastStore>,
    has_ended: bool,
}

/// Where the main thread leaves received files to be stored, and the thread that stores them leaves what became of
/// each. Room for one file of each lane is reserved at the start.
#[derive(Drop)]
pub struct Depot {
    trays: Mutex<Trays>,
    /// Notified when a file was left, or when the depot is closed.
    came: Condvar,
    /// Notified when the main thread took something, and when the store's thread has ended.
    took: Condvar,
    /// For threads that ask often and must not wait for the lock.
    has_stored: AtomicBool,
    is_closed: AtomicBool,
    room: usize,
}

impl Depot {
    /// An empty depot, with room for a file of each lane of a configuration.
    pub fn new(alloc: Global, config: &Config) -> Result<Depot, AllocError> {
        let mut lanes = 0usize;
        for user in 0..config.users() {
            lanes = lanes.saturating_add(lanes_of(config, user));
        }
        Ok(Depot {
            trays: Mutex::new(Trays {
                queue: StoreQueue::new(alloc, lanes)?,
                untold: VecDeque::with_capacity(alloc, lanes)?,
                stored: VecDeque::with_capacity(alloc, lanes)?,
                under_way: None,
                stores: (0, 0),
                last_store: None,
                has_ended: false,
            }),
            came: Condvar::new(),
            took: Condvar::new(),
            has_stored: AtomicBool::new(false),
            is_closed: AtomicBool::new(false),
            room: lanes,
        })
    }

    /// How many lanes there are; each may leave a file.
    pub fn room(&self) -> usize {
        self.room
    }

    /// Leaves a file to be stored, at a moment in milliseconds since 1970. It is returned if memory runs out.
    pub fn leave<R: Wait>(&self, rt: &R, deposit: Deposit, since: u64) -> Result<(), Deposit> {
        let pending = Pending {
            storing: Storing {
                key: deposit.key,
                since,
                why: None,
            },
            deposit,
            last: None,
        };
        let mut trays = self.trays.lock(rt);
        let added = trays.queue.add(pending).is_ok();
        drop(trays);
        if !added {
            return Err(deposit);
        }
        self.came.notify_one();
        Ok(())
    }

    /// Takes what the store's thread has left, if it left something.
    pub fn take_stored<R: Wait>(&self, rt: &R) -> Option<Stored> {
        if !self.has_stored.load(Ordering::SeqCst) {
            return None;
        }
        let mut trays = self.trays.lock(rt);
        let stored = trays.stored.pop_front();
        self.has_stored
            .store(!trays.stored.is_empty(), Ordering::SeqCst);
        drop(trays);
        self.took.notify_all();
        stored
    }

    /// How many files were given to the store, and how many of them it did not keep.
    pub fn stores<R: Wait>(&self, rt: &R) -> (u64, u64) {
        self.trays.lock(rt).stores
    }

    /// The last file that the store was given, if it was given one.
    pub fn last_store<R: Wait>(&self, rt: &R) -> Option<LastStore> {
        self.trays.lock(rt).last_store
    }

    /// Which file the store is at, and which wait because they couldn't be stored so far.
    pub fn report<R: Wait>(&self, rt: &R, alloc: Global) -> Result<DepotReport, AllocError> {
        let mut waiting = Vec::new(alloc);
        let trays = self.trays.lock(rt);
        for retry in trays.queue.tried() {
            waiting.push(retry.file.storing)?;
        }
        Ok(DepotReport {
            under_way: trays.under_way,
            waiting,
        })
    }

    /// Closes the depot: the store's thread ends once it has stored the file that it is at.
    pub fn close<R: Wait>(&self, rt: &R) {
        let trays = self.trays.lock(rt);
        self.is_closed.store(true, Ordering::SeqCst);
        drop(trays);
        self.came.notify_all();
        self.took.notify_all();
    }

    /// Whether the depot is closed. Takes no lock.
    pub fn is_closed(&self) -> bool {
        self.is_closed.load(Ordering::SeqCst)
    }

    /// Waits until the store's thread has ended, for so many milliseconds at most; returns whether it has.
    pub fn wait_end<R: Wait + Clock>(&self, rt: &R, milliseconds: u64) -> bool {
        let until = moment(rt).saturating_add(milliseconds);
        let mut trays = self.trays.lock(rt);
        for _ in rt.forever() {
            if trays.has_ended || moment(rt) >= until {
                break;
            }
            let (back, _) = self
                .took
                .wait_timeout(rt, trays, Duration::from_millis(REST_MS));
            trays = back;
        }
        trays.has_ended
    }

    /// Whether the store's thread has ended.
    pub fn has_ended<R: Wait>(&self, rt: &R) -> bool {
        self.trays.lock(rt).has_ended
    }
}

impl Depot {
    // Takes what the store's thread does next at a moment, if there is anything. A lane that is told again comes before
    // files.
    pub(crate) fn begin<R: Wait>(&self, rt: &R, now: u64) -> Option<Work> {
        let mut trays = self.trays.lock(rt);
        if soonest_untold(&trays) <= now {
            return Some(Work::Tell(trays.untold.pop_front()?));
        }
        let pending = trays.queue.next(now)?;
        trays.under_way = Some(pending.storing);
        Some(Work::Store(pending))
    }

    // Puts off a file that couldn't be stored at a moment: it is tried again later. It is returned if memory runs out.
    pub(crate) fn put_off<R: Wait>(
        &self,
        rt: &R,
        pending: Pending,
        now: u64,
    ) -> Result<(), Pending> {
        let mut trays = self.trays.lock(rt);
        trays.under_way = None;
        trays.queue.put_off(pending, now)
    }

    // Puts off telling a lane that couldn't take the store's answer: it is told again some milliseconds after a moment.
    // What it is told is returned if memory runs out.
    pub(crate) fn tell_later<R: Wait>(
        &self,
        rt: &R,
        storing: Storing,
        rest: DepositRest,
        now: u64,
    ) -> Result<(), Untold> {
        let due = now.saturating_add(REST_MS);
        let untold = Untold { storing, rest, due };
        match self.trays.lock(rt).untold.push_back(untold) {
            Ok(()) => Ok(()),
            Err(back) => Err(back.value),
        }
    }

    // Notes that the store is at no file, and how many it was given and did not keep.
    pub(crate) fn end_one<R: Wait>(&self, rt: &R, stores: (u64, u64)) {
        let mut trays = self.trays.lock(rt);
        trays.under_way = None;
        trays.stores = stores;
    }

    // Notes how long the store took for the last file that it was given.
    pub(crate) fn note_store<R: Wait>(&self, rt: &R, last: LastStore) {
        self.trays.lock(rt).last_store = Some(last);
    }

    // Leaves what became of a file. It waits while there is no room, until the depot is closed.
    pub(crate) fn leave_stored<R: Wait>(&self, rt: &R, stored: Stored) {
        let mut trays = self.trays.lock(rt);
        for _ in rt.forever() {
            if trays.stored.len() < self.room || self.is_closed() {
                break;
            }
            trays = self.took.wait(rt, trays);
        }
        let _there_was_room = trays.stored.push_back(stored);
        self.has_stored.store(true, Ordering::SeqCst);
    }

    // Waits until there is something to do, from a moment by the runtime's clock on, or until the depot is closed.
    pub(crate) fn wait_work<R: Wait + Clock>(&self, rt: &R, now: u64) {
        let trays = self.trays.lock(rt);
        let soonest = trays.queue.soonest().min(soonest_untold(&trays));
        if soonest <= now || self.is_closed() {
            return;
        }
        if soonest == u64::MAX {
            let _trays = self.came.wait(rt, trays);
        } else {
            let length = Duration::from_millis(soonest - now);
            let _waited = self.came.wait_timeout(rt, trays, length);
        }
    }

    // Waits for some milliseconds, or until a file is left.
    pub(crate) fn rest<R: Wait + Clock>(&self, rt: &R) {
        let trays = self.trays.lock(rt);
        if !self.is_closed() {
            let _waited = self
                .came
                .wait_timeout(rt, trays, Duration::from_millis(REST_MS));
        }
    }

    // Notes that the store's thread has ended.
    pub(crate) fn end<R: Wait>(&self, rt: &R) {
        self.trays.lock(rt).has_ended = true;
        self.took.notify_all();
    }
}

// When the first lane is told again, or the greatest moment of 64 bits.
fn soonest_untold(trays: &Trays) -> u64 {
    match trays.untold.front() {
        Some(untold) => untold.due,
        None => u64::MAX,
    }
}
