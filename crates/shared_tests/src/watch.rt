//! A gate that has lanes step, counts the points that its threads reach, and may hold them at one of them.
ghost use Rattle.std.specs.Prelude.{◌≡◌};

use crate::said::{Said, of_step};
use shared_lanes::{Gate, Held, Names, Point};
use std::sync::Wait;
use std::sync::atomic::{AtomicU64, Ordering};
use std::thread::Parker;
use std::time::Duration;
use txn_events::Event;

/// How often a thread checks.
pub(crate) const TURNS: u32 = 1_000_000;

/// Lets other threads run for a moment. If a thread only yields, it may use up all its turns before another that it
/// waits for has its first.
pub(crate) fn pause<R: Wait>(rt: &R) {
    Parker::new().park_timeout(rt, Duration::from_micros(50));
}

/// The gate. Threads that reach `stop` wait there until `wanted` threads have arrived, themselves among them.
#[derive(Drop)]
pub(crate) struct Watch<R> {
    rt: R,
    stop: Option<Point>,
    wanted: u64,
    arrived: AtomicU64,
    met: AtomicU64,
    points: AtomicU64,
}

impl<R: Wait> Watch<R> {
    /// A gate that holds nobody.
    pub(crate) fn new(rt: R) -> Watch<R> {
        Watch {
            rt,
            stop: None,
            wanted: 0,
            arrived: AtomicU64::new(0),
            met: AtomicU64::new(0),
            points: AtomicU64::new(0),
        }
    }

    /// A gate that holds threads.
    pub(crate) fn holding(rt: R, stop: Point, wanted: u64) -> Watch<R> {
        Watch {
            stop: Some(stop),
            wanted,
            ..Watch::new(rt)
        }
    }

    /// Counts a thread that has arrived.
    pub(crate) fn arrive(&self) {
        self.arrived.fetch_add(1, Ordering::SeqCst);
    }

    /// Waits until this many threads have arrived, and returns whether they did.
    pub(crate) fn waits_for(&self, wanted: u64) -> bool {
        for _ in 0..TURNS {
            if self.arrived.load(Ordering::SeqCst) >= wanted {
                return true;
            }
            pause(&self.rt);
        }
        false
    }

    /// How many threads were held until all had arrived.
    pub(crate) fn met(&self) -> u64 {
        self.met.load(Ordering::SeqCst)
    }

    /// How often its threads locked a lane of the first user, plus a hundred times how often they locked one of another
    /// user, plus ten thousand times how often they took a datagram.
    pub(crate) fn points(&self) -> u64 {
        self.points.load(Ordering::SeqCst)
    }

    // Holds a thread. Then it waits a while longer; meanwhile no other thread may have what it has.
    fn hold(&self) {
        self.arrive();
        if self.waits_for(self.wanted) {
            self.met.fetch_add(1, Ordering::SeqCst);
        }
        for _ in 0..100 {
            pause(&self.rt);
        }
    }
}

impl<N: Names, R: Wait + Copy> Gate<N, R> for Watch<R> {
    type Answer = Said;

    ghost gives = { λ gate old event answer new. new ≡ new };

    fn at(&self, point: Point) {
        let weight = match point {
            Point::Locked(0) => 1,
            Point::Locked(_) => 100,
            Point::Taken => 10_000,
        };
        self.points.fetch_add(weight, Ordering::SeqCst);
        if self.stop == Some(point) {
            self.hold();
        }
    }

    fn locked(&self, held: &mut Held<N, R>, event: &Event) -> Said {
        of_step(held.step(event))
    }
}
