ghost use Rattle.std.specs.Prelude.{◌≡◌, ◌<◌, length};
ghost use Rattle.cfdp_session.specs.Turns.{first_ready, lane_of};

use std::alloc::{AllocError, Global};
use std::marker::Model;

/// The sending lanes of an entity, each with the number of its transaction if that may have something to send, and the
/// lane whose turn it is.
#[derive(Drop)]
pub struct Turns {
    ready: Vec<Option<u64>>,
    turn: usize,
}

impl Model for Turns {
    ghost use Rattle.std.specs.Prelude.{◌<◌, length};
    ghost use Rattle.cfdp_session.specs.Turns.{TurnsValue};

    ghost Value = { TurnsValue };

    ghost view = { λ t. record { ready = t.ready.items; turn = t.turn } };

    ghost invariant = { λ t. t.turn < length t.ready.items };
}

impl Turns {
    ghost use Rattle.std.specs.Prelude.{◌≡◌, ◌<◌, IfOk};
    ghost use Rattle.cfdp_session.specs.Turns.{begun, next, passed, rested, woken};

    /// Lanes that have nothing to send; the first one has its turn.
    pub fn new(alloc: Global, lanes: usize) -> Result<Turns, AllocError>
        requires { 0 < lanes }
        ensures { IfOk result (λ turns. turns ≡ begun lanes) }
    {
        Ok(Turns {
            ready: vec![in alloc; None; lanes]?,
            turn: 0,
        })
    }

    /// The transaction with this number may have something to send.
    pub fn wake(&mut self, seq: u64)
        ensures { self.new ≡ woken seq self.old }
    {
        let lane = lane_of(seq, self.ready.len());
        self.ready[lane] = Some(seq);
    }

    /// The transaction with this number has nothing to send.
    pub fn rest(&mut self, seq: u64)
        ensures { self.new ≡ rested seq self.old }
    {
        let lane = lane_of(seq, self.ready.len());
        if self.ready[lane] == Some(seq) {
            self.ready[lane] = None;
        }
    }

    /// The lane of the transaction with this number has had its turn.
    pub fn pass(&mut self, seq: u64)
        ensures { self.new ≡ passed seq self.old }
    {
        let lanes = self.ready.len();
        self.turn = (lane_of(seq, lanes) + 1) % lanes;
    }

    /// The number of the transaction that is next: the first that may have something to send, from the lane on whose
    /// turn it is, round all lanes.
    pub fn next(&self) -> Option<u64>
        ensures { result ≡ next self.now }
    {
        match first_ready(&self.ready[self.turn..]) {
            Some(seq) => Some(seq),
            None => first_ready(&self.ready[..self.turn]),
        }
    }
}

// The lane of a transaction among so many.
fn lane_of(seq: u64, lanes: usize) -> usize
    requires { 0 < lanes }
    ensures lane { result ≡ lane_of seq lanes }
    ensures range { result < lanes }
{
    (seq % lanes as u64) as usize
}

// The first of the lanes that may have something to send.
fn first_ready(lanes: &[Option<u64>]) -> Option<u64>
    ensures { result ≡ first_ready lanes.now }
{
    for lane in lanes {
        if let Some(seq) = lane {
            return Some(*seq);
        }
    }
    None
}
