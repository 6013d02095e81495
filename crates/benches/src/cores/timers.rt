//! Timers armed again and again.
use crate::fault::Fault;
use cfdp_types::{EntityId, TimerKind, TimerOp, TxnKey};
use std::alloc::{AllocError, Global};
use timer_list::TimerList;

/// Turns in which every tenth timer is armed again.
const TURNS: u32 = 100;

// Returns how many timers come due while this many are armed, every tenth again in each turn, and some are taken out.
fn turn(timers: &mut TimerList, count: u32) -> Result<u64, AllocError> {
    for seq in 0..count {
        timers.apply(arming(seq, 0), 0)?;
    }
    let mut due = 0u64;
    for turn in 1..=TURNS {
        for seq in (turn % 10..count).step_by(10) {
            timers.apply(arming(seq, turn), u64::from(turn))?;
        }
        due = due.saturating_add(taken(timers, u64::from(turn)));
    }
    for _ in 0..TURNS {
        due = due.saturating_add(taken(timers, u64::MAX));
    }
    Ok(due)
}

/// Arms this many timers. In each turn every tenth is armed again, and the list is asked what is due. At the end some
/// are taken out. Returns how many came due.
pub(crate) fn turns(alloc: Global, count: u32) -> Result<u64, Fault> {
    let mut timers = TimerList::new(alloc);
    Ok(turn(&mut timers, count)?)
}

// Asks for a timer that is due, and returns how many were taken out, 0 or 1.
fn taken(timers: &mut TimerList, now: u64) -> u64 {
    u64::from(timers.due(now).is_some())
}

// The arming of a transaction's timer by a step.
fn arming(seq: u32, stamp: u32) -> TimerOp {
    let key = TxnKey {
        source: EntityId(1),
        seq: u64::from(seq),
    };
    TimerOp::Arm {
        key,
        kind: TimerKind::Ack,
        stamp,
        ms: 1000,
    }
}
