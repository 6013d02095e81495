use cfdp_types::TimerOp;
use std::alloc::AllocError;
use timer_list::{Armed, TimerList};

/// Carries out what a step's answer says about timers at a moment, and returns the first timer that has expired at a later one.
fn first_due(
    timers: &mut TimerList,
    ops: &[TimerOp],
    now: u64,
    later: u64,
) -> Result<Option<Armed>, AllocError> {
    for op in ops {
        timers.apply(*op, now)?;
    }
    Ok(timers.due(later))
}

// ---- the test

use cfdp_types::{EntityId, TimerKind, TxnKey};
use std::test::*;

#[test]
fn a_timer_expires(rt: HostRuntime) -> Result<(), Fail> {
    let key = TxnKey {
        source: EntityId(1),
        seq: 5,
    };
    let arms = [TimerOp::Arm {
        key,
        kind: TimerKind::Ack,
        stamp: 3,
        ms: 200,
    }];
    let mut timers = TimerList::new(rt.alloc());
    let Some(due) = first_due(&mut timers, &arms, 1_000, 1_200)? else {
        return Err(Fail::from("the timer is due"));
    };
    assert_eq!(rt; (due.key, due.stamp, due.deadline), (key, 3, 1_200));
    Ok(())
}
