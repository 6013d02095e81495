use cfdp_types::{EntityId, TimerKind, TimerOp, TxnKey};
use program_agenda::{Agenda, StoreQueue};
use std::alloc::{AllocError, Global};
use std::test::*;

const ARM: TimerOp = TimerOp::Arm {
    key: TxnKey {
        source: EntityId(1),
        seq: 5,
    },
    kind: TimerKind::Nak,
    stamp: 1,
    ms: 1_000,
};

// A timer that has expired is put back, expires again, and rests while the link to the fourth remote entity is held.
fn timer_comes(agenda: &mut Agenda) -> Result<bool, AllocError> {
    agenda.apply(ARM, 0)?;
    let Some(timer) = agenda.due(1_000) else {
        return Ok(false);
    };
    Ok(
        agenda.put_back(timer).is_ok()
            && agenda.due(1_000) == Some(timer)
            && agenda.lay_by(3, timer).is_ok()
            && agenda.due(1_000).is_none()
            && agenda.next_resting(3) == Some(timer),
    )
}

#[test]
fn timers(rt: HostRuntime) -> Result<(), Fail> {
    assert!(rt; timer_comes(&mut Agenda::new(rt.alloc()))?);
    Ok(())
}

// A file that couldn't be stored comes a second later, after one that wasn't tried yet, and keeps its moment where another one
// can't be stored either.
fn is_put_off(alloc: Global) -> Result<bool, AllocError> {
    let mut queue = StoreQueue::new(alloc, 2)?;
    let is_added = queue.add(7u32).is_ok() && queue.next(100) == Some(7);
    let is_put_off = queue.put_off(7, 100).is_ok() && queue.soonest() == 1_100;
    let is_behind = queue.add(8).is_ok() && queue.soonest() == 0 && queue.next(2_000) == Some(8);
    let keeps_its_moment = queue.put_off(8, 500).is_ok() && queue.soonest() == 1_100;
    Ok(
        is_added
            && is_put_off
            && is_behind
            && keeps_its_moment
            && queue.next(1_099).is_none()
            && queue.next(1_100) == Some(7)
            && queue.tried().len() == 1
            && queue.soonest() == 1_500,
    )
}

#[test]
fn stores(rt: HostRuntime) -> Result<(), Fail> {
    assert!(rt; is_put_off(rt.alloc())?);
    Ok(())
}
