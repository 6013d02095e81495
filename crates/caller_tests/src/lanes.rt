ghost use Rattle.lane_table.specs.Steps.{IsKeyed};
ghost use Rattle.txn_lane.specs.Stepping.{IsOutletOf};

use cfdp_types::TxnKey;
use indications::Outlet;
use txn_events::{Event, What};
use txn_lane::{Done, Lane, Refused};

/// Has a lane's transaction send its next PDU. What it tells its user goes to the lane's outlet.
fn pump<O: Outlet>(lane: &mut Lane, outlet: &mut O, key: TxnKey) -> Result<Done, Refused>
    requires { IsOutletOf O.user O.lane O.stands lane.old outlet.old }
{
    lane.step(&Event::On(key, What::Pump), outlet)
}

// ---- the test
ghost use Rattle.std.specs.Prelude.{◌≡◌, IfOk};

use cfdp_types::EntityId;
use std::alloc::{AllocError, Global};
use std::test::*;
use txn_events::Refusal;
use txn_lane::Numbers;
use user_queues::ListQueue;

// Why a lane that has sent nothing sends no PDU.
fn refusal_of_idle(alloc: Global) -> Result<Option<Refusal>, AllocError> {
    let numbers = Numbers {
        first: 0,
        lanes: 1,
        users: 1,
    };
    let mut lane = Lane::sending(alloc, 0, 0, EntityId(2), numbers, 255);
    let mut queue = ListQueue::new(alloc, 0, 1, 8)?;
    let key = TxnKey {
        source: EntityId(2),
        seq: 0,
    };
    let mut outlet = queue.outlet(0);
    match pump(&mut lane, &mut outlet, key) {
        Ok(_done) => Ok(None),
        Err(refused) => Ok(Some(refused.why)),
    }
}

#[test]
fn an_idle_lane_sends_nothing(rt: HostRuntime) -> Result<(), Fail> {
    assert_eq!(rt; refusal_of_idle(rt.alloc())?, Some(Refusal::NoTransaction));
    Ok(())
}
