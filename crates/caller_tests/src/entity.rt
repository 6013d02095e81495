use cfdp_types::TxnKey;
use entity_routing::Request;
use lane_table::Done;
use shared_entity::{Entity, EntityRefusal, Names, NoGate};
use std::sync::Wait;

/// Cancels a transaction of a user's, from any thread. A program sends the PDUs of the answer, and starts and stops its timers.
fn cancel<N: Names, R: Wait + Copy>(
    rt: &R,
    entity: &Entity<N, R>,
    user: usize,
    key: TxnKey,
) -> Result<Option<Done>, EntityRefusal> {
    let request = Request::Cancel(key);
    if !entity.may_request(user, &request) {
        return Ok(None);
    }
    match entity.request(rt, &NoGate, user, request)? {
        Ok(done) => Ok(Some(done)),
        Err(refused) => Err(EntityRefusal::Lane(refused)),
    }
}

// ---- the test
ghost use Rattle.shared_entity.specs.Opening.{AreQueuesFor};

use cfdp_types::EntityId;
use entity_config::Config;
use shared_entity::queues_of;
use std::alloc::{AllocError, Global};
use std::marker::Brand;
use std::test::*;
use user_queues::Queues;

// Whether a transaction that nobody put can't be cancelled. The proofs about an entity refer to its queues by the name
// `N`.
fn refuses<N: Names, R: Wait + Copy>(
    rt: R,
    alloc: Global,
    config: Config,
    queues: Queues<R>,
) -> Result<bool, AllocError>
    requires { AreQueuesFor N.queue N.lanes config queues }
{
    let (entity, _ports) = Entity::<N, R>::open(alloc, config, queues)?;
    let key = TxnKey {
        source: EntityId(2),
        seq: 4,
    };
    let is_refused = cancel(&rt, &entity, 0, key).is_err();
    let is_nobody = matches!(cancel(&rt, &entity, 9, key), Ok(None));
    entity.into_lanes();
    Ok(is_refused && is_nobody)
}

#[test]
fn nothing_is_there_to_cancel(rt: HostRuntime) -> Result<(), Fail> {
    let alloc = rt.alloc();
    let config = Config::reference(alloc)?;
    let queues = queues_of(rt, alloc, &config)?;
    let refuses = refuses::<Brand, HostRuntime>(rt, alloc, config, queues)?;
    assert!(rt; refuses);
    Ok(())
}
