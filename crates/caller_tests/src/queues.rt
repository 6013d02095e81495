use indications::Indication;
use std::sync::Wait;
use user_queues::UserPort;

/// How many transactions ended by what a user's queue holds. A user takes; bundles come in the order in which the lanes put them.
fn count_ends<R: Wait>(rt: &R, port: &mut UserPort) -> usize {
    let mut ends = 0usize;
    for _ in 0..port.room() {
        let Some(bundle) = port.take(rt) else {
            break;
        };
        for said in bundle.inds.as_slice() {
            if matches!(said, Indication::TransactionFinished { .. }) {
                ends = ends.saturating_add(1);
            }
        }
    }
    ends
}

// ---- the test

use std::test::*;
use user_queues::open;

#[test]
fn an_empty_queue_has_no_ends(rt: HostRuntime) -> Result<(), Fail> {
    let mut queues = open(rt, rt.alloc(), &[2], 8)?;
    match queues.users.pop() {
        None => Err(Fail::from("there is a user")),
        Some(mut ends) => {
            assert_eq!(rt; count_ends(&rt, &mut ends.port), 0);
            Ok(())
        }
    }
}
