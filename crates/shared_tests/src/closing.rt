//! Two threads deliver files to one user, and then the entity is closed.
ghost use Rattle.std.specs.Prelude.{◌≡◌, All};

use crate::acts::{eof, metadata};
use crate::heard::Heard;
use crate::runs::{Run, play};
use crate::said::push_line;
use crate::watch::TURNS;
use shared_entity::Entity;
use shared_lanes::{Names, NoGate};
use std::alloc::AllocError;
use std::sync::Wait;
use std::test::*;
use std::thread;
use std::thread::Threads;
use user_queues::{LaneOutlet, UserPort};

// Whether a lane accepted a datagram.
fn is_taken<N: Names, R: Wait + Copy>(rt: &R, entity: &Entity<N, R>, octets: &[u8]) -> bool {
    matches!(&entity.deliver(rt, &NoGate, octets), Ok(Ok(_)))
}

// Whether both datagrams of a file were accepted.
fn deliver_both<N: Names, R: Wait + Copy>(rt: &R, entity: &Entity<N, R>, seq: u8) -> bool {
    is_taken(rt, entity, &metadata(1, seq)) && is_taken(rt, entity, &eof(1, seq))
}

/// Delivers two files, each in its own thread. Then the user takes all indications, and the lanes give their
/// outlets back.
pub(crate) fn deliver_two<N: Names + Send + Sync, R: Threads + Wait + Copy + Send + Sync>(
    rt: &R,
    text: &mut String,
    entity: Entity<N, R>,
    port: UserPort,
) -> Result<(), AllocError>
    requires { port.queue ≡ N.queue port.knows.user }
{
    let (five, six) = thread::join(
        rt,
        || deliver_both(rt, &entity, 5),
        || deliver_both(rt, &entity, 6),
    );
    let mut port = port;
    let mut heard = Heard::new(0);
    take_all(rt, &mut heard, &mut port);
    admit_own::<N, R>(&mut port, entity.into_lanes());
    let is_complete = port.is_complete();
    take_all(rt, &mut heard, &mut port);
    let outcomes = [u64::from(five), u64::from(six), u64::from(is_complete)];
    push_line(text, "delivered and complete", &outcomes)?;
    heard.push(text)
}

// Takes all bundles that wait.
fn take_all<R: Wait>(rt: &R, heard: &mut Heard, port: &mut UserPort)
    ensures queue { port.new.queue ≡ port.old.queue }
    ensures user { port.new.knows.user ≡ port.old.knows.user }
{
    for _ in 0..TURNS {
        if !heard.take(rt, port) {
            return;
        }
    }
}

// Gives the outlets of a user's lanes back to the user's port.
fn admit_own<N: Names, R: Copy>(port: &mut UserPort, outlets: Vec<LaneOutlet<R>>)
    requires port { port.old.queue ≡ N.queue port.old.knows.user }
    requires outlets { All (λ outlet. outlet.queue ≡ N.queue outlet.knows.user) outlets.items }
{
    for outlet in outlets {
        if outlet.user() == port.user() {
            port.admit(outlet);
        }
    }
}

#[test]
fn two_deliveries(rt: HostRuntime) -> Result<(), Fail> {
    let text = play(rt, 8, Run::Closing)?;
    assert_eq!(rt;
        text.as_str(),
        "delivered and complete 1 1 1\nlanes 0 0 61062 51052\nothers 0\n"
    );
    Ok(())
}
