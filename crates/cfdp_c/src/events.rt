//! Events for the entity of a handle.
ghost use Rattle.std.specs.Prelude.{◌≡◌, ◌⊎◌};
ghost use Rattle.entity_routing.specs.declared.world_event.WorldEvent.TheVariants as events;
ghost use Rattle.cfdp_c.specs.Codes.{request_of, timer_kind};
ghost use Rattle.cfdp_c.specs.Calls.{Answers, OrNoMemory};
ghost use Rattle.cfdp_types.specs.declared.names.TimerKind.{TimerKind};
ghost use Rattle.entity_routing.specs.declared.world_event.Request.{Request};

use crate::codes::{BAD_NUMBER, CLOSED, NO_MEMORY, OK, REFUSED, UNKNOWN, request_of, timer_kind};
use crate::handle::Handle;
use crate::hold::{keep, take};
use cfdp_session::{FlatDone, Telling};
use cfdp_types::{EntityId, Octets, TxnKey};
use std::alloc::Global;
use world_core::WorldEvent;

/// Passes an event to the entity of the handle, and reports the result.
pub(crate) fn tell(
    alloc: Global,
    handle: &mut Handle,
    event: &WorldEvent,
    done: &mut FlatDone,
) -> i32
    ensures { Answers result handle.old.owner.held handle.new.owner.held event.now done.new }
{
    let Some(mut session) = take(handle, alloc) else {
        return CLOSED;
    };
    let told = session.tell(event);
    let answer = session.done();
    *handle = keep(session);
    match told {
        Telling::NoSuch => UNKNOWN,
        Telling::NoMemory => NO_MEMORY,
        Telling::Told => {
            *done = answer;
            if answer.refusal == 0 { OK } else { REFUSED }
        }
    }
}

/// A datagram was received.
#[unsafe(no_mangle)]
pub extern "C" fn cfdp_deliver(
    alloc: Global,
    handle: &mut Handle,
    octets: &[u8],
    done: &mut FlatDone,
) -> i32
    ensures { OrNoMemory result handle.old.owner.held handle.new.owner.held
        (Answers result handle.old.owner.held handle.new.owner.held (events.Deliver octets.now) done.new) }
{
    match Octets::from_slice(alloc, octets) {
        Ok(octets) => tell(alloc, handle, &WorldEvent::Deliver(octets), done),
        Err(_) => NO_MEMORY,
    }
}

/// The next PDU of a transaction is due to be sent.
#[unsafe(no_mangle)]
pub extern "C" fn cfdp_pump(
    alloc: Global,
    handle: &mut Handle,
    source: u64,
    seq: u64,
    done: &mut FlatDone,
) -> i32
    ensures { Answers result handle.old.owner.held handle.new.owner.held
        (events.Pump (record { source = record { 0 = source }; seq = seq })) done.new }
{
    let key = TxnKey {
        source: EntityId(source),
        seq,
    };
    tell(alloc, handle, &WorldEvent::Pump(key), done)
}

/// A transaction's timer that was armed with this stamp expired.
#[unsafe(no_mangle)]
pub extern "C" fn cfdp_timer(
    alloc: Global,
    handle: &mut Handle,
    source: u64,
    seq: u64,
    kind: u32,
    stamp: u32,
    done: &mut FlatDone,
) -> i32
    ensures known { (timer : TimerKind) → timer_kind kind ≡ Some timer
        → Answers result handle.old.owner.held handle.new.owner.held
        (events.Timer (record { source = record { 0 = source }; seq = seq }) timer stamp) done.new }
    ensures bad { timer_kind kind ≡ None → result ≡ BAD_NUMBER }
    ensures same { timer_kind kind ≡ None → handle.new ≡ handle.old }
{
    let key = TxnKey {
        source: EntityId(source),
        seq,
    };
    match timer_kind(kind) {
        Some(kind) => tell(alloc, handle, &WorldEvent::Timer(key, kind, stamp), done),
        None => BAD_NUMBER,
    }
}

/// The file store answered a transaction's deposit with this stamp; true if it keeps the file.
#[unsafe(no_mangle)]
pub extern "C" fn cfdp_stored(
    alloc: Global,
    handle: &mut Handle,
    source: u64,
    seq: u64,
    stamp: u32,
    kept: bool,
    done: &mut FlatDone,
) -> i32
    ensures { Answers result handle.old.owner.held handle.new.owner.held
        (events.Stored (record { source = record { 0 = source }; seq = seq }) stamp kept) done.new }
{
    let key = TxnKey {
        source: EntityId(source),
        seq,
    };
    tell(alloc, handle, &WorldEvent::Stored(key, stamp, kept), done)
}

/// A user makes a request on one of its transactions.
#[unsafe(no_mangle)]
pub extern "C" fn cfdp_request(
    alloc: Global,
    handle: &mut Handle,
    user: usize,
    kind: u32,
    source: u64,
    seq: u64,
    done: &mut FlatDone,
) -> i32
    ensures known { (request : Request)
        → request_of kind (record { source = record { 0 = source }; seq = seq }) ≡ Some request
        → Answers result handle.old.owner.held handle.new.owner.held (events.Request user request) done.new }
    ensures bad { request_of kind (record { source = record { 0 = source }; seq = seq }) ≡ None → result ≡ BAD_NUMBER }
    ensures same { request_of kind (record { source = record { 0 = source }; seq = seq }) ≡ None
        → handle.new ≡ handle.old }
{
    let key = TxnKey {
        source: EntityId(source),
        seq,
    };
    match request_of(kind, key) {
        Some(request) => tell(alloc, handle, &WorldEvent::Request(user, request), done),
        None => BAD_NUMBER,
    }
}
