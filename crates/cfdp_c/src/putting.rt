//! Putting a file, with messages.
ghost use Rattle.std.specs.Prelude.{◌≡◌, ◌∷◌, ◌++◌, ◌≤◌, ◌<◌, ◌⊎◌, [], length, option_map};
ghost use Rattle.cfdp_types.specs.declared.names.Class.{Class};
ghost use Rattle.cfdp_types.specs.declared.put_request.PutFault.{PutFault};
ghost use Rattle.cfdp_session.specs.Orders.{put_to};
ghost use Rattle.cfdp_session.specs.declared.session.Session.{Session};
ghost use Rattle.cfdp_c.specs.Codes.{class_of, put_code};
ghost use Rattle.cfdp_c.specs.Calls.{Answers, Clears, IsMessage, Puts, emptied};
ghost use Rattle.entity_routing.specs.declared.world_event.Request.TheVariants as requests;
ghost use Rattle.entity_routing.specs.declared.world_event.WorldEvent.TheVariants as events;

use crate::codes::{BAD_NUMBER, CLOSED, OK, class_of, code_of};
use crate::events::tell;
use crate::handle::Handle;
use crate::hold::{keep, take};
use cfdp_session::{FlatDone, Order};
use cfdp_types::{EntityId, PutRequest};
use std::alloc::Global;
use world_core::{Request, WorldEvent};

/// Adds a message for the next Put.
#[unsafe(no_mangle)]
pub extern "C" fn cfdp_message(alloc: Global, handle: &mut Handle, octets: &[u8]) -> i32
    ensures { IsMessage result handle.old.owner.held handle.new.owner.held octets.now }
{
    let Some(mut session) = take(handle, alloc) else {
        return CLOSED;
    };
    let added = session.add_message(alloc, octets);
    *handle = keep(session);
    match added {
        Ok(()) => OK,
        Err(fault) => code_of(fault),
    }
}

/// Drops the messages that were added for the next Put.
#[unsafe(no_mangle)]
pub extern "C" fn cfdp_message_clear(alloc: Global, handle: &mut Handle) -> i32
    ensures { Clears result handle.old.owner.held handle.new.owner.held }
{
    clear(alloc, handle)
}

// Drops the messages for the next Put.
fn clear(alloc: Global, handle: &mut Handle) -> i32
    ensures { Clears result handle.old.owner.held handle.new.owner.held }
{
    let Some(mut session) = take(handle, alloc) else {
        return CLOSED;
    };
    session.forget_messages(alloc);
    *handle = keep(session);
    OK
}

/// A user puts a file on this one of its sending lanes, with the messages that were added before. They are gone
/// afterwards, whatever the result.
#[unsafe(no_mangle)]
pub extern "C" fn cfdp_put(
    alloc: Global,
    handle: &mut Handle,
    user: usize,
    lane: usize,
    destination: u64,
    class: u32,
    closure: bool,
    source_name: &[u8],
    destination_name: &[u8],
    file: &[u8],
    done: &mut FlatDone,
) -> i32
    ensures known { (known : Class) → class_of class ≡ Some known
        → Puts result handle.old.owner.held handle.new.owner.held user lane
        (put_to (record { 0 = destination }) known closure source_name.now destination_name.now file.now) done.new }
    ensures bad { class_of class ≡ None → result ≡ BAD_NUMBER }
    ensures emptied { class_of class ≡ None → handle.new.owner.held ≡ option_map emptied handle.old.owner.held }
{
    let Some(class) = class_of(class) else {
        let _is_open = clear(alloc, handle);
        return BAD_NUMBER;
    };
    let order = Order {
        destination: EntityId(destination),
        class,
        closure,
        source_name,
        destination_name,
        file,
    };
    put(alloc, handle, user, lane, &order, done)
}

// Makes a Put request and passes it to the entity.
fn put(
    alloc: Global,
    handle: &mut Handle,
    user: usize,
    lane: usize,
    order: &Order<'_>,
    done: &mut FlatDone,
) -> i32
    ensures { Puts result handle.old.owner.held handle.new.owner.held user lane
        (put_to order.now.destination order.now.class order.now.closure order.now.source_name.now
        order.now.destination_name.now order.now.file.now) done.new }
{
    let Some(mut session) = take(handle, alloc) else {
        return CLOSED;
    };
    let made = session.put(alloc, order);
    *handle = keep(session);
    match made {
        Ok(put) => tell_put(alloc, handle, user, lane, put, done),
        Err(fault) => code_of(fault),
    }
}

// Passes a Put request to the entity.
fn tell_put(
    alloc: Global,
    handle: &mut Handle,
    user: usize,
    lane: usize,
    put: PutRequest,
    done: &mut FlatDone,
) -> i32
    ensures { Answers result handle.old.owner.held handle.new.owner.held
        (events.Request user (requests.Put lane put)) done.new }
{
    let event = WorldEvent::Request(user, Request::Put(lane, put));
    tell(alloc, handle, &event, done)
}
