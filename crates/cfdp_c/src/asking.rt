//! Asking for what the last event left, for bundles and for files.
ghost use Rattle.std.specs.Prelude.{◌≡◌, ◌⊎◌, length, slice_get, option_map};
ghost use Rattle.pdu_values.specs.Spelling as spelling;
ghost use Rattle.cfdp_session.specs.Flat.{flat_deposit, flat_indication, flat_timer};
ghost use Rattle.cfdp_session.specs.Kept.{deposit_of, image_parts, indications_of, parts_at, pdus_of, timers_of};
ghost use Rattle.cfdp_c.specs.Calls.{Asked, IsCopied, IsCut, IsGiven, Loads, Takes};

use crate::codes::{CLOSED, NO_MEMORY, NOTHING, OK, REFUSED, UNKNOWN};
use crate::copies::{copy, cut};
use crate::handle::Handle;
use crate::hold::{keep, take};
use cfdp_session::{
    FlatBundle, FlatDeposit, FlatImage, FlatIndication, FlatTimer, Session, Taking,
};
use cfdp_types::{EntityId, TxnKey};
use std::alloc::Global;

// Writes a value to its place if there is one; otherwise returns `NOTHING`.
pub(crate) fn give<T: Copy>(found: Option<T>, place: &mut T) -> i32
    ensures { IsGiven result found place.new }
{
    match found {
        None => NOTHING,
        Some(thing) => {
            *place = thing;
            OK
        }
    }
}

// The octets of a PDU.
fn pdu(alloc: Global, session: &Session, index: usize, buffer: &mut [u8], len: &mut usize) -> i32
    ensures { (result ≡ NO_MEMORY) ⊎ IsCopied result
        (option_map spelling.written (slice_get (pdus_of session.now.last) index)) (length buffer.old) buffer.new len.new }
{
    match session.pdu(alloc, index) {
        Ok(Some(octets)) => copy(Some(octets.as_slice()), buffer, len),
        Ok(None) => NOTHING,
        Err(_) => NO_MEMORY,
    }
}

/// Copies a PDU that the last event left to send.
#[unsafe(no_mangle)]
pub extern "C" fn cfdp_pdu(
    alloc: Global,
    handle: &mut Handle,
    index: usize,
    buffer: &mut [u8],
    len: &mut usize,
) -> i32
    ensures asked { Asked result handle.old.owner.held (λ session. (result ≡ NO_MEMORY) ⊎ IsCopied result
        (option_map spelling.written (slice_get (pdus_of session.last) index)) (length buffer.old) buffer.new len.new) }
    ensures same { handle.new.owner.held ≡ handle.old.owner.held }
{
    let Some(session) = take(handle, alloc) else {
        return CLOSED;
    };
    let code = pdu(alloc, &session, index, buffer, len);
    *handle = keep(session);
    code
}

/// Gives a timer operation of the last event.
#[unsafe(no_mangle)]
pub extern "C" fn cfdp_timer_op(
    alloc: Global,
    handle: &mut Handle,
    index: usize,
    op: &mut FlatTimer,
) -> i32
    ensures asked { Asked result handle.old.owner.held (λ session. IsGiven result
        (option_map flat_timer (slice_get (timers_of session.last) index)) op.new) }
    ensures same { handle.new.owner.held ≡ handle.old.owner.held }
{
    let Some(session) = take(handle, alloc) else {
        return CLOSED;
    };
    let code = give(session.timer(index), op);
    *handle = keep(session);
    code
}

/// Gives the file that the last event handed to the file store.
#[unsafe(no_mangle)]
pub extern "C" fn cfdp_deposit(alloc: Global, handle: &mut Handle, deposit: &mut FlatDeposit) -> i32
    ensures asked { Asked result handle.old.owner.held (λ session. IsGiven result
        (option_map flat_deposit (deposit_of session.last)) deposit.new) }
    ensures same { handle.new.owner.held ≡ handle.old.owner.held }
{
    let Some(session) = take(handle, alloc) else {
        return CLOSED;
    };
    let code = give(session.deposit(), deposit);
    *handle = keep(session);
    code
}

/// Gives an indication of the bundle that was taken last.
#[unsafe(no_mangle)]
pub extern "C" fn cfdp_indication(
    alloc: Global,
    handle: &mut Handle,
    index: usize,
    indication: &mut FlatIndication,
) -> i32
    ensures asked { Asked result handle.old.owner.held (λ session. IsGiven result
        (option_map flat_indication (slice_get (indications_of session.front) index)) indication.new) }
    ensures same { handle.new.owner.held ≡ handle.old.owner.held }
{
    let Some(session) = take(handle, alloc) else {
        return CLOSED;
    };
    let code = give(session.indication(index), indication);
    *handle = keep(session);
    code
}

/// Copies a text of an indication of that bundle: 0 is the name at the sender, 1 the name at the receiver, and messages
/// follow.
#[unsafe(no_mangle)]
pub extern "C" fn cfdp_octets(
    alloc: Global,
    handle: &mut Handle,
    index: usize,
    part: usize,
    buffer: &mut [u8],
    len: &mut usize,
) -> i32
    ensures asked { Asked result handle.old.owner.held (λ session. IsCopied result
        (slice_get (parts_at (slice_get (indications_of session.front) index)) part) (length buffer.old) buffer.new len.new) }
    ensures same { handle.new.owner.held ≡ handle.old.owner.held }
{
    let Some(session) = take(handle, alloc) else {
        return CLOSED;
    };
    let code = copy(session.octets(index, part), buffer, len);
    *handle = keep(session);
    code
}

/// Copies octets of the file that was requested last, from an offset on, as many as there are and as the buffer holds:
/// of its name at the sender (0), of its name at the receiver (1), or of its content (2).
#[unsafe(no_mangle)]
pub extern "C" fn cfdp_image_octets(
    alloc: Global,
    handle: &mut Handle,
    part: usize,
    offset: usize,
    buffer: &mut [u8],
    len: &mut usize,
) -> i32
    ensures asked { Asked result handle.old.owner.held (λ session. IsCut result
        (slice_get (image_parts session.image) part) offset (length buffer.old) buffer.new len.new) }
    ensures same { handle.new.owner.held ≡ handle.old.owner.held }
{
    let Some(session) = take(handle, alloc) else {
        return CLOSED;
    };
    let code = cut(session.image_part(part), offset, buffer, len);
    *handle = keep(session);
    code
}

/// Reports how many users the entity has.
#[unsafe(no_mangle)]
pub extern "C" fn cfdp_users(alloc: Global, handle: &mut Handle, count: &mut usize) -> i32
    ensures asked { Asked result handle.old.owner.held (λ session. (result ≡ OK) × (count.new ≡ length session.world.config.users)) }
    ensures same { handle.new.owner.held ≡ handle.old.owner.held }
{
    let Some(session) = take(handle, alloc) else {
        return CLOSED;
    };
    let code = users(&session, count);
    *handle = keep(session);
    code
}

/// Reports how many sending lanes each user has.
#[unsafe(no_mangle)]
pub extern "C" fn cfdp_put_lanes(alloc: Global, handle: &mut Handle, count: &mut usize) -> i32
    ensures asked { Asked result handle.old.owner.held (λ session. (result ≡ OK) × (count.new ≡ session.world.config.entity.put_lanes)) }
    ensures same { handle.new.owner.held ≡ handle.old.owner.held }
{
    let Some(session) = take(handle, alloc) else {
        return CLOSED;
    };
    let code = put_lanes(&session, count);
    *handle = keep(session);
    code
}

// The number of users.
fn users(session: &Session, count: &mut usize) -> i32
    ensures { (result ≡ OK) × (count.new ≡ length session.now.world.config.users) }
{
    *count = session.world.users();
    OK
}

// The number of sending lanes of each user.
fn put_lanes(session: &Session, count: &mut usize) -> i32
    ensures { (result ≡ OK) × (count.new ≡ session.now.world.config.entity.put_lanes) }
{
    *count = session.world.put_lanes();
    OK
}

/// Takes the bundle at the front of a user's queue.
#[unsafe(no_mangle)]
pub extern "C" fn cfdp_take(
    alloc: Global,
    handle: &mut Handle,
    user: usize,
    bundle: &mut FlatBundle,
) -> i32
    ensures { Takes result handle.old.owner.held handle.new.owner.held user bundle.new }
{
    let Some(mut session) = take(handle, alloc) else {
        return CLOSED;
    };
    let taking = session.take(user);
    let front = session.bundle();
    *handle = keep(session);
    match taking {
        Taking::Nothing => NOTHING,
        Taking::NoUser => UNKNOWN,
        Taking::Taken => give(front, bundle),
    }
}

/// Gets the file of the waiting deposit with this key and this stamp, and reports the lengths of the file and its
/// names. `REFUSED` comes with the reason.
#[unsafe(no_mangle)]
pub extern "C" fn cfdp_image(
    alloc: Global,
    handle: &mut Handle,
    source: u64,
    seq: u64,
    stamp: u32,
    image: &mut FlatImage,
) -> i32
    ensures { Loads result handle.old.owner.held handle.new.owner.held
        (record { source = record { 0 = source }; seq = seq }) stamp image.new }
{
    let Some(mut session) = take(handle, alloc) else {
        return CLOSED;
    };
    let key = TxnKey {
        source: EntityId(source),
        seq,
    };
    let loaded = session.load(key, stamp);
    *handle = keep(session);
    match loaded {
        Ok(flat) => {
            *image = flat;
            OK
        }
        Err(flat) => {
            *image = flat;
            REFUSED
        }
    }
}
