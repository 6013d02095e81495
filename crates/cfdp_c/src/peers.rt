//! The entities and users of a configuration, and open transactions, by their places.
ghost use Rattle.std.specs.Prelude.{◌≡◌, ◌⊎◌, find, length, option_copied, option_map, slice_get};
ghost use Rattle.config_reading.specs.Values.{has_id};
ghost use Rattle.cfdp_session.specs.Flat.{flat_remote, lanes_in, open_at};
ghost use Rattle.cfdp_session.specs.Kept.{addressee, pdus_of};
ghost use Rattle.cfdp_c.specs.Calls.{Asked, IsCopied, IsGiven};

use crate::asking::give;
use crate::codes::{CLOSED, NO_MEMORY, OK};
use crate::copies::copy;
use crate::handle::Handle;
use crate::hold::{keep, take};
use cfdp_session::{FlatRemote, FlatTransaction, Session};
use cfdp_types::EntityId;
use std::alloc::Global;

/// Gives the ID of the entity to which a PDU of the last event goes.
#[unsafe(no_mangle)]
pub extern "C" fn cfdp_pdu_destination(
    alloc: Global,
    handle: &mut Handle,
    index: usize,
    id: &mut u64,
) -> i32
    ensures asked { Asked result handle.old.owner.held (λ session. IsGiven result
        (option_map (λ pdu. (addressee pdu).0) (slice_get (pdus_of session.last) index)) id.new) }
    ensures same { handle.new.owner.held ≡ handle.old.owner.held }
{
    let Some(session) = take(handle, alloc) else {
        return CLOSED;
    };
    let code = give(session.addressee(index), id);
    *handle = keep(session);
    code
}

/// Copies the address of a remote entity, as the configuration has it.
#[unsafe(no_mangle)]
pub extern "C" fn cfdp_address(
    alloc: Global,
    handle: &mut Handle,
    id: u64,
    buffer: &mut [u8],
    len: &mut usize,
) -> i32
    ensures asked { Asked result handle.old.owner.held (λ session. IsCopied result
        (option_map (λ peer. peer.address) (find (has_id (record { 0 = id })) session.world.config.peers))
        (length buffer.old) buffer.new len.new) }
    ensures same { handle.new.owner.held ≡ handle.old.owner.held }
{
    let Some(session) = take(handle, alloc) else {
        return CLOSED;
    };
    let code = copy(address(&session, id), buffer, len);
    *handle = keep(session);
    code
}

// The address of a remote entity.
fn address(session: &Session, id: u64) -> Option<&[u8]>
    ensures { option_copied result
        ≡ option_map (λ peer. peer.address) (find (has_id (record { 0 = id })) session.now.world.config.peers) }
{
    match session.world.config().address_of(EntityId(id)) {
        Some(text) => Some(text.as_bytes()),
        None => None,
    }
}

/// Copies the name of the user with this number.
#[unsafe(no_mangle)]
pub extern "C" fn cfdp_user_name(
    alloc: Global,
    handle: &mut Handle,
    user: usize,
    buffer: &mut [u8],
    len: &mut usize,
) -> i32
    ensures asked { Asked result handle.old.owner.held (λ session. IsCopied result
        (slice_get session.world.config.users user) (length buffer.old) buffer.new len.new) }
    ensures same { handle.new.owner.held ≡ handle.old.owner.held }
{
    let Some(session) = take(handle, alloc) else {
        return CLOSED;
    };
    let code = copy(name(&session, user), buffer, len);
    *handle = keep(session);
    code
}

// The name of a user.
fn name(session: &Session, user: usize) -> Option<&[u8]>
    ensures { option_copied result ≡ slice_get session.now.world.config.users user }
{
    match session.world.config().name_of(user) {
        Some(text) => Some(text.as_bytes()),
        None => None,
    }
}

/// Reports how many remote entities the configuration has.
#[unsafe(no_mangle)]
pub extern "C" fn cfdp_remotes(alloc: Global, handle: &mut Handle, count: &mut usize) -> i32
    ensures asked { Asked result handle.old.owner.held
        (λ session. (result ≡ OK) × (count.new ≡ length session.world.config.peers)) }
    ensures same { handle.new.owner.held ≡ handle.old.owner.held }
{
    let Some(session) = take(handle, alloc) else {
        return CLOSED;
    };
    let code = remotes(&session, count);
    *handle = keep(session);
    code
}

// The number of remote entities.
fn remotes(session: &Session, count: &mut usize) -> i32
    ensures { (result ≡ OK) × (count.new ≡ length session.now.world.config.peers) }
{
    *count = session.world.config().remotes();
    OK
}

/// Gives a remote entity, by its place in the configuration.
#[unsafe(no_mangle)]
pub extern "C" fn cfdp_remote(
    alloc: Global,
    handle: &mut Handle,
    index: usize,
    remote: &mut FlatRemote,
) -> i32
    ensures asked { Asked result handle.old.owner.held (λ session. IsGiven result
        (option_map (λ peer. flat_remote peer.remote) (slice_get session.world.config.peers index)) remote.new) }
    ensures same { handle.new.owner.held ≡ handle.old.owner.held }
{
    let Some(session) = take(handle, alloc) else {
        return CLOSED;
    };
    let code = give(session.remote(index), remote);
    *handle = keep(session);
    code
}

/// Reports how many lanes a user has: those in which it sends, then those in which it receives.
#[unsafe(no_mangle)]
pub extern "C" fn cfdp_lanes(
    alloc: Global,
    handle: &mut Handle,
    user: usize,
    count: &mut usize,
) -> i32
    ensures asked { Asked result handle.old.owner.held (λ session. IsGiven result
        (lanes_in session.world.config user) count.new) }
    ensures same { handle.new.owner.held ≡ handle.old.owner.held }
{
    let Some(session) = take(handle, alloc) else {
        return CLOSED;
    };
    let code = give(session.lanes(user), count);
    *handle = keep(session);
    code
}

/// Gives the transaction that a lane of a user runs.
#[unsafe(no_mangle)]
pub extern "C" fn cfdp_transaction(
    alloc: Global,
    handle: &mut Handle,
    user: usize,
    lane: usize,
    txn: &mut FlatTransaction,
) -> i32
    ensures asked { Asked result handle.old.owner.held (λ session. (result ≡ NO_MEMORY) ⊎ IsGiven result
        (open_at session.world.posts user lane) txn.new) }
    ensures same { handle.new.owner.held ≡ handle.old.owner.held }
{
    let Some(session) = take(handle, alloc) else {
        return CLOSED;
    };
    let code = transaction(&session, user, lane, txn);
    *handle = keep(session);
    code
}

// The transaction that a lane runs.
fn transaction(session: &Session, user: usize, lane: usize, txn: &mut FlatTransaction) -> i32
    ensures { (result ≡ NO_MEMORY) ⊎ IsGiven result (open_at session.now.world.posts user lane) txn.new }
{
    match session.transaction(user, lane) {
        Ok(found) => give(found, txn),
        Err(_) => NO_MEMORY,
    }
}
