//! Time, for callers that leave timers to the library, and whose turn it is to send.
ghost use Rattle.std.specs.Prelude.{◌≡◌, option_map};
ghost use Rattle.cfdp_session.specs.Turns.{next};
ghost use Rattle.cfdp_session.specs.Flat.{flat_own};
ghost use Rattle.cfdp_c.specs.Calls.{Asked, Awaits, IsGiven, Ticks};

use crate::asking::give;
use crate::codes::{CLOSED, NO_MEMORY, NOTHING, OK, REFUSED};
use crate::handle::Handle;
use crate::hold::{keep, take};
use cfdp_session::{FlatDone, FlatKey, Ticking};
use std::alloc::Global;

/// Notes the time, in milliseconds on a clock of the caller's, and passes the first timer that has expired to the
/// entity. From the first call on, the library keeps the timers of all later events.
#[unsafe(no_mangle)]
pub extern "C" fn cfdp_tick(
    alloc: Global,
    handle: &mut Handle,
    now: u64,
    done: &mut FlatDone,
) -> i32
    ensures { Ticks result handle.old.owner.held handle.new.owner.held now done.new }
{
    let Some(mut session) = take(handle, alloc) else {
        return CLOSED;
    };
    let ticked = session.tick(now);
    let answer = session.done();
    *handle = keep(session);
    match ticked {
        Ticking::Nothing => NOTHING,
        Ticking::NoMemory => NO_MEMORY,
        Ticking::Told => {
            *done = answer;
            if answer.refusal == 0 { OK } else { REFUSED }
        }
    }
}

/// Reports a time before which no timer expires.
#[unsafe(no_mangle)]
pub extern "C" fn cfdp_next_deadline(alloc: Global, handle: &mut Handle, deadline: &mut u64) -> i32
    ensures { Awaits result handle.old.owner.held handle.new.owner.held deadline.new }
{
    let Some(mut session) = take(handle, alloc) else {
        return CLOSED;
    };
    let found = session.deadline();
    *handle = keep(session);
    match found {
        Ok(Some(moment)) => {
            *deadline = moment;
            OK
        }
        Ok(None) => NOTHING,
        Err(_) => NO_MEMORY,
    }
}

/// Gives the transaction of the entity's own that is next to be asked for a PDU.
#[unsafe(no_mangle)]
pub extern "C" fn cfdp_next_pump(alloc: Global, handle: &mut Handle, txn: &mut FlatKey) -> i32
    ensures asked { Asked result handle.old.owner.held (λ session. IsGiven result
        (option_map (flat_own session.world.config) (next session.turns)) txn.new) }
    ensures same { handle.new.owner.held ≡ handle.old.owner.held }
{
    let Some(session) = take(handle, alloc) else {
        return CLOSED;
    };
    let code = give(session.next_pump(), txn);
    *handle = keep(session);
    code
}
