//! Opening and closing handles.
ghost use Rattle.std.specs.Prelude.{◌≡◌, ◌≤◌, length, take as first, IfOk};
ghost use Rattle.config_reading.specs.Faults.{fault_number};
ghost use Rattle.cfdp_session.specs.Steps.{IsOpened};
ghost use Rattle.cfdp_c.specs.Codes.{place_text};
ghost use Rattle.cfdp_c.specs.Calls.{Closes, IsFault, Opens};

use crate::codes::{BAD_CONFIG, CLOSED, NO_MEMORY, OK, OPEN, place_text};
use crate::copies::copy;
use crate::handle::Handle;
use crate::hold::{keep, take};
use cfdp_session::Session;
use entity_config::ConfigFault;
use std::alloc::Global;

// Why no entity could be made.
#[derive(Clone, Copy)]
enum Unopened {
    NoMemory,
    BadConfig,
}

// Reports the number of a fault, and the name of its place.
fn tell_fault(why: ConfigFault, fault: &mut u32, place: &mut [u8], len: &mut usize)
    ensures number { fault.new ≡ fault_number why }
    ensures length { len.new ≡ length (place_text why) }
    ensures name { length (place_text why) ≤ length place.old → first len.new place.new ≡ place_text why }
{
    *fault = u32::from(why.number());
    let _code = copy(Some(place_text(why).as_bytes()), place, len);
}

// Makes a session with this configuration, on the heap.
fn made(
    alloc: Global,
    text: &[u8],
    fault: &mut u32,
    place: &mut [u8],
    len: &mut usize,
) -> Result<Box<Session>, Unopened>
    ensures opened { IfOk result (λ session. IsOpened text.now session.value) }
    ensures refused { result ≡ Err Unopened.BadConfig
        → IsFault text.now fault.new (length place.old) place.new len.new }
{
    match Session::open(alloc, text) {
        Ok(session) => match Box::new(alloc, session) {
            Ok(session) => Ok(session),
            Err(_) => Err(Unopened::NoMemory),
        },
        Err(ConfigFault::NoMemory) => Err(Unopened::NoMemory),
        Err(why) => {
            tell_fault(why, fault, place, len);
            Err(Unopened::BadConfig)
        }
    }
}

/// Opens a closed handle with a new entity, whose configuration is this TOML text. `BAD_CONFIG` comes with the fault's
/// number and the name of the key or table where it is. The name is copied only if `place` has room for it.
#[unsafe(no_mangle)]
pub extern "C" fn cfdp_open(
    alloc: Global,
    handle: &mut Handle,
    text: &[u8],
    fault: &mut u32,
    place: &mut [u8],
    len: &mut usize,
) -> i32
    ensures { Opens result handle.old.owner.held handle.new.owner.held text.now
        (IsFault text.now fault.new (length place.old) place.new len.new) }
{
    if let Some(session) = take(handle, alloc) {
        *handle = keep(session);
        return OPEN;
    }
    match made(alloc, text, fault, place, len) {
        Ok(session) => {
            *handle = keep(session);
            OK
        }
        Err(Unopened::NoMemory) => NO_MEMORY,
        Err(Unopened::BadConfig) => BAD_CONFIG,
    }
}

/// Closes a handle and frees the entity.
#[unsafe(no_mangle)]
pub extern "C" fn cfdp_close(alloc: Global, handle: &mut Handle) -> i32
    ensures { Closes result handle.old.owner.held handle.new.owner.held }
{
    match take(handle, alloc) {
        None => CLOSED,
        Some(_) => OK,
    }
}
