//! Settings, before the first event.
ghost use Rattle.std.specs.Prelude.{◌≡◌};
ghost use Rattle.cfdp_c.specs.Codes.{handler_setting, setting_of};
ghost use Rattle.cfdp_c.specs.Setting.{Sets, unset_code};

use crate::codes::{
    BAD_NUMBER, CLOSED, NO_MEMORY, NOT_ALLOWED, OK, TOO_LATE, handler_setting, setting_of,
};
use crate::handle::Handle;
use crate::hold::{keep, take};
use cfdp_session::Unset;
use entity_config::Setting;
use std::alloc::Global;

/// Changes a number of the configuration, before the first event.
#[unsafe(no_mangle)]
pub extern "C" fn cfdp_set(alloc: Global, handle: &mut Handle, setting: u32, value: u64) -> i32
    ensures { Sets result handle.old.owner.held handle.new.owner.held (setting_of setting value) }
{
    set(alloc, handle, setting_of(setting, value))
}

/// Changes the handler of a condition at a role, before the first event.
#[unsafe(no_mangle)]
pub extern "C" fn cfdp_set_handler(
    alloc: Global,
    handle: &mut Handle,
    role: u32,
    condition: u32,
    handler: u32,
) -> i32
    ensures { Sets result handle.old.owner.held handle.new.owner.held (handler_setting role condition handler) }
{
    set(alloc, handle, handler_setting(role, condition, handler))
}

// Makes a setting, if the numbers stand for one.
fn set(alloc: Global, handle: &mut Handle, setting: Option<Setting>) -> i32
    ensures { Sets result handle.old.owner.held handle.new.owner.held setting }
{
    let Some(setting) = setting else {
        return BAD_NUMBER;
    };
    let Some(mut session) = take(handle, alloc) else {
        return CLOSED;
    };
    let set = session.set(alloc, setting);
    *handle = keep(session);
    match set {
        Ok(()) => OK,
        Err(why) => unset_code(why),
    }
}

// The code for a setting that was not made.
fn unset_code(why: Unset) -> i32
    ensures { result ≡ unset_code why }
{
    match why {
        Unset::TooLate => TOO_LATE,
        Unset::NotAllowed => NOT_ALLOWED,
        Unset::NoMemory => NO_MEMORY,
    }
}
