//! Names of codes and of refusals, and the version of the interface.
ghost use Rattle.std.specs.Prelude.{◌≡◌, length};
ghost use Rattle.std.specs.Prelude.{option_copied};
ghost use Rattle.cfdp_c.specs.Calls.{IsCopied};
ghost use Rattle.cfdp_c.specs.Names.{code_text, refusal_text};

use crate::codes::NOTHING;
use crate::copies::copy;

/// The version of the interface. It changes whenever programs must be compiled again.
pub const VERSION: u32 = 1;

// The name of a code.
fn code_text(code: i32) -> Option<&'static str>
    ensures { option_copied result ≡ code_text code }
{
    match code {
        0 => Some("OK"),
        1 => Some("REFUSED"),
        2 => Some("NOTHING"),
        -1 => Some("CLOSED"),
        -2 => Some("OPEN"),
        -3 => Some("NO_MEMORY"),
        -4 => Some("NO_ROOM"),
        -5 => Some("BAD_NUMBER"),
        -6 => Some("UNKNOWN"),
        -7 => Some("BAD_CONFIG"),
        -8 => Some("NO_NAME"),
        -9 => Some("NAME_TOO_LONG"),
        -10 => Some("MESSAGE_TOO_LONG"),
        -11 => Some("TOO_MANY_MESSAGES"),
        -13 => Some("NOT_ALLOWED"),
        -14 => Some("TOO_LATE"),
        _ => None,
    }
}

// The name of the refusal of this number.
fn refusal_text(number: u32) -> Option<&'static str>
    ensures { option_copied result ≡ refusal_text number }
{
    match number {
        1 => Some("NoTransaction"),
        2 => Some("OldTransaction"),
        3 => Some("LaneBusy"),
        4 => Some("ModeMismatch"),
        5 => Some("StaleTimer"),
        6 => Some("StaleStored"),
        7 => Some("Storing"),
        8 => Some("WrongState"),
        9 => Some("SeqExhausted"),
        10 => Some("TooLarge"),
        11 => Some("JournalFull"),
        12 => Some("NoMemory"),
        13 => Some("QueueFull"),
        20 => Some("DecodeFault"),
        21 => Some("NotForUs"),
        22 => Some("WrongDirection"),
        23 => Some("NoRoute"),
        24 => Some("NotYours"),
        25 => Some("UnknownRemote"),
        26 => Some("WrongLane"),
        _ => None,
    }
}

/// Copies the name of a code.
#[unsafe(no_mangle)]
pub extern "C" fn cfdp_error_name(code: i32, buffer: &mut [u8], len: &mut usize) -> i32
    ensures { IsCopied result (code_text code) (length buffer.old) buffer.new len.new }
{
    match code_text(code) {
        Some(name) => copy(Some(name.as_bytes()), buffer, len),
        None => NOTHING,
    }
}

/// Copies the name of a refusal.
#[unsafe(no_mangle)]
pub extern "C" fn cfdp_refusal_name(refusal: u32, buffer: &mut [u8], len: &mut usize) -> i32
    ensures { IsCopied result (refusal_text refusal) (length buffer.old) buffer.new len.new }
{
    match refusal_text(refusal) {
        Some(name) => copy(Some(name.as_bytes()), buffer, len),
        None => NOTHING,
    }
}

/// The version of the interface.
#[unsafe(no_mangle)]
pub extern "C" fn cfdp_version() -> u32
    ensures { result ≡ VERSION }
{
    VERSION
}
