//! The codes that calls return, and the meanings of numbers from C.
ghost use Rattle.std.specs.Prelude.{◌≡◌};
ghost use Rattle.cfdp_c.specs.Codes.{checksum_of, class_of, handler_of, handler_setting, place_text, put_code, request_of, role_of, section_text, setting_of, timer_kind};

use cfdp_types::{Checksum, Class, Condition, Handler, PutFault, Role, TimerKind, TxnKey};
use entity_config::{ConfigFault, Section, Setting};
use entity_routing::Request;

/// The call did what it is for.
pub const OK: i32 = 0;

/// The entity refused the event, or gave no file for this key and stamp. A refused event changes only the result that
/// the handle keeps, except that a Put's messages are gone.
pub const REFUSED: i32 = 1;

/// There is no such thing: no bundle waits, or the index is too large.
pub const NOTHING: i32 = 2;

/// The handle is closed.
pub const CLOSED: i32 = -1;

/// The handle is open already.
pub const OPEN: i32 = -2;

/// Memory ran out. Nothing changed, except that a Put's messages are gone.
pub const NO_MEMORY: i32 = -3;

/// The buffer is too small. The call reports how many octets there are, and changes nothing else.
pub const NO_ROOM: i32 = -4;

/// A class, a timer, a request or something of a setting has an unknown number.
pub const BAD_NUMBER: i32 = -5;

/// The entity has no such user, or the user no such sending lane.
pub const UNKNOWN: i32 = -6;

/// The configuration was refused.
pub const BAD_CONFIG: i32 = -7;

/// A file name is empty.
pub const NO_NAME: i32 = -8;

/// A file name is too long.
pub const NAME_TOO_LONG: i32 = -9;

/// A message is too long.
pub const MESSAGE_TOO_LONG: i32 = -10;

/// There are too many messages.
pub const TOO_MANY_MESSAGES: i32 = -11;

/// The setting may not have this value.
pub const NOT_ALLOWED: i32 = -13;

/// The entity has received an event, and no setting may follow.
pub const TOO_LATE: i32 = -14;

/// The kind of timer with this number.
pub(crate) fn timer_kind(number: u32) -> Option<TimerKind>
    ensures { result ≡ timer_kind number }
{
    match number {
        1 => Some(TimerKind::Ack),
        2 => Some(TimerKind::Nak),
        3 => Some(TimerKind::Check),
        4 => Some(TimerKind::Inactivity),
        _ => None,
    }
}

/// The service class of this number.
pub(crate) fn class_of(number: u32) -> Option<Class>
    ensures { result ≡ class_of number }
{
    match number {
        1 => Some(Class::One),
        2 => Some(Class::Two),
        _ => None,
    }
}

/// The user's request with this number, on a transaction.
pub(crate) fn request_of(number: u32, key: TxnKey) -> Option<Request>
    ensures { result ≡ request_of number key }
{
    match number {
        1 => Some(Request::Cancel(key)),
        2 => Some(Request::Suspend(key)),
        3 => Some(Request::Resume(key)),
        4 => Some(Request::Report(key)),
        5 => Some(Request::Abandon(key)),
        _ => None,
    }
}

// The checksum of this number.
fn checksum_of(number: u64) -> Option<Checksum>
    ensures { result ≡ checksum_of number }
{
    match number {
        0 => Some(Checksum::Modular),
        15 => Some(Checksum::Null),
        _ => None,
    }
}

/// The setting of this number, with its value.
pub(crate) fn setting_of(number: u32, value: u64) -> Option<Setting>
    ensures { result ≡ setting_of number value }
{
    match number {
        1 => Some(Setting::Capacity(value)),
        2 => Some(Setting::First(value)),
        3 => Some(Setting::AckLimit(value)),
        4 => Some(Setting::NakLimit(value)),
        5 => Some(Setting::CheckLimit(value)),
        6 => Some(Setting::Checksum(checksum_of(value)?)),
        _ => None,
    }
}

// The role of this number.
fn role_of(number: u32) -> Option<Role>
    ensures { result ≡ role_of number }
{
    match number {
        1 => Some(Role::Send),
        2 => Some(Role::RecvOne),
        3 => Some(Role::RecvTwo),
        _ => None,
    }
}

// The handler of this number.
fn handler_of(number: u32) -> Option<Handler>
    ensures { result ≡ handler_of number }
{
    match number {
        1 => Some(Handler::Cancel),
        2 => Some(Handler::Suspend),
        3 => Some(Handler::Ignore),
        4 => Some(Handler::Abandon),
        _ => None,
    }
}

/// The setting of a handler, by its numbers.
pub(crate) fn handler_setting(role: u32, condition: u32, handler: u32) -> Option<Setting>
    ensures { result ≡ handler_setting role condition handler }
{
    let role = role_of(role)?;
    let handler = handler_of(handler)?;
    if condition >= 16 {
        return None;
    }
    let condition = Condition::new(condition as u8);
    Some(Setting::Handler(role, condition, handler))
}

/// The code for a Put that can't be made.
pub(crate) fn code_of(fault: PutFault) -> i32
    ensures { result ≡ put_code fault }
{
    match fault {
        PutFault::NoName => NO_NAME,
        PutFault::NameTooLong => NAME_TOO_LONG,
        PutFault::MessageTooLong => MESSAGE_TOO_LONG,
        PutFault::TooManyMessages => TOO_MANY_MESSAGES,
        PutFault::NoMemory => NO_MEMORY,
    }
}

// The name of a table of a configuration.
fn section_text(section: Section) -> &'static str
    ensures { result.now ≡ section_text section }
{
    match section {
        Section::Top => "",
        Section::Entity => "entity",
        Section::User => "user",
        Section::Remote => "remote",
    }
}

/// Where a fault of a configuration is: its key, or the table with an unknown key.
pub(crate) fn place_text(fault: ConfigFault) -> &'static str
    ensures { result.now ≡ place_text fault }
{
    match fault {
        ConfigFault::MissingKey(key)
        | ConfigFault::WrongType(key)
        | ConfigFault::OutOfRange(key)
        | ConfigFault::HandlerNotAllowed(key) => key.name(),
        ConfigFault::UnknownKey(section) => section_text(section),
        _ => "",
    }
}
