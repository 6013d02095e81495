//! Lines that change the configuration.
ghost use Rattle.std.specs.Prelude.{◌≡◌};
ghost use Rattle.std.specs.Option.{option_copied};
ghost use Rattle.script_lines.specs.Commands.{set_of, set_with, set_value, set_number, set_handler};
ghost use Rattle.line_words.specs.Words.{words_left};

use crate::command::Command;
use crate::operands::{checksum_of, handler_of, role_of};
use cfdp_types::Condition;
use entity_config::Setting;
use line_words::{Rest, decimal, last_word, next_word, number_of};

/// Parses a setting from the words after the first one.
pub(crate) fn set(operands: Rest<'_>) -> Option<Command>
    ensures { result ≡ set_of (words_left (option_copied operands.entry)) }
{
    let (name, operands) = next_word(operands)?;
    let (value, operands) = next_word(operands)?;
    set_with(name, value, operands)
}

fn set_with(name: &[u8], value: &[u8], operands: Rest<'_>) -> Option<Command>
    ensures { result ≡ set_with name.now value.now (words_left (option_copied operands.entry)) }
{
    if operands.is_none() {
        return set_value(name, value);
    }
    set_handler(name, value, last_word(operands)?)
}

fn set_value(name: &[u8], value: &[u8]) -> Option<Command>
    ensures { result ≡ set_value name.now value.now }
{
    if name == b"checksum".as_slice() {
        let checksum = checksum_of(value)?;
        Some(Command::Set(Setting::Checksum(checksum)))
    } else {
        set_number(name, number_of(value)?)
    }
}

fn set_number(name: &[u8], n: u64) -> Option<Command>
    ensures { result ≡ set_number name.now n }
{
    let setting = if name == b"capacity".as_slice() {
        Setting::Capacity(n)
    } else if name == b"first".as_slice() {
        Setting::First(n)
    } else if name == b"ack_limit".as_slice() {
        Setting::AckLimit(n)
    } else if name == b"nak_limit".as_slice() {
        Setting::NakLimit(n)
    } else if name == b"check_limit".as_slice() {
        Setting::CheckLimit(n)
    } else {
        return None;
    };
    Some(Command::Set(setting))
}

fn set_handler(role: &[u8], condition: &[u8], handler: &[u8]) -> Option<Command>
    ensures { result ≡ set_handler role.now condition.now handler.now }
{
    let role = role_of(role)?;
    let condition = Condition::new(decimal(condition, 15)? as u8);
    let handler = handler_of(handler)?;
    Some(Command::Set(Setting::Handler(role, condition, handler)))
}
