//! Names and addresses.
ghost use Rattle.std.specs.Prelude.{◌≡◌, ◌≤◌, length, option_copied, take_while};
ghost use Rattle.std.specs.List.{list_all};
ghost use Rattle.config_reading.specs.Reads.{seen};
ghost use Rattle.config_reading.specs.Texts.{after_address, after_number, after_part, is_address, is_digit, is_name_octet, is_number, is_user_name, number_of};
ghost use Rattle.config_reading.specs.Walk.{address_in, name_of};
ghost use Rattle.toml.specs.View.{view};

use crate::fault::{ConfigFault, Key};
use cfdp_types::limits::USER_NAME_OCTETS;
use toml::Value;

/// A user's name: letters from a to z and digits. `WrongType` where the value is not text, `OutOfRange` where the text
/// is not a name.
pub(crate) fn name_of(value: &Value, key: Key) -> Result<&str, ConfigFault>
    ensures { seen (λ name. name.now) result ≡ name_of key (view value.now) }
{
    let Some(name) = value.as_str() else {
        return Err(ConfigFault::WrongType(key));
    };
    if !is_user_name(name) {
        return Err(ConfigFault::OutOfRange(key));
    }
    Ok(name)
}

/// An address: an IPv4 address in dotted decimals, a colon and a port. `WrongType` where the value is not text,
/// `BadAddress` where the text is not an address.
pub(crate) fn address_in(value: &Value) -> Result<&str, ConfigFault>
    ensures { seen (λ address. address.now) result ≡ address_in (view value.now) }
{
    let Some(address) = value.as_str() else {
        return Err(ConfigFault::WrongType(Key::Address));
    };
    if !is_address(address) {
        return Err(ConfigFault::BadAddress);
    }
    Ok(address)
}

fn is_user_name(name: &str) -> bool
    ensures { result ≡ is_user_name name.now }
{
    let octets = name.as_bytes();
    (1..=USER_NAME_OCTETS).contains(&octets.len()) && are_name_octets(octets)
}

// Whether each octet is a letter from a to z, or a digit.
fn are_name_octets(octets: &[u8]) -> bool
    ensures { result ≡ list_all is_name_octet octets.now }
{
    octets
        .iter()
        .all(|octet| matches!(*octet, b'a'..=b'z' | b'0'..=b'9'))
}

fn is_address(text: &str) -> bool
    ensures { result ≡ is_address text.now }
{
    match after_address(text.as_bytes()) {
        Some([]) => true,
        _ => false,
    }
}

// What follows an address at the start of a text; None where it doesn't start with one.
fn after_address(text: &[u8]) -> Option<&[u8]>
    ensures { option_copied result ≡ after_address text.now }
{
    let text = after_part(text, b'.')?;
    let text = after_part(text, b'.')?;
    let text = after_part(text, b'.')?;
    let text = after_part(text, b':')?;
    after_number(text, 65_535)
}

// What follows a number up to 255 and a given octet at the start of a text.
fn after_part(text: &[u8], octet: u8) -> Option<&[u8]>
    ensures { option_copied result ≡ after_part octet text.now }
{
    match after_number(text, 255)? {
        [first, rest @ ..] if *first == octet => Some(rest),
        _ => None,
    }
}

// What follows a number at the start of a text.
fn after_number(text: &[u8], most: u32) -> Option<&[u8]>
    ensures { option_copied result ≡ after_number most text.now }
{
    let end = digits(text);
    if !is_number(&text[..end], most) {
        return None;
    }
    Some(&text[end..])
}

// The number of digits at the start of a text.
fn digits(text: &[u8]) -> usize
    ensures { result ≡ length (take_while is_digit text.now) }
{
    text.iter()
        .take_while(|octet| matches!(**octet, b'0'..=b'9'))
        .count()
}

// Whether the digits have no leading zero and write a number up to a limit.
fn is_number(digits: &[u8], most: u32) -> bool
    ensures { result ≡ is_number most digits.now }
{
    match digits {
        [] | [b'0', _, ..] => false,
        _ => digits.len() <= 5 && number_of(digits) <= most,
    }
}

fn number_of(digits: &[u8]) -> u32
    requires { length digits.now ≤ 5 }
    ensures { result ≡ number_of digits.now }
{
    let mut number = 0u32;
    for digit in digits {
        number = 10 * number + u32::from(digit.saturating_sub(b'0'));
    }
    number
}
