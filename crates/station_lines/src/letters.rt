//! Text as a line has it: without characters that a terminal obeys, or that turn the direction of other text.
ghost use Rattle.std.specs.Prelude.{◌≡◌, ◌++◌, ◌<◌, IfOk, OnOk, OnErr, string_bytes, true};
ghost use Rattle.std.specs.Char.{digit_char};
ghost use Rattle.std.specs.List.{list_all};
ghost use Rattle.station_lines.specs.Letters.{escape, is_plain, is_unsafe, safe_char, safe_text};

use std::alloc::AllocError;

/// Appends a text, with an escape in place of each control character that JSON leaves as it is, and of each character
/// that turns the direction of text.
#[tactic(auto, using(crate::proofs::PlainTexts::safe_text_plain))]
pub(crate) fn push_safe(text: &mut String, added: &str) -> Result<(), AllocError>
    ensures added { OnOk result (string_bytes text.new ≡ string_bytes text.old ++ safe_text added.now) }
{
    if is_all_plain(added.as_bytes()) {
        return text.push_str(added);
    }
    push_letters(text, added)
}

// Whether all octets are characters of ASCII that stay as they are.
fn is_all_plain(octets: &[u8]) -> bool
    ensures { result ≡ list_all is_plain octets.now }
{
    octets.iter().all(|octet| is_plain(*octet))
}

fn is_plain(octet: u8) -> bool
    ensures { result ≡ is_plain octet }
{
    octet < 127
}

#[tactic(auto, unfolding(crate::specs::Letters::safe_text))]
fn push_letters(text: &mut String, added: &str) -> Result<(), AllocError>
    ensures { OnOk result (string_bytes text.new ≡ string_bytes text.old ++ safe_text added.now) }
{
    for letter in added.chars() {
        push_letter(text, letter)?;
    }
    Ok(())
}

fn push_letter(text: &mut String, letter: char) -> Result<(), AllocError>
    ensures { OnOk result (string_bytes text.new ≡ string_bytes text.old ++ safe_char letter) }
{
    if is_unsafe(letter) {
        push_escape(text, u32::from(letter))
    } else {
        text.push(letter)
    }
}

// Appends the escape of a character below 65,536.
fn push_escape(text: &mut String, code: u32) -> Result<(), AllocError>
    requires { code < 65_536 }
    ensures { OnOk result (string_bytes text.new ≡ string_bytes text.old ++ escape code) }
{
    text.push_str("\\u")?;
    text.push(hex_digit(code / 4096))?;
    text.push(hex_digit(code / 256 % 16))?;
    text.push(hex_digit(code / 16 % 16))?;
    text.push(hex_digit(code % 16))
}

// The hex digit of a number below sixteen.
fn hex_digit(number: u32) -> char
    requires { number < 16 }
    ensures digit { result ≡ digit_char number }
    ensures one_octet { result < 128 }
{
    if number < 10 {
        char::from(b'0' + number as u8)
    } else {
        char::from(b'a' + (number as u8 - 10))
    }
}

// Whether a character is a control character that JSON leaves as it is, or one that turns the direction of text.
fn is_unsafe(letter: char) -> bool
    ensures { result ≡ is_unsafe letter }
{
    matches!(letter, '\u{7f}'..='\u{9f}' | '\u{61c}' | '\u{200e}'..='\u{200f}' | '\u{202a}'..='\u{202e}' | '\u{2066}'..='\u{2069}')
}
