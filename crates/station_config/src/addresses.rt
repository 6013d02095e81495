//! Addresses, as the entity's configuration has them.
ghost use Rattle.std.specs.Prelude.{◌≡◌, ◌≤◌, length, option_copied, take_while};
ghost use Rattle.config_reading.specs.Texts.{after_address, after_number, after_part, is_address, is_digit, is_number, number_of};

/// Whether a text is an address: four numbers up to 255 with dots between them, a colon and a port, none with leading
/// zeros.
pub(crate) fn is_address(text: &str) -> bool
    ensures { result ≡ is_address text.now }
{
    match after_address(text.as_bytes()) {
        Some([]) => true,
        _ => false,
    }
}

// What follows an address at the start of a text; None where it doesn't start with one.
fn after_address(text: &[u8]) -> Option<&[u8]>
    ensures { option_copied result ≡ after_address text.now }
{
    let text = after_part(text, b'.')?;
    let text = after_part(text, b'.')?;
    let text = after_part(text, b'.')?;
    let text = after_part(text, b':')?;
    after_number(text, 65_535)
}

// What follows a number up to 255 and a given octet at the start of a text.
fn after_part(text: &[u8], octet: u8) -> Option<&[u8]>
    ensures { option_copied result ≡ after_part octet text.now }
{
    match after_number(text, 255)? {
        [first, rest @ ..] if *first == octet => Some(rest),
        _ => None,
    }
}

// What follows a number at the start of a text.
fn after_number(text: &[u8], most: u32) -> Option<&[u8]>
    ensures { option_copied result ≡ after_number most text.now }
{
    let end = digits(text);
    if !is_number(&text[..end], most) {
        return None;
    }
    Some(&text[end..])
}

// The number of digits at the start of a text.
fn digits(text: &[u8]) -> usize
    ensures { result ≡ length (take_while is_digit text.now) }
{
    text.iter()
        .take_while(|octet| matches!(**octet, b'0'..=b'9'))
        .count()
}

// Whether the digits have no leading zero and write a number up to a limit.
fn is_number(digits: &[u8], most: u32) -> bool
    ensures { result ≡ is_number most digits.now }
{
    match digits {
        [] | [b'0', _, ..] => false,
        _ => digits.len() <= 5 && number_of(digits) <= most,
    }
}

fn number_of(digits: &[u8]) -> u32
    requires { length digits.now ≤ 5 }
    ensures { result ≡ number_of digits.now }
{
    let mut number = 0u32;
    for digit in digits {
        number = 10 * number + u32::from(digit.saturating_sub(b'0'));
    }
    number
}
