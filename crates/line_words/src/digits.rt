//! Octets written as two hex digits.
ghost use Rattle.std.specs.Prelude.{◌≡◌, ◌<◌, IfSome};
ghost use Rattle.line_words.specs.Quoted.{hex_digit, hex_octet};

// The value of a hex digit.
fn hex_digit(octet: u8) -> Option<u8>
    ensures value { result ≡ hex_digit octet }
    ensures range { IfSome result (λ value. value < 16) }
{
    match octet {
        b'0'..=b'9' => Some(octet - b'0'),
        b'a'..=b'f' => Some(octet - b'a' + 10),
        b'A'..=b'F' => Some(octet - b'A' + 10),
        _ => None,
    }
}

// The octet with these two hex digits; None if either isn't a hex digit.
pub(crate) fn hex_octet(high: u8, low: u8) -> Option<u8>
    ensures { result ≡ hex_octet high low }
{
    let high = hex_digit(high)?;
    let low = hex_digit(low)?;
    Some(high * 16 + low)
}
