//! Numbers in decimal digits.
ghost use Rattle.std.specs.Prelude.{◌≡◌, ◌≤◌, IfSome, if◌then◌else◌, length, nat_eq};
ghost use Rattle.std.specs.List.{fold};
ghost use Rattle.ctl_windows.specs.Numbers.{number_of, with_digit, within};

/// The number of at most 64 bits that a word writes in decimal digits.
pub(crate) fn number_in(word: &[u8]) -> Option<u64>
    ensures { result ≡ number_of word.now }
{
    if word.is_empty() {
        None
    } else {
        digits_in(word)
    }
}

// The number that digits write; 0 without any.
fn digits_in(digits: &[u8]) -> Option<u64>
    ensures { result ≡ fold with_digit (Some 0) digits.now }
{
    digits
        .iter()
        .fold(Some(0), |number, octet| with_digit(number, *octet))
}

// A number with one more digit, if it still has at most 64 bits.
fn with_digit(number: Option<u64>, octet: u8) -> Option<u64>
    ensures { result ≡ with_digit number octet }
{
    match number {
        Some(number) => digit_after(number, octet),
        None => None,
    }
}

fn digit_after(number: u64, octet: u8) -> Option<u64>
    ensures { result ≡ with_digit (Some number) octet }
{
    if !octet.is_ascii_digit() {
        return None;
    }
    let grown = u128::from(number) * 10 + u128::from(octet - b'0');
    if grown > u128::from(u64::MAX) {
        None
    } else {
        Some(grown as u64)
    }
}

/// The number that a word writes, if it is in a range.
pub(crate) fn number_within(word: &[u8], least: u64, most: u64) -> Option<u64>
    ensures number { result ≡ within least most (number_of word.now) }
    ensures least { IfSome result (λ number. least ≤ number) }
    ensures most { IfSome result (λ number. number ≤ most) }
{
    match number_in(word) {
        Some(number) if number >= least && number <= most => Some(number),
        _ => None,
    }
}
