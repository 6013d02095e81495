//! Splits a line into words in order.
ghost use Rattle.std.specs.Prelude.{◌≡◌, [], ◌∷◌, MatchOption, SomeIff};
ghost use Rattle.std.specs.Option.{option_copied};
ghost use Rattle.line_words.specs.Words.{words_of, decimal_of, words_left, only_word, IsDigitOf, value_with};

use memchr::memchr;

/// The rest of a line; `None` after its last word.
pub type Rest<'a> = Option<&'a [u8]>;

/// The first word of a text, and the rest after the space that ends it.
pub fn split_word(text: &[u8]) -> (&[u8], Rest<'_>)
    ensures { words_of text.now ≡ result.0.now ∷ words_left (option_copied result.1) }
{
    match memchr(b' ', text) {
        None => (text, None),
        Some(end) => (&text[..end], Some(&text[end + 1..])),
    }
}

/// The next word and what is left after it, if there is one.
pub fn next_word(rest: Rest<'_>) -> Option<(&[u8], Rest<'_>)>
    ensures { MatchOption result (words_left (option_copied rest.entry) ≡ [])
        (λ r. words_left (option_copied rest.entry) ≡ r.0.now ∷ words_left (option_copied r.1)) }
{
    Some(split_word(rest?))
}

/// The next word, if it is the only one.
pub fn last_word(rest: Rest<'_>) -> Option<&[u8]>
    ensures { option_copied result ≡ only_word (words_left (option_copied rest.entry)) }
{
    let (word, rest) = next_word(rest)?;
    if rest.is_some() {
        return None;
    }
    Some(word)
}

/// The number that a word spells in decimal digits, if it is at most `limit`.
pub fn decimal(word: &[u8], limit: u64) -> Option<u64>
    ensures { result ≡ decimal_of limit word.now }
{
    if word.is_empty() {
        return None;
    }
    let mut value = 0;
    for digit in word {
        value = with_digit(value, *digit, limit)?;
    }
    Some(value)
}

// Appends one decimal digit to a number.
fn with_digit(value: u64, digit: u8, limit: u64) -> Option<u64>
    ensures { SomeIff result (IsDigitOf limit value digit) (value_with value digit) }
{
    if !digit.is_ascii_digit() {
        return None;
    }
    let grown = value.checked_mul(10)?.checked_add(u64::from(digit - b'0'))?;
    if grown > limit { None } else { Some(grown) }
}
