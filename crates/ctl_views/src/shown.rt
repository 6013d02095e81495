//! Text that is safe to print, whatever it was made of.
ghost use Rattle.std.specs.Prelude.{◌≡◌, ◌++◌, ◌∷◌, ◌<◌, [], OnOk, chars, flat_map, true};
ghost use Rattle.std.specs.Char.{encode_utf8};
ghost use Rattle.std.specs.List.{list_all};
ghost use Rattle.ctl_views.specs.Shown.{escape, hex_digit, hex_pair, is_hidden, is_high_mark, is_mark, is_punctuation_mark, is_script_mark, is_visible, shown};

use std::alloc::{AllocError, Global};
use std::marker::Model;
use unicode_width::UnicodeWidthChar;

/// Text for a terminal. Contracts see its characters; except for line feeds, the terminal neither obeys nor hides any
/// of them.
#[derive(Drop)]
pub struct Shown {
    letters: Vec<char>,
}

impl Model for Shown {
    ghost use Rattle.std.specs.Prelude.{◌≡◌, ℕ, List, true};
    ghost use Rattle.std.specs.List.{list_all};
    ghost use Rattle.ctl_views.specs.Shown.{is_visible};

    ghost Value = { List ℕ };

    ghost view = { λ s. s.letters.items };

    ghost invariant = { λ s. list_all is_visible s.letters.items ≡ true };
}

impl Shown {
    /// An empty text.
    pub fn new(alloc: Global) -> Shown
        ensures { result ≡ [] }
    {
        Shown {
            letters: Vec::new(alloc),
        }
    }

    /// Appends the text to octets, in UTF-8.
    pub(crate) fn push_to(&self, octets: &mut Vec<u8>) -> Result<(), AllocError>
        ensures octets { OnOk result (octets.new.items ≡ octets.old.items ++ flat_map encode_utf8 self.now) }
        ensures visible { list_all is_visible self.now ≡ true }
    {
        let mut room = [0u8; 4];
        for letter in self.letters.as_slice() {
            octets.extend_from_slice(letter.encode_utf8(&mut room).as_bytes())?;
        }
        Ok(())
    }

    /// Adds a text from any source. Each character that a terminal would obey or hide is replaced by its code in hex.
    pub fn push_visible(&mut self, text: &str) -> Result<(), AllocError>
        ensures { OnOk result (self.new ≡ self.old ++ flat_map shown (chars text.now)) }
    {
        for letter in text.chars() {
            self.push_letter(letter)?;
        }
        Ok(())
    }

    /// Adds a text as `push_visible` does, in at most `columns` columns. If it has more, an ellipsis replaces the rest.
    pub(crate) fn push_within(&mut self, text: &str, columns: usize) -> Result<(), AllocError> {
        if columns_of(text) <= columns {
            return self.push_visible(text);
        }
        let mut left = columns.saturating_sub(1);
        for letter in text.chars() {
            let needed = letter_columns(letter);
            if needed > left {
                break;
            }
            left -= needed;
            self.push_letter(letter)?;
        }
        self.push_visible("…")
    }

    /// Ends a line.
    pub fn end_line(&mut self) -> Result<(), AllocError>
        ensures { OnOk result (self.new ≡ self.old ++ 10 ∷ []) }
    {
        self.push_known('\n')
    }

    fn push_letter(&mut self, letter: char) -> Result<(), AllocError>
        ensures { OnOk result (self.new ≡ self.old ++ shown letter) }
    {
        if is_hidden(letter) {
            self.push_escape(u32::from(letter))
        } else {
            self.push_known(letter)
        }
    }

    // Adds the code in hex that replaces a hidden character.
    fn push_escape(&mut self, code: u32) -> Result<(), AllocError>
        requires { code < 0x110000 }
        ensures { OnOk result (self.new ≡ self.old ++ escape code) }
    {
        self.push_known('\\')?;
        if code < 256 {
            self.push_known('x')?;
            self.push_pair(code)
        } else {
            self.push_known('u')?;
            self.push_pair(code / 65_536)?;
            self.push_pair(code / 256 % 256)?;
            self.push_pair(code % 256)
        }
    }

    // Adds a number below 256 as two hex digits.
    fn push_pair(&mut self, number: u32) -> Result<(), AllocError>
        requires { number < 256 }
        ensures { OnOk result (self.new ≡ self.old ++ hex_pair number) }
    {
        self.push_known(hex_digit((number / 16) as u8))?;
        self.push_known(hex_digit((number % 16) as u8))
    }

    // Adds a character that may be printed as it is.
    fn push_known(&mut self, letter: char) -> Result<(), AllocError>
        requires { is_visible letter ≡ true }
        ensures { OnOk result (self.new ≡ self.old ++ letter ∷ []) }
    {
        Ok(self.letters.push(letter)?)
    }
}

/// The hex digit of a number below sixteen.
pub(crate) fn hex_digit(number: u8) -> char
    requires { number < 16 }
    ensures digit { result ≡ hex_digit number }
    ensures visible { is_visible result ≡ true }
{
    if number < 10 {
        char::from(b'0' + number)
    } else {
        char::from(b'a' + (number - 10))
    }
}

// Whether a terminal obeys a character or hides it: control characters, and marks.
fn is_hidden(letter: char) -> bool
    ensures { result ≡ is_hidden letter }
{
    letter.is_control() || is_mark(letter)
}

// Whether a character is a mark that a terminal hides, or that turns the direction of the text around it.
fn is_mark(letter: char) -> bool
    ensures { result ≡ is_mark letter }
{
    is_punctuation_mark(letter) || is_script_mark(letter) || is_high_mark(letter)
}

fn is_punctuation_mark(letter: char) -> bool
    ensures { result ≡ is_punctuation_mark letter }
{
    matches!(letter, '\u{200b}'..='\u{200f}' | '\u{2028}'..='\u{202e}' | '\u{2060}'..='\u{206f}')
}

fn is_script_mark(letter: char) -> bool
    ensures { result ≡ is_script_mark letter }
{
    matches!(letter, '\u{ad}' | '\u{34f}' | '\u{61c}' | '\u{115f}'..='\u{1160}'
        | '\u{17b4}'..='\u{17b5}' | '\u{180b}'..='\u{180f}' | '\u{3164}')
}

fn is_high_mark(letter: char) -> bool
    ensures { result ≡ is_high_mark letter }
{
    matches!(letter, '\u{fe00}'..='\u{fe0f}' | '\u{feff}' | '\u{ffa0}' | '\u{fff0}'..='\u{fffb}'
        | '\u{1bca0}'..='\u{1bca3}' | '\u{1d173}'..='\u{1d17a}' | '\u{e0000}'..='\u{e0fff}')
}

/// How many columns a text takes when it is shown.
pub(crate) fn columns_of(text: &str) -> usize {
    let mut columns = 0usize;
    for letter in text.chars() {
        columns = columns.saturating_add(letter_columns(letter));
    }
    columns
}

fn letter_columns(letter: char) -> usize {
    if !is_hidden(letter) {
        letter.width().unwrap_or(1)
    } else if u32::from(letter) < 256 {
        4
    } else {
        8
    }
}
