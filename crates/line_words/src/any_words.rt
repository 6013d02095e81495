//! Takes the words of a line in order.
ghost use Rattle.std.specs.Prelude.{◌≡◌, [], ◌∷◌, MatchOption};
ghost use Rattle.std.specs.Option.{option_copied};
ghost use Rattle.line_words.specs.Words.{words_of, only_word};
ghost use Rattle.line_words.specs.Quoted.{has_quote, is_ascii};

use crate::words::{Rest, split_word};
use cfdp_types::Octets;
use std::marker::Model;

/// The rest of a line's words. Contracts see the list of them.
#[derive(Drop)]
pub struct Words<'a> {
    // the words of a text that isn't split yet, and words after them
    text: Rest<'a>,
    list: &'a [Octets],
}

impl<'a> Model for Words<'a> {
    ghost use Rattle.std.specs.Prelude.{List, ℕ, ◌++◌};
    ghost use Rattle.std.specs.Option.{option_copied};
    ghost use Rattle.line_words.specs.Words.{words_left};

    ghost Value = { List (List ℕ) };

    ghost view = { λ w. words_left (option_copied w.text) ++ w.list.now };
}

impl<'a> Words<'a> {
    /// The words of a line without quotes.
    pub fn of_line(line: &'a [u8]) -> Words<'a>
        ensures { result ≡ words_of line.now }
    {
        Words {
            text: Some(line),
            list: &[],
        }
    }

    /// The words of a list.
    pub fn of_list(list: &'a [Octets]) -> Words<'a>
        ensures { result ≡ list.now }
    {
        Words { text: None, list }
    }

    /// The next word and what is left after it, if there is one.
    pub fn next(self) -> Option<(&'a [u8], Words<'a>)>
        ensures { MatchOption result (self.entry ≡ []) (λ r. self.entry ≡ r.0.now ∷ r.1) }
    {
        if let Some(text) = self.text {
            let (word, text) = split_word(text);
            return Some((
                word,
                Words {
                    text,
                    list: self.list,
                },
            ));
        }
        let (word, list) = self.list.split_first()?;
        Some((word.as_slice(), Words { text: None, list }))
    }

    /// The next word, if it is the only one.
    pub fn last(self) -> Option<&'a [u8]>
        ensures { option_copied result ≡ only_word self.entry }
    {
        let (word, rest) = self.next()?;
        match rest.next() {
            None => Some(word),
            Some(_) => None,
        }
    }
}

/// Whether a line has a double quote.
pub fn has_quote(line: &[u8]) -> bool
    ensures { result ≡ has_quote line.now }
{
    line.iter().any(|octet| *octet == b'"')
}

/// Whether a line is ASCII.
pub fn is_ascii(line: &[u8]) -> bool
    ensures { result ≡ is_ascii line.now }
{
    line.iter().all(|octet| *octet < 128)
}
