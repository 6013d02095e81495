//! Reads a line with quotes, octet by octet.
ghost use Rattle.std.specs.Prelude.{◌≡◌, [], IfOk, OnOk};
ghost use Rattle.line_words.specs.Quoted.{quoted_words_of, start, next_octet, first_octet, plain_octet, quoted_octet, escaped_octet, last_digit, closed_octet, with_end, with_octet, with_mode, words_at_end};

use crate::digits::hex_octet;
use cfdp_types::Octets;
use std::alloc::{AllocError, Global};
use std::marker::Model;

/// How the next octet of a line is read.
#[derive(Clone, Copy, Debug)]
pub enum Mode {
    /// At the beginning of a word.
    Begin,
    /// In a word without quotes.
    Plain,
    /// Inside quotes.
    Quoted,
    /// Inside quotes, after a backslash.
    Escaped,
    /// Inside quotes, where the first of two hex digits is expected.
    FirstDigit,
    /// Inside quotes, after this first hex digit, where the second one is expected.
    LastDigit(u8),
    /// After closing quotes.
    Closed,
    /// After an octet that a line may not have there.
    Bad,
}

/// Words in order. Contracts see the list of them.
#[derive(Debug, Drop)]
pub struct WordList {
    items: Vec<Octets>,
}

impl Model for WordList {
    ghost use Rattle.std.specs.Prelude.{List, ℕ};

    ghost Value = { List (List ℕ) };

    ghost view = { λ w. w.items.items };
}

impl WordList {
    pub fn as_slice(&self) -> &[Octets]
        ensures { result.now ≡ self.now }
    {
        self.items.as_slice()
    }
}

// A line that is being read.
#[derive(Drop)]
struct Splitter {
    alloc: Global,
    words: Vec<Octets>,
    word: Vec<u8>,
    mode: Mode,
}

impl Model for Splitter {
    ghost use Rattle.line_words.specs.Quoted.{Reading};

    ghost Value = { Reading };

    ghost view = { λ s. record { words = s.words.items; word = s.word.items; mode = s.mode } };
}

/// The words of a line, each of which may be in double quotes; `None` if the line is malformed.
pub fn quoted_words(alloc: Global, line: &[u8]) -> Result<Option<WordList>, AllocError>
    ensures { IfOk result (λ words. words ≡ quoted_words_of line.now) }
{
    let mut splitter = Splitter::new(alloc);
    for octet in line {
        splitter.read(*octet)?;
    }
    splitter.finish()
}

impl Splitter {
    fn new(alloc: Global) -> Splitter
        ensures { result ≡ start }
    {
        Splitter {
            alloc,
            words: Vec::new(alloc),
            word: Vec::new(alloc),
            mode: Mode::Begin,
        }
    }

    // The words, at the end of the line.
    fn finish(mut self) -> Result<Option<WordList>, AllocError>
        ensures { IfOk result (λ words. words ≡ words_at_end self) }
    {
        match self.mode {
            Mode::Begin | Mode::Plain | Mode::Closed => {
                self.end_word()?;
                Ok(Some(WordList { items: self.words }))
            }
            Mode::Quoted | Mode::Escaped | Mode::FirstDigit | Mode::LastDigit(_) | Mode::Bad => Ok(
                None,
            ),
        }
    }

    // Reads the next octet of the line.
    fn read(&mut self, octet: u8) -> Result<(), AllocError>
        ensures { OnOk result (self.new ≡ next_octet octet self.old) }
    {
        match self.mode {
            Mode::Begin => self.read_first(octet),
            Mode::Plain => self.read_plain(octet),
            Mode::Quoted => self.read_quoted(octet),
            Mode::Escaped => self.read_escaped(octet),
            Mode::FirstDigit => {
                self.mode = Mode::LastDigit(octet);
                Ok(())
            }
            Mode::LastDigit(first) => self.read_last_digit(first, octet),
            Mode::Closed => self.read_closed(octet),
            Mode::Bad => Ok(()),
        }
    }

    fn read_first(&mut self, octet: u8) -> Result<(), AllocError>
        ensures { OnOk result (self.new ≡ first_octet octet self.old) }
    {
        if octet == b'"' {
            self.mode = Mode::Quoted;
            return Ok(());
        }
        self.read_plain(octet)
    }

    fn read_plain(&mut self, octet: u8) -> Result<(), AllocError>
        ensures { OnOk result (self.new ≡ plain_octet octet self.old) }
    {
        if octet == b' ' {
            return self.end_word();
        }
        if octet < 128 {
            return self.add(Mode::Plain, octet);
        }
        self.mode = Mode::Bad;
        Ok(())
    }

    fn read_quoted(&mut self, octet: u8) -> Result<(), AllocError>
        ensures { OnOk result (self.new ≡ quoted_octet octet self.old) }
    {
        if octet == b'"' {
            self.mode = Mode::Closed;
            return Ok(());
        }
        if octet == b'\\' {
            self.mode = Mode::Escaped;
            return Ok(());
        }
        self.add(Mode::Quoted, octet)
    }

    fn read_escaped(&mut self, octet: u8) -> Result<(), AllocError>
        ensures { OnOk result (self.new ≡ escaped_octet octet self.old) }
    {
        if octet == b'"' || octet == b'\\' {
            return self.add(Mode::Quoted, octet);
        }
        self.mode = if octet == b'x' {
            Mode::FirstDigit
        } else {
            Mode::Bad
        };
        Ok(())
    }

    fn read_last_digit(&mut self, first: u8, octet: u8) -> Result<(), AllocError>
        ensures { OnOk result (self.new ≡ last_digit first octet self.old) }
    {
        match hex_octet(first, octet) {
            Some(written) => self.add(Mode::Quoted, written),
            None => {
                self.mode = Mode::Bad;
                Ok(())
            }
        }
    }

    fn read_closed(&mut self, octet: u8) -> Result<(), AllocError>
        ensures { OnOk result (self.new ≡ closed_octet octet self.old) }
    {
        if octet == b' ' {
            return self.end_word();
        }
        self.mode = Mode::Bad;
        Ok(())
    }

    // Appends an octet to the word.
    fn add(&mut self, mode: Mode, octet: u8) -> Result<(), AllocError>
        ensures { OnOk result (self.new ≡ with_octet mode octet self.old) }
    {
        self.word.push(octet)?;
        self.mode = mode;
        Ok(())
    }

    // Ends the word.
    fn end_word(&mut self) -> Result<(), AllocError>
        ensures { OnOk result (self.new ≡ with_end self.old) }
    {
        let word = Octets::from_slice(self.alloc, self.word.as_slice())?;
        self.words.push(word)?;
        self.word.clear();
        self.mode = Mode::Begin;
        Ok(())
    }
}
