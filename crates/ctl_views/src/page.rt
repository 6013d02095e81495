//! Text to be shown, in pieces with tones.
ghost use Rattle.std.specs.Prelude.{◌≡◌, ◌++◌, ◌∷◌, [], OnOk, chars, flat_map};
ghost use Rattle.ctl_views.specs.Shown.{shown};
ghost use Rattle.ctl_views.specs.Pages.{page_octets, piece_octets, tone_end, tone_start};

use crate::shown::{Shown, columns_of};
use std::alloc::{AllocError, Global};
use std::marker::Model;

/// What a piece of text is, which decides its colour.
#[derive(Clone, Copy)]
pub enum Tone {
    Plain,
    /// The head of a table.
    Head,
    /// Something went well.
    Good,
    /// Something went wrong.
    Bad,
    /// Something that matters less.
    Faint,
}

/// A piece of text with its tone.
#[derive(Drop)]
pub struct Piece {
    pub tone: Tone,
    pub text: Shown,
}

/// Text to be shown, in pieces. Contracts see the list of them.
#[derive(Drop)]
pub struct Page {
    alloc: Global,
    pieces: Vec<Piece>,
}

impl Model for Page {
    ghost use Rattle.std.specs.Prelude.{List};
    ghost use Rattle.ctl_views.specs.declared.page.Piece.{Piece};

    ghost Value = { List Piece };

    ghost view = { λ p. p.pieces.items };
}

impl Page {
    /// An empty page.
    pub fn new(alloc: Global) -> Page
        ensures { result ≡ [] }
    {
        Page {
            alloc,
            pieces: Vec::new(alloc),
        }
    }

    /// Appends the page to octets, in UTF-8, with colour sequences if `is_coloured`.
    pub fn push_to(&self, octets: &mut Vec<u8>, is_coloured: bool) -> Result<(), AllocError>
        ensures { OnOk result (octets.new.items ≡ octets.old.items ++ page_octets is_coloured self.now) }
    {
        for piece in self.pieces.as_slice() {
            push_piece_to(piece, octets, is_coloured)?;
        }
        Ok(())
    }

    /// Adds a text as a piece, made safe as by `Shown::push_visible`.
    pub fn push(&mut self, tone: Tone, text: &str) -> Result<(), AllocError>
        ensures { OnOk result (self.new ≡ self.old ++ record { tone = tone; text = flat_map shown (chars text.now) } ∷ []) }
    {
        let mut shown = Shown::new(self.alloc);
        shown.push_visible(text)?;
        self.push_piece(tone, shown)
    }

    /// Adds a text as a line.
    pub fn push_line(&mut self, tone: Tone, text: &str) -> Result<(), AllocError>
        ensures { OnOk result
            (self.new ≡ self.old ++ record { tone = tone; text = flat_map shown (chars text.now) ++ 10 ∷ [] } ∷ []) }
    {
        let mut shown = Shown::new(self.alloc);
        shown.push_visible(text)?;
        shown.end_line()?;
        self.push_piece(tone, shown)
    }

    /// Adds a text in exactly `columns` columns, with spaces before or after it if it has fewer.
    pub(crate) fn push_cell(
        &mut self,
        tone: Tone,
        text: &str,
        columns: usize,
        is_right: bool,
    ) -> Result<(), AllocError> {
        let mut shown = Shown::new(self.alloc);
        let lacking = columns.saturating_sub(columns_of(text));
        if is_right {
            push_spaces(&mut shown, lacking)?;
        }
        shown.push_within(text, columns)?;
        if !is_right {
            push_spaces(&mut shown, lacking)?;
        }
        self.push_piece(tone, shown)
    }

    /// Ends a line.
    pub(crate) fn end_line(&mut self) -> Result<(), AllocError>
        ensures { OnOk result (self.new ≡ self.old ++ record { tone = Tone.Plain; text = 10 ∷ [] } ∷ []) }
    {
        let mut shown = Shown::new(self.alloc);
        shown.end_line()?;
        self.push_piece(Tone::Plain, shown)
    }

    fn push_piece(&mut self, tone: Tone, text: Shown) -> Result<(), AllocError>
        ensures { OnOk result (self.new ≡ self.old ++ record { tone = tone; text = text } ∷ []) }
    {
        match self.pieces.push(Piece { tone, text }) {
            Ok(()) => Ok(()),
            Err(_) => Err(AllocError),
        }
    }
}

// Appends a piece to octets.
fn push_piece_to(piece: &Piece, octets: &mut Vec<u8>, is_coloured: bool) -> Result<(), AllocError>
    ensures { OnOk result (octets.new.items ≡ octets.old.items ++ piece_octets is_coloured piece.now) }
{
    if !is_coloured {
        return piece.text.push_to(octets);
    }
    octets.extend_from_slice(tone_start(piece.tone))?;
    piece.text.push_to(octets)?;
    octets.extend_from_slice(tone_end(piece.tone))
}

// The sequence that begins a tone on a terminal.
fn tone_start(tone: Tone) -> &'static [u8]
    ensures { result.now ≡ tone_start tone }
{
    match tone {
        Tone::Plain => b"",
        Tone::Head => b"\x1b[1m",
        Tone::Good => b"\x1b[32m",
        Tone::Bad => b"\x1b[31m",
        Tone::Faint => b"\x1b[2m",
    }
}

// The sequence that ends a tone on a terminal.
fn tone_end(tone: Tone) -> &'static [u8]
    ensures { result.now ≡ tone_end tone }
{
    match tone {
        Tone::Plain => b"",
        _ => b"\x1b[0m",
    }
}

fn push_spaces(shown: &mut Shown, count: usize) -> Result<(), AllocError> {
    for _ in 0..count {
        shown.push_visible(" ")?;
    }
    Ok(())
}
