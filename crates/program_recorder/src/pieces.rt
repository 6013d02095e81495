//! A text in pieces of whole lines.
ghost use Rattle.program_recorder.specs.Pieces.{IsPiece};

use memchr::{memchr, memrchr};

/// The most octets of a piece, unless its only line is longer.
pub const PIECE_OCTETS: usize = 262_144;

/// How many octets of a text's rest its next piece has. The last piece ends with the text, each other one with a line.
pub fn piece_length(rest: &[u8]) -> usize
    ensures { IsPiece rest.now result }
{
    let count = cut_in(rest);
    if 0 < count && count <= rest.len() && rest[count - 1] == b'\n' {
        count
    } else {
        rest.len()
    }
}

// After how many octets the rest is to be cut: after the last line that is whole within a piece, or else after the
// first line. A rest shorter than a piece is not cut.
fn cut_in(rest: &[u8]) -> usize {
    let feed = match rest.get(..PIECE_OCTETS) {
        Some(most) => memrchr(b'\n', most).or(memchr(b'\n', rest)),
        None => None,
    };
    match feed {
        Some(at) => at.saturating_add(1),
        None => rest.len(),
    }
}
