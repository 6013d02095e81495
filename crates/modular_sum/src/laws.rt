//! Laws of the modular checksum.

ghost use Rattle.modular_sum.specs.Pieces.{PiecesAddUp};

/// Pieces of a file that don't overlap add up to the sum of the whole file, in whatever order they are added.
pub fn pieces()
    ensures { PiecesAddUp }
{}
