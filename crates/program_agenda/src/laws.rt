//! Laws of a pace, about the definitions alone.

ghost use Rattle.program_agenda.specs.PaceLaws.{KeepsToRate};

/// If each departure is at a moment at which the pace is free, and the pace counts each, then what leaves in any span
/// of time is at most what the limit allows in that span and ten milliseconds more, plus one departure.
pub fn paces()
    ensures { KeepsToRate }
{}
