//! Laws of the order of numbers, about the definitions alone.

ghost use Rattle.program_lineup.specs.LineupLaws.{GoesFree, RisesAlone};

/// A transaction that the outbox begins has a greater number than each that began toward the entity before with the
/// same remainder, and those have ended, whoever began them.
pub fn order()
    ensures { RisesAlone }
{}

/// The number that a choice lets go is free, and is the next number of an idle lane of the user.
pub fn goes()
    ensures { GoesFree }
{}
