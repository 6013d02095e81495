//! Laws of the numbers that lanes give, stated over the definitions alone.

ghost use Rattle.number_file.specs.LanePlaces.{LanesArePlaced};
ghost use Rattle.number_file.specs.RoundLaws.{NeverTwice};

/// Whatever programs run, wherever they stop, and whenever the power is cut, no lane gives a number that any lane gave before.
pub fn numbers()
    ensures { NeverTwice }
{}

/// Each sending lane of each user has a place of its own in a round, and its numbers are those at that place. So what
/// the other law says of places holds for the lanes of an entity.
pub fn lanes_are_placed()
    ensures { LanesArePlaced }
{}
