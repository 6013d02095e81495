//! Laws of what is parked, about the definitions alone.

ghost use Rattle.program_parking.specs.ParkingLaws.{ComesOutInOrder, AccountsForEach};

/// Whatever is parked, handed in, dropped and forgotten, and wherever memory runs out: what the lane took, followed by
/// what waits, is in the order of the numbers and, within a number, in the order in which it came.
pub fn order()
    ensures { ComesOutInOrder }
{}

/// Each datagram that was parked was taken, or waits, or was dropped or refused: one of these, and once.
pub fn accounts()
    ensures { AccountsForEach }
{}
