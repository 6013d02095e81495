ghost use Rattle.std.specs.Prelude.{◌≡◌};
ghost use Rattle.program_parking.specs.Lanes.{cost};

use cfdp_types::Octets;

/// How many octets a datagram takes up in the room besides its own.
pub(crate) const OVERHEAD_OCTETS: u64 = 64;

/// A parked datagram.
#[derive(Debug, Drop)]
pub struct Parked {
    /// The number of its transaction.
    pub number: u64,
    /// How many datagrams were parked before it, in all lanes.
    pub arrival: u64,
    /// When it came, in milliseconds since 1970.
    pub since: u64,
    pub octets: Octets,
}

/// A copy of the first datagram of a lane, which is handed in. It shares the octets.
#[derive(Debug, Drop)]
pub struct Lent {
    /// The number of its transaction, and the datagram's own.
    pub number: u64,
    pub arrival: u64,
    pub octets: Octets,
}

/// How many octets of the room a datagram takes up: its own and `OVERHEAD_OCTETS`.
pub(crate) fn cost_of(one: &Parked) -> u64
    ensures { result ≡ cost one.now }
{
    (one.octets.as_slice().len() as u64).saturating_add(OVERHEAD_OCTETS)
}
