//! The modular checksum of a file in the CCSDS File Delivery Protocol.
#![tactic(auto)]

pub mod laws;
mod running;
mod words;

ghost use Rattle.std.specs.Prelude.{◌≡◌};
ghost use Rattle.modular_sum.specs.Sum.{sum};

use crate::words::with_words;
pub use running::Running;

/// The modular checksum of a whole file: its octets as big-endian words of four, the last word padded with
/// zeros, added modulo 2^32.
pub fn sum_of(octets: &[u8]) -> u32
    ensures { result ≡ sum octets.now }
{
    with_words(0, octets)
}
