ghost use Rattle.std.specs.Prelude.{◌≡◌};
ghost use Rattle.program_udp.specs.Reaches.{data_end, reach_of};

use lane_table::Done;
use pdu_values::{Body, Pdu};

/// How far into its file the data of a step's PDUs reaches: the greatest end of their segments, or 0 without segments.
pub fn reach_of(done: &Done) -> u64
    ensures { result ≡ reach_of done.now.pdus }
{
    reach_in(done.pdus.as_slice())
}

// How far into its file the data of these PDUs reaches.
fn reach_in(pdus: &[Pdu]) -> u64
    ensures { result ≡ reach_of pdus.now }
{
    match pdus {
        [] => 0,
        [first, rest @ ..] => data_end(first).max(reach_in(rest)),
    }
}

// Where the data of a PDU ends in its file.
fn data_end(pdu: &Pdu) -> u64
    ensures { result ≡ data_end pdu.now.body }
{
    match pdu.body() {
        Body::FileData(segment) => {
            u64::from(segment.offset).saturating_add(segment.octets.as_slice().len() as u64)
        }
        _ => 0,
    }
}
