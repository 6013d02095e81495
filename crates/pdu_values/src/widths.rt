//! How many octets a number is written in.
ghost use Rattle.std.specs.Prelude.{◌≡◌, ◌<◌, ◌^◌};
ghost use Rattle.cfdp_types.specs.Params.{IsIdLength};
ghost use Rattle.pdu_values.specs.Tlvs.{octets_for};

/// How many octets an ID or a sequence number is written in: `least`, or the fewest that hold it where it needs
/// more.
#[tactic(auto, unfolding(crate::specs::Tlvs::width_from))]
pub fn octets_for(least: u8, number: u64) -> u8
    requires { IsIdLength least }
    ensures value { result ≡ octets_for least number }
    ensures range { IsIdLength result }
    ensures holds { number < 256 ^ result }
{
    let mut octets = least;
    while octets < 8 && number >= 256_u64.pow(u32::from(octets)) {
        octets += 1;
    }
    octets
}
