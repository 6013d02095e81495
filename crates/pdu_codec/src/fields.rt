//! Readers of fields. Each returns the value and the octets after it, or None where there are too few.

ghost use Rattle.std.specs.Prelude.{◌≡◌, ◌<◌, ◌≤◌, ◌+◌, ◌^◌, length, IfSome};
ghost use Rattle.pdu_values.specs.Numbers.{number_of};
ghost use Rattle.pdu_values.specs.Requests.{size_octets};
ghost use Rattle.pdu_reading.specs.Reading.{Gives, octets_at, number_at, lv_at};

/// How many octets sizes and offsets have, with the large file flag or without it.
pub fn size_octets(large: bool) -> u8
    ensures value { result ≡ size_octets large }
    ensures least { 1 ≤ result }
    ensures most { result ≤ 8 }
{
    if large { 8 } else { 4 }
}

/// The number that at most eight octets stand for, the most significant first.
pub fn number_of(octets: &[u8]) -> u64
    requires { length octets.now ≤ 8 }
    ensures value { result ≡ number_of octets.now }
    ensures below { result < 256 ^ length octets.now }
{
    let mut number = 0;
    for octet in octets {
        number = number * 256 + u64::from(*octet);
    }
    number
}

/// The first `count` octets.
pub fn octets_at(count: usize, octets: &[u8]) -> Option<(&[u8], &[u8])>
    ensures value { Gives (λ x. (x.0.now, x.1.now)) result (octets_at count octets.now) }
    ensures left { IfSome result (λ x. count + length x.1.now ≡ length octets.now) }
{
    if octets.len() < count {
        return None;
    }
    Some(octets.split_at(count))
}

/// A number of `width` octets.
#[tactic(auto, unfolding(pdu_reading::specs::Reading::number_at))]
pub fn number_at(width: usize, octets: &[u8]) -> Option<(u64, &[u8])>
    requires { width ≤ 8 }
    ensures value { Gives (λ x. (x.0, x.1.now)) result (number_at width octets.now) }
    ensures below { IfSome result (λ x. x.0 < 256 ^ width) }
    ensures left { IfSome result (λ x. width + length x.1.now ≡ length octets.now) }
{
    let (front, rest) = octets_at(width, octets)?;
    Some((number_of(front), rest))
}

/// A number of one octet.
pub fn octet_at(octets: &[u8]) -> Option<(u8, &[u8])>
    ensures value { Gives (λ x. (x.0, x.1.now)) result (number_at 1 octets.now) }
    ensures left { IfSome result (λ x. 1 + length x.1.now ≡ length octets.now) }
{
    let (number, rest) = number_at(1, octets)?;
    Some((number as u8, rest))
}

/// A number of two octets.
pub fn pair_at(octets: &[u8]) -> Option<(u16, &[u8])>
    ensures value { Gives (λ x. (x.0, x.1.now)) result (number_at 2 octets.now) }
    ensures left { IfSome result (λ x. 2 + length x.1.now ≡ length octets.now) }
{
    let (number, rest) = number_at(2, octets)?;
    Some((number as u16, rest))
}

/// A number of four octets.
pub fn word_at(octets: &[u8]) -> Option<(u32, &[u8])>
    ensures value { Gives (λ x. (x.0, x.1.now)) result (number_at 4 octets.now) }
    ensures left { IfSome result (λ x. 4 + length x.1.now ≡ length octets.now) }
{
    let (number, rest) = number_at(4, octets)?;
    Some((number as u32, rest))
}

/// A length in one octet, and that many octets.
#[tactic(auto, unfolding(pdu_reading::specs::Reading::lv_at))]
pub fn lv_at(octets: &[u8]) -> Option<(&[u8], &[u8])>
    ensures value { Gives (λ x. (x.0.now, x.1.now)) result (lv_at octets.now) }
    ensures shorter { IfSome result (λ x. length x.1.now < length octets.now) }
{
    let (count, rest) = octet_at(octets)?;
    octets_at(usize::from(count), rest)
}
