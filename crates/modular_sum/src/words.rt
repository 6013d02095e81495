ghost use Rattle.std.specs.Prelude.{◌≡◌, ◌<◌, ◌≤◌, ◌+◌, ◌*◌, ◌^◌, length, slice_index};
ghost use Rattle.modular_sum.specs.Sum.{weight_of};
ghost use Rattle.modular_sum.specs.Pieces.{sum_with};

// Adds consecutive octets, the first of which is at `place` in its word: one by one up to the next word, then word by
// word.
#[tactic(auto, using(crate::proofs::SumLemmas::sum_with_row))]
pub fn with_row(word: u32, place: usize, octets: &[u8]) -> u32
    requires { place < 4 }
    ensures { result ≡ sum_with word place octets.now }
{
    let lead = (4 - place) % 4;
    if octets.len() <= lead {
        return with_octets(word, place, octets);
    }
    let (front, rest) = octets.split_at(lead);
    with_words(with_octets(word, place, front), rest)
}

// Adds consecutive octets, the first of which begins a word.
#[tactic(auto, using(crate::proofs::SumLemmas::total_after_word_at))]
pub fn with_words(word: u32, octets: &[u8]) -> u32
    ensures { result ≡ sum_with word 0 octets.now }
{
    let mut total = word;
    for index in 0..octets.len() / 4 {
        total = total.wrapping_add(word_at(octets, 4 * index));
    }
    with_octets(total, 0, &octets[4 * (octets.len() / 4)..])
}

// Adds consecutive octets one by one, the first of which is at `place` in its word.
fn with_octets(word: u32, place: usize, octets: &[u8]) -> u32
    requires { place < 4 }
    ensures { result ≡ sum_with word place octets.now }
{
    let mut total = word;
    for (index, octet) in octets.iter().enumerate() {
        total = total.wrapping_add(term_of((place + index) % 4, *octet));
    }
    total
}

// The big-endian word of the four octets from `start`.
fn word_at(octets: &[u8], start: usize) -> u32
    requires { start + 4 ≤ length octets.now }
    ensures { result ≡ slice_index octets.now start * 256 ^ 3
        + slice_index octets.now (start + 1) * 256 ^ 2
        + slice_index octets.now (start + 2) * 256
        + slice_index octets.now (start + 3) }
{
    u32::from_be_bytes([
        octets[start],
        octets[start + 1],
        octets[start + 2],
        octets[start + 3],
    ])
}

// What an octet at an offset adds to the checksum.
#[tactic(auto, using(crate::proofs::SumLemmas::shifted_octet))]
fn term_of(offset: usize, octet: u8) -> u32
    ensures { result ≡ octet * weight_of offset }
{
    u32::from(octet) << (8 * (3 - offset % 4))
}
