//! Comparing what nobody should guess.
ghost use Rattle.std.specs.Prelude.{◌≡◌, ◌↔◌, IsTrue, length};

/// Whether two texts are the same. The time that it takes shows how long they are, and nothing else of them.
pub(crate) fn is_same_secret(one: &[u8], other: &[u8]) -> bool
    ensures { IsTrue result ↔ (one.now ≡ other.now) }
{
    one.len() == other.len() && difference(one, other) == 0
}

// The bitwise or of the differences of all octets: 0 where there is none.
fn difference(one: &[u8], other: &[u8]) -> u8
    requires { length one.now ≡ length other.now }
    ensures none { result ≡ 0 → one.now ≡ other.now }
    ensures some { one.now ≡ other.now → result ≡ 0 }
{
    let mut all = 0;
    for place in 0..one.len() {
        all |= one[place] ^ other[place];
    }
    all
}
