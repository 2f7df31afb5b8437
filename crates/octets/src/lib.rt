// Octets: one at a place; big-endian numbers; equality of two runs; the first ones and those behind.
#![tactic(auto)]

ghost use Rattle.std.specs.Prelude.{◌≡◌, take, drop};
ghost use Rattle.octets.specs.Octets.{at, same};

pub mod numbers;

// The octet at `i`, and 0 past the end.
pub fn octet(s: &[u8], i: usize) -> u8
    ensures { result ≡ at s.now i }
{
    s.get(i).copied().unwrap_or(0)
}

// Whether two runs of octets are the same. All are looked at, so that many are compared at a time; `==` is a call, which took
// more than the comparison.
#[inline(always)]
pub fn same_octets(a: &[u8], b: &[u8]) -> bool
    ensures { result ≡ same a.now b.now }
{
    if a.len() != b.len() {
        return false;
    }
    let mut alike = true;
    for i in 0..a.len() {
        alike &= a[i] == b[i];
    }
    alike
}

// The first `n` octets, or all where there are fewer.
pub fn first(s: &[u8], n: usize) -> &[u8]
    ensures { result.now ≡ take n s.now }
{
    &s[..n.min(s.len())]
}

// The octets from `n` on, or none where there are fewer.
pub fn from(s: &[u8], n: usize) -> &[u8]
    ensures { result.now ≡ drop n s.now }
{
    &s[n.min(s.len())..]
}
