// Words, numbers and octets of a line.
#![tactic(auto)]

ghost use Rattle.std.specs.Prelude.{◌≡◌, ◌+◌, ◌*◌, ◌/◌, ◌%◌, ◌<◌, ◌≤◌, ◌==◌, not, min, [], position, length, drop};
ghost use Rattle.std.specs.Bool.{beq};
ghost use Rattle.words.specs.Text.{words, first, number, nibble, hex_digits, pair_at, octets_of, is_octets, held, pending};
ghost use Rattle.words.specs.StepsLaws.{run, trimmed, first_word, rest, Nibbles};

const SPACE: u8 = 32;

// No number has more digits.
const DIGITS: usize = 5;

// A longer line cannot be read.
pub const LONGEST: usize = 1100;

// Octets in memory of a fixed size: the first `n` count. Those past them are zero in each that `held` in specs/ makes: so say the contracts.
#[derive(Clone, Copy, Debug, PartialEq, Eq)]
pub struct Held<const N: usize> {
    pub n: usize,
    pub octets: [u8; N],
}

impl<const N: usize> Held<N> {
    // No octets.
    pub fn none() -> Self
        ensures { result ≡ held N [] }
    {
        Held {
            n: 0,
            octets: [0; N],
        }
    }

    // The octets that count.
    pub fn as_slice(&self) -> &[u8]
        ensures held { result.now ≡ pending self.now }
        ensures within { length result.now ≤ N }
    {
        octets::first(&self.octets, self.n)
    }
}

// The low octet of a number.
pub fn low(n: usize) -> u8
    ensures { result ≡ n % 256 }
{
    (n % 256) as u8
}

// Where the spaces in front, or the octets that are none, end.
fn run_end(s: &[u8], spaces: bool) -> Option<usize>
    ensures { result ≡ position (λ c. not (beq (c == 32) spaces)) s.now }
{
    s.iter().position(|c| (*c == SPACE) != spaces)
}

// How many octets in front are spaces, or are none.
fn run(s: &[u8], spaces: bool) -> usize
    ensures { result ≡ run spaces s.now }
{
    run_end(s, spaces).unwrap_or(s.len())
}

// What stands behind the spaces in front.
pub fn trim(s: &[u8]) -> &[u8]
    ensures { result.now ≡ trimmed s.now }
{
    octets::from(s, run(s, true))
}

// The first word; none where there are only spaces.
pub fn word(s: &[u8]) -> &[u8]
    ensures { result.now ≡ first_word s.now }
{
    let t = trim(s);
    octets::first(t, run(t, false))
}

// What stands behind the first word.
pub fn behind(s: &[u8]) -> &[u8]
    ensures { result.now ≡ rest s.now }
{
    let t = trim(s);
    octets::from(t, run(t, false))
}

// The word behind the first `n`.
pub fn word_at(s: &[u8], n: usize) -> &[u8]
    ensures { result.now ≡ first (drop n (words s.now)) }
{
    let mut left = s;
    for _ in 0..n {
        left = behind(left);
    }
    word(left)
}

// A decimal number of 1 to 5 digits, at most a limit.
pub fn read_number(w: &[u8], limit: u16) -> Option<usize>
    ensures { result ≡ number limit w.now }
{
    if w.is_empty() || DIGITS < w.len() {
        return None;
    }
    let mut n = 0;
    for c in w {
        if !c.is_ascii_digit() {
            return None;
        }
        n = n * 10 + usize::from(*c - b'0');
        if usize::from(limit) < n {
            return None;
        }
    }
    Some(n)
}

// The value of a lower-case hex digit, and 16 for any other octet.
fn nibble(c: u8) -> u8
    ensures { result ≡ nibble c }
{
    match c {
        b'0'..=b'9' => c - b'0',
        b'a'..=b'f' => c - b'a' + 10,
        _ => 16,
    }
}

// Whether all are hex digits. The loop has one way through, so that it is compiled to many digits at a time.
pub fn hex_digits(w: &[u8]) -> bool
    ensures { result ≡ hex_digits w.now }
{
    let mut good = true;
    for c in w {
        good &= nibble(*c) < 16;
    }
    good
}

// Octet `i` of a run of pairs of hex digits, of as many as a line can hold, so that its place cannot wrap: hence the `requires`.
pub fn pair_at(w: &[u8], i: usize) -> u8
    requires { i < 1024 }
    ensures { result ≡ pair_at w.now i }
{
    let high = nibble(octets::octet(w, 2 * i));
    let low = nibble(octets::octet(w, 2 * i + 1));
    high % 16 * 16 + low % 16
}

// Whether a text is at most `most` pairs of hex digits, and nothing else.
pub fn is_octets(w: &[u8], most: usize) -> bool
    ensures { result ≡ is_octets most w.now }
{
    w.len() % 2 == 0 && w.len() / 2 <= most && hex_digits(w)
}

// How many octets a text spells, of those that a line can hold.
fn octets_count(w: &[u8]) -> usize
    ensures { result ≡ min (length w.now / 2) 513 }
{
    (w.len() / 2).min(513)
}

// The value of each of the digits that a line can hold.
fn nibbles(w: &[u8]) -> [u8; 1026]
    ensures { Nibbles w.now result }
{
    let mut out = [0; 1026];
    for i in 0..2 * octets_count(w) {
        out[i] = nibble(w[i]) % 16;
    }
    out
}

// Two values as one octet, by a product that moves the high one beside the low: so many pairs are compiled to one step.
fn joined(high: u8, low: u8) -> u8
    ensures { result ≡ (high * 16 + low) % 256 }
{
    let both = usize::from(low) * 256 + usize::from(high);
    (both * 4097 / 256 % 256) as u8
}

// The octets that pairs of hex digits spell.
pub fn octets_of(w: &[u8]) -> Held<513>
    ensures { result ≡ held 513 (octets_of w.now) }
{
    let n = octets_count(w);
    let v = nibbles(w);
    let mut octets = [0; 513];
    for i in 0..n {
        octets[i] = joined(v[2 * i], v[2 * i + 1]);
    }
    Held { n, octets }
}

// The frame of a line.
pub fn frame_of(line: &[u8]) -> Held<513>
    ensures { result ≡ held 513 (octets_of (drop 2 line.now)) }
{
    octets_of(octets::from(line, 2))
}
