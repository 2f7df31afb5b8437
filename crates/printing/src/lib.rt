// Text put into an output, or on a page: words, numbers and octets. Text that finds no room is left out, so printing cannot fail.
#![tactic(auto)]

ghost use Rattle.std.specs.Prelude.{◌≡◌, ℕ, ◌+◌, ◌≤◌, ◌%◌, List, [], length, take};
ghost use Rattle.printing.specs.Put.{Put, Numbered, put, NumberedPage, glyph, hex_text};

use std::fmt;
use std::marker::Model;

// Puts a text at a place of an output, and gives the place behind it.
pub fn text(out: &mut [u8], at: usize, s: &[u8]) -> usize
    ensures { Put out.old at s.now result out.new }
{
    let room = out.len();
    if room < at {
        return at;
    }
    if room - at < s.len() {
        return at;
    }
    let end = at + s.len();
    out[at..end].copy_from_slice(s);
    end
}

// Puts a number in decimal.
pub fn number(out: &mut [u8], at: usize, n: u64) -> usize
    ensures { Numbered out.old at n result out.new }
{
    let mut digits = [0; 20];
    let k = io::decimal(n, &mut digits);
    text(out, at, &digits[..k])
}

// The hex digit of the lower half of an octet.
fn digit(x: u8) -> u8
    ensures { result ≡ glyph (x % 16) }
{
    let d = x % 16;
    if d < 10 {
        return 48 + d;
    }
    87 + d
}

// Puts octets as pairs of hex digits.
pub fn hex(out: &mut [u8], at: usize, s: &[u8]) -> usize
    ensures { Put out.old at (hex_text s.now) result out.new }
{
    let room = out.len();
    if room < at {
        return at;
    }
    if (room - at) / 2 < s.len() {
        return at;
    }
    for (i, x) in s.iter().enumerate() {
        out[at + 2 * i] = digit(*x / 16);
        out[at + 2 * i + 1] = digit(*x);
    }
    at + 2 * s.len()
}

// A fixed number of octets, and how many of them are put.
#[derive(Drop)]
pub struct Page<const N: usize> {
    octets: [u8; N],
    length: usize,
}

// What the programs write their output on.
pub type Output = Page<65536>;

// Clauses see what is put.
impl<const N: usize> Model for Page<N> {
    ghost Value = { List ℕ };

    ghost view = { λ p. take p.length p.octets };

    ghost invariant = { λ p. p.length ≤ N };
}

impl<const N: usize> Page<N> {
    // An empty page.
    pub fn new() -> Self
        ensures { result ≡ [] }
    {
        Page {
            octets: [0; N],
            length: 0,
        }
    }

    // What is put.
    pub fn as_slice(&self) -> &[u8]
        ensures { result.now ≡ self.now }
    {
        &self.octets[..self.length]
    }

    // How many octets are put.
    pub fn len(&self) -> usize
        ensures { result ≡ length self.now }
    {
        self.length
    }

    // For how many octets there is room.
    pub fn room(&self) -> usize
        ensures { length self.now + result ≡ N }
    {
        N - self.length
    }

    // Starts over.
    pub fn clear(&mut self)
        ensures { self.new ≡ [] }
    {
        self.length = 0;
    }

    // Puts a text.
    pub fn text(&mut self, s: &[u8])
        ensures { self.new ≡ put N self.old s.now }
    {
        self.length = text(&mut self.octets, self.length, s);
    }

    // Puts a number in decimal.
    pub fn number(&mut self, n: u64)
        ensures { NumberedPage N self.old n self.new }
    {
        self.length = number(&mut self.octets, self.length, n);
    }

    // Puts a text and a number behind it.
    pub fn field(&mut self, name: &[u8], n: u64)
        ensures { NumberedPage N (put N self.old name.now) n self.new }
    {
        self.text(name);
        self.number(n);
    }

    // Puts octets as pairs of hex digits.
    pub fn hex(&mut self, s: &[u8])
        ensures { self.new ≡ put N self.old (hex_text s.now) }
    {
        self.length = hex(&mut self.octets, self.length, s);
    }

    // Puts what a value prints. `write!` and `writeln!` on a page call this, and so give no result that could be an error. Nothing is
    // promised of what is put: a value's Display may give an error behind a part of its text. So numbers go through `number` and
    // `field`, which promise their digits.
    pub fn write_fmt<D: fmt::Display + Drop>(&mut self, x: D) {
        let _ = fmt::Write::write(self, x);
    }
}

impl<const N: usize> fmt::Write for Page<N> {
    ghost write_str_gives = { λ before s after. after ≡ put N before s };

    fn write_str(&mut self, s: &str) -> fmt::Result {
        self.text(s.as_bytes());
        Ok(())
    }
}
