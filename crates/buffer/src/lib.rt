// Octets in and out at a place. Past the end of the output nothing is written, and the place stays.
#![tactic(auto)]

ghost use Rattle.std.specs.Prelude.{◌<◌, ◌≤◌};

// The two-octet number at `at`, high octet first.
pub fn number2(s: &[u8], at: usize) -> usize
    ensures { result < 65536 }
{
    let behind = octets::from(s, at);
    usize::from(u16::from_be_bytes([octets::octet(behind, 0), octets::octet(behind, 1)]))
}

// The end of a part of `room` octets from `at`, or of what is there where that is less. The caller has found `at` to
// be inside, hence the `requires`.
pub fn part_end(all: usize, at: usize, room: usize) -> usize
    requires { at ≤ all }
    ensures { (at ≤ result) × (result ≤ all) }
{
    at + room.min(all - at)
}

// A lent output, and how many octets of it are written.
#[derive(Drop)]
pub struct Writer<'a> {
    out: &'a mut [u8],
    at: usize,
}

impl<'a> Writer<'a> {
    pub fn new(out: &'a mut [u8]) -> Writer<'a> {
        Writer { out: out, at: 0 }
    }

    // How many octets are written.
    pub fn at(&self) -> usize {
        self.at
    }

    pub fn is_full(&self) -> bool {
        self.out.len() <= self.at
    }

    // One octet.
    pub fn put(&mut self, x: u8) {
        let at = self.at;
        let out = &mut *self.out;
        if at < out.len() {
            out[at] = x;
            self.at = at + 1;
        }
    }

    pub fn put_all(&mut self, s: &[u8]) {
        for x in s {
            self.put(*x);
        }
    }

    // The lower two octets of a number, high octet first.
    pub fn put2(&mut self, n: usize) {
        self.put_all(&[(n / 256 % 256) as u8, (n % 256) as u8]);
    }

    // A number, high octet first.
    pub fn put4(&mut self, n: u32) {
        self.put_all(&n.to_be_bytes());
    }

    // The next `room` octets as they are, or what is left where that is less, count as written, and are lent.
    pub fn lend(&mut self, room: usize) -> &mut [u8] {
        let from = self.at.min(self.out.len());
        let end = part_end(self.out.len(), from, room);
        self.at = end;
        &mut self.out[from..end]
    }
}
