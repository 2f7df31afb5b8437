// A capture: its lines, wherever its octets are cut into reads, and the form of a line (docs/FORMATS.md, Captures).
#![tactic(auto)]

ghost use Rattle.std.specs.Prelude.{◌≡◌, ℕ, List, [], ◌++◌, ◌+◌, ◌≤◌, length, drop, if◌then◌else◌};
ghost use Rattle.words.specs.Text.{pending};
ghost use Rattle.capture.specs.Capture.{form_of};
ghost use Rattle.capture.specs.Steps.{feed_in, Along, Before, clipped, held_of};
ghost use Rattle.capture.specs.Feeding.{ended, feed_of, fed};
ghost use Rattle.capture.specs.FeedingLaws.{Passes};

use words::Held;

const LINE_FEED: u8 = 10;

const SPACE: u8 = 32;

// The longest frame on a line, in octets.
const FRAME: usize = 513;

// What is held of a line: one octet more than the longest line that anyone reads, which is `script`'s, of 1100.
const HELD: usize = 1101;

// What a line is: a frame that A sent, a frame that B sent, or a line of any other form.
#[derive(Clone, Copy)]
pub enum Form {
    FromA,
    FromB,
    Other,
}

// The form of a line, which has no line feed.
pub fn form_of(line: &[u8]) -> Form
    ensures { result ≡ form_of line.now }
{
    if octets::octet(line, 1) != SPACE || !words::is_octets(octets::from(line, 2), FRAME) {
        return Form::Other;
    }
    match octets::octet(line, 0) {
        b'A' => Form::FromA,
        b'B' => Form::FromB,
        _ => Form::Other,
    }
}

// Whether a line feed stands among the 16 octets from `from` on. The loop has one way through, so that it is compiled to a
// few steps.
fn has_feed(s: &[u8], from: usize) -> bool
    requires { from + 16 ≤ length s.now }
    ensures { result ≡ feed_in 16 (drop from s.now) }
{
    let mut any = false;
    for i in 0..16 {
        any |= s[from + i] == LINE_FEED;
    }
    any
}

// How many octets in front are passed by, 16 at a time, without a line feed among them. A `while`, since `step_by` needs an
// invariant and a measure too, and makes the last step past the end.
fn passed(s: &[u8]) -> usize
    ensures { Along s.now result }
{
    let mut i: usize = 0;
    while 16 <= s.len() - i {
        if has_feed(s, i) {
            return i;
        }
        i += 16;
    }
    i
}

// How many octets stand before the first line feed; all where there is none.
pub fn line_length(s: &[u8]) -> usize
    ensures { Before s.now result }
{
    for i in passed(s)..s.len() {
        if s[i] == LINE_FEED {
            return i;
        }
    }
    s.len()
}

// Holds `s` behind the front of a line that has not ended. Of a line that is too long to be read the rest is not held.
pub fn hold(h: &Held<1101>, s: &[u8]) -> Held<1101>
    ensures { result ≡ held_of (clipped (pending h.now ++ s.now)) }
{
    let front = h.as_slice();
    let more = octets::first(s, HELD - front.len());
    let mut octets = [0; 1101];
    octets::numbers::put(&mut octets, 0, front);
    octets::numbers::put(&mut octets, front.len(), more);
    Held {
        n: front.len() + more.len(),
        octets,
    }
}

// One of two runs of octets.
pub fn chosen<'a>(first: bool, x: &'a [u8], y: &'a [u8]) -> &'a [u8]
    ensures { result.now ≡ (if first then x.now else y.now) }
{
    if first { x } else { y }
}

// A value that each line of an input changes.
pub trait Lines {
    ghost with_line: { Self → List ℕ → Self };

    // Takes a line, which is as it stands, without its line feed.
    fn take_line(&mut self, line: &[u8])
        ensures { self.new ≡ with_line self.old line.now };

    // What is not held of a line that is too long makes no difference.
    ghost long: { (t : Self) (w : List ℕ) → with_line t (clipped w) ≡ with_line t w };
}

// Takes the lines that end in `s`. The first of them began before `s`, and is `front` as a whole. Answers the place behind the
// last line feed.
pub fn pass_lines<'a, T: Lines>(t: &mut T, front: &'a [u8], s: &'a [u8]) -> usize
    ensures { Passes T.with_line t.old front.now s.now t.new result }
{
    let mut at: usize = 0;
    // `at` moves by a line's length: nothing is counted.
    while at < s.len() {
        let rest = octets::from(s, at);
        let n = line_length(rest);
        if rest.len() <= n {
            return at;
        }
        t.take_line(chosen(at == 0, front, octets::first(rest, n)));
        at = at + n + 1;
    }
    at
}

// Octets as they come, in reads of any length: the value of all lines that have ended, and the front of the line that has not.
#[derive(Clone, Copy)]
pub struct Feed<T> {
    pub value: T,
    pub held: Held<1101>,
}

impl<T: Lines> Feed<T> {
    // Before the first octet.
    pub fn start(value: T) -> Self
        ensures { result ≡ feed_of value (held_of []) }
    {
        Feed {
            value,
            held: Held::none(),
        }
    }

    // The next octets.
    pub fn feed(&mut self, s: &[u8])
        ensures { self.new ≡ fed T.with_line self.old s.now }
    {
        let n = line_length(s);
        let front = hold(&self.held, octets::first(s, n));
        if s.len() <= n {
            self.held = front;
            return;
        }
        let at = pass_lines(&mut self.value, front.as_slice(), s);
        self.held = hold(&Held::none(), octets::from(s, at));
    }

    // The end, where the last line may lack its line feed: the value of all lines.
    pub fn finish(mut self) -> T
        ensures { result ≡ ended T.with_line self.value self.held }
    {
        if self.held.n != 0 {
            self.feed(b"\n");
        }
        self.value
    }
}
