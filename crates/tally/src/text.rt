// The report's octets.
ghost use Rattle.std.specs.Prelude.{◌≡◌, ◌+◌, ◌*◌, ◌≤◌, length};
ghost use Rattle.numerals.specs.NumeralLaws.{Laid};
ghost use Rattle.tally.specs.Steps.{row, changes_text, settled_text, Reports};
ghost use Rattle.tally.specs.TextLaws.{behind};

use counters::Changes;
use counting::Tally;

const SPACE: u8 = 32;

const LINE_FEED: u8 = 10;

// No report is longer.
const ROOM: usize = 1280;

// What stands behind a number: a space before others, and a line feed at the end.
fn behind(others: bool) -> u8
    ensures { result ≡ behind others }
{
    if others { SPACE } else { LINE_FEED }
}

// Puts a line of numbers.
fn put_row<const N: usize>(out: &mut [u8], at: usize, numbers: &[u64; N]) -> usize
    requires { at + 21 * N ≤ length out.old }
    ensures { Laid out.old at (row numbers.now) (21 * N) result out.new }
{
    let mut place = at;
    for (i, n) in numbers.iter().enumerate() {
        let end = behind(i + 1 < N);
        place = numerals::put_number(out, place, *n, end);
    }
    place
}

// Puts the lines of an end's three features.
fn put_changes(out: &mut [u8], at: usize, c: &Changes) -> usize
    requires { at + 504 ≤ length out.old }
    ensures { Laid out.old at (changes_text c.now) 504 result out.new }
{
    let a = put_row(out, at, &c.groups);
    let b = put_row(out, a, &c.flow);
    put_row(out, b, &c.applications)
}

// Puts the last line.
fn put_settled(out: &mut [u8], at: usize, settled: bool, frames: u64) -> usize
    requires { at + 29 ≤ length out.old }
    ensures { Laid out.old at (settled_text settled frames) 29 result out.new }
{
    if settled {
        octets::numbers::put(out, at, b"settled ");
        return numerals::put_number(out, at + 8, frames, LINE_FEED);
    }
    octets::numbers::put(out, at, b"not settled\n");
    at + 12
}

// Puts the report on what was counted in front of the output, and answers how many octets it has; 0 where the output has fewer
// than 1280 octets, which may be too few.
pub fn report(t: Tally, out: &mut [u8]) -> usize
    ensures { Reports t out.old result out.new }
{
    if out.len() < ROOM {
        return 0;
    }
    let a = put_row(out, 0, &[t.from_a, t.from_b, t.others]);
    let b = put_row(out, a, &t.refusals);
    let c = put_changes(out, b, &t.of_a);
    let d = put_changes(out, c, &t.of_b);
    put_settled(out, d, t.settled, t.frames)
}
