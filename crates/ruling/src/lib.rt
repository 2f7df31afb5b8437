// The line of a verdict, put into an output.
#![tactic(auto)]

ghost use Rattle.std.specs.Prelude.{◌≡◌, ◌≤◌, length};
ghost use Rattle.numerals.specs.NumeralLaws.{Laid};
ghost use Rattle.ruling.specs.Ruling.{Accepted, Rejected, verdict_text};

const SPACE: u8 = 32;

const LINE_FEED: u8 = 10;

// The caller has seen to the room; hence the `requires`, here and below.
pub fn put_accepted(out: &mut [u8], sent: u64) -> usize
    requires { 64 ≤ length out.old }
    ensures { Laid out.old 0 (verdict_text (Accepted sent)) 30 result out.new }
{
    octets::numbers::put(out, 0, b"accepted ");
    numerals::put_number(out, 9, sent, LINE_FEED)
}

pub fn put_rejected(out: &mut [u8], line: u64, place: usize) -> usize
    requires { 64 ≤ length out.old }
    ensures { Laid out.old 0 (verdict_text (Rejected line place)) 62 result out.new }
{
    octets::numbers::put(out, 0, b"rejected line ");
    let a = numerals::put_number(out, 14, line, SPACE);
    octets::numbers::put(out, a, b"place ");
    numerals::put_number(out, a + 6, place as u64, LINE_FEED)
}
