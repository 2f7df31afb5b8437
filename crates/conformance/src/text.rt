// The verdict's octets.
ghost use Rattle.std.specs.Prelude.{◌≡◌};
ghost use Rattle.conformance.specs.Text.{Says};

use judgement::Judged;

// No verdict's line is longer.
const ROOM: usize = 64;

// Puts the verdict's line in front of the output, and answers how many octets it has; 0 where the output has fewer than 64, which
// may be too few.
pub fn verdict(t: Judged, out: &mut [u8]) -> usize
    ensures { Says t out.old result out.new }
{
    if out.len() < ROOM {
        return 0;
    }
    let c = t.course;
    match t.rejected {
        Some(r) => ruling::put_rejected(out, numerals::more(c.lines), r.place),
        None => ruling::put_accepted(out, c.sent),
    }
}
