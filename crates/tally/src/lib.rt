// A capture replayed between two ports, and counted (02, E8). Octets are fed in reads of any length.
#![tactic(auto)]

ghost use Rattle.std.specs.Prelude.{◌≡◌};
ghost use Rattle.tally.specs.Steps.{started, fed, finished, begun};

use capture::Feed;
use counting::Tally;
use port::Port;

pub mod text;

// The counts of all lines that have ended, and what is held of the line that has not.
pub type Replay = Feed<Tally>;

fn begin(a: Port, b: Port) -> Tally
    ensures { result ≡ begun a b }
{
    let of_a = counters::unchanged();
    let of_b = counters::unchanged();
    let settled_a = events::settled(a);
    let settled_b = events::settled(b);
    Tally {
        a: a,
        b: b,
        from_a: 0,
        from_b: 0,
        others: 0,
        refusals: [0; 8],
        of_a: of_a,
        of_b: of_b,
        settled: settled_a & settled_b,
        frames: 0,
    }
}

// Two ports, before the first octet of a capture.
#[tactic(auto, unfolding(crate::specs::Steps::started))]
pub fn start(a: Port, b: Port) -> Replay
    ensures { result ≡ started a b }
{
    Feed::start(begin(a, b))
}

// The next octets of a capture.
pub fn feed(r: &mut Replay, s: &[u8])
    ensures { r.new ≡ fed r.old s.now }
{
    r.feed(s);
}

// The counts at the end of a capture, whose last line may lack its line feed.
pub fn finish(r: Replay) -> Tally
    ensures { result ≡ finished r }
{
    r.finish()
}
