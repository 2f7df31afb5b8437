// What one end of a cable sent, judged by what our rules write (02, E12). Octets of its capture are fed in reads of any length.
#![tactic(auto)]

ghost use Rattle.std.specs.Prelude.{◌≡◌};
ghost use Rattle.conformance.specs.Steps.{fed, finished, started};

use capture::Feed;
use judgement::Judged;
use port::Port;

pub mod text;

// What was judged of all lines that have ended, and what is held of the line that has not.
pub type Judging = Feed<Judged>;

// A port, before the first octet of its end's capture.
#[tactic(auto, unfolding(crate::specs::Steps::started))]
pub fn start(p: Port) -> Judging
    ensures { result ≡ started p }
{
    Feed::start(judgement::unjudged(p))
}

// The next octets of a capture.
pub fn feed(r: &mut Judging, s: &[u8])
    ensures { r.new ≡ fed r.old s.now }
{
    r.feed(s);
}

// What was judged at the end of a capture, whose last line may lack its line feed.
pub fn finish(r: Judging) -> Judged
    ensures { result ≡ finished r }
{
    r.finish()
}
