// Two ends of a cable: one round between two ports over lent buffers.
#![tactic(auto)]

ghost use Rattle.std.specs.Prelude.{◌≡◌, ◌&&◌};
ghost use Rattle.port.specs.Settled.{settled};
ghost use Rattle.rounds.specs.Round.{Rounded};
ghost use Rattle.rounds.specs.RoundLaws.{received};

use port::{Event, Notices, Port, Written};

// Two ports after a round, and what each raised in it.
#[derive(Clone, Copy)]
pub struct Pair {
    pub left: Port,
    pub right: Port,
    pub of_left: Notices,
    pub of_right: Notices,
}

// Gives a port the frame that the other end wrote into `out`; where that write was refused, nothing happens.
#[tactic(auto, unfolding(crate::specs::RoundLaws::received))]
fn deliver(p: Port, w: Written, out: &[u8]) -> Event
    ensures { result ≡ received p w out.now }
{
    match w {
        Ok(n) => handling::handle(p, octets::first(out, n)),
        Err(_) => events::unchanged(p),
    }
}

// One round (01, Rounds of two ends): each end writes into its lent output, then each frame is given to the other end. An
// end whose write is refused has nothing to give.
pub fn round(l: Port, r: Port, out_l: &mut [u8], out_r: &mut [u8]) -> Pair
    ensures { Rounded l r out_l.old out_r.old result out_l.new out_r.new }
{
    let wrote_l = port::writing::write(l, out_l);
    let wrote_r = port::writing::write(r, out_r);
    let at_left = deliver(l, wrote_r, out_r);
    let at_right = deliver(r, wrote_l, out_l);
    Pair {
        left: at_left.port,
        right: at_right.port,
        of_left: at_left.notices,
        of_right: at_right.notices,
    }
}

// Whether the exchange has come to rest at both ends.
pub fn settled(l: Port, r: Port) -> bool
    ensures { result ≡ (settled l && settled r) }
{
    events::settled(l) && events::settled(r)
}
