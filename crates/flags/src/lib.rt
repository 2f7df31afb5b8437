// Flags and peer gone: the events by which a port starts, stops and goes to the fresh state.
#![tactic(auto)]

ghost use Rattle.std.specs.Prelude.{◌≡◌};
ghost use Rattle.port.specs.Parts.{flag_of, with_flag};
ghost use Rattle.flags.specs.Flags.{flag_notice, restarts, flag_set, flagged, peer_gone};

use notices::Kind;
use port::{Event, Flag, Port, Raised};
use tlv::Refusal;

fn flag_of(p: Port, flag: Flag) -> bool
    ensures { result ≡ flag_of p flag }
{
    match flag {
        Flag::Admin => p.admin,
        Flag::Receive => p.receive,
        Flag::Transmit => p.transmit,
        Flag::Several => p.several,
    }
}

fn with_flag(p: Port, flag: Flag, on: bool) -> Port
    ensures { result ≡ with_flag p flag on }
{
    match flag {
        Flag::Admin => Port { admin: on, ..p },
        Flag::Receive => Port { receive: on, ..p },
        Flag::Transmit => Port { transmit: on, ..p },
        Flag::Several => Port { several: on, ..p },
    }
}

// The notice that a flag gives when it changes so.
#[tactic(auto, unfolding(crate::specs::Flags::flag_notice))]
fn flag_notice(flag: Flag, on: bool) -> Raised
    ensures { result ≡ flag_notice flag on }
{
    match (flag, on) {
        (Flag::Receive, false) => Some(Kind::ReceiveOff),
        (Flag::Transmit, false) => Some(Kind::TransmitOff),
        (Flag::Several, true) => Some(Kind::SeveralNeighbours),
        _ => None,
    }
}

// Whether a change of the flag leads to the fresh state.
#[tactic(auto, unfolding(crate::specs::Flags::restarts))]
fn restarts(flag: Flag, on: bool, before: Port, after: Port) -> bool
    ensures { result ≡ restarts flag on before after }
{
    match flag {
        Flag::Admin | Flag::Receive | Flag::Transmit => {
            port::writing::running(before) != port::writing::running(after)
        }
        Flag::Several => on,
    }
}

#[tactic(auto, unfolding(crate::specs::Flags::flag_set))]
fn set_flag_to(p: Port, flag: Flag, on: bool) -> Port
    ensures { result ≡ flag_set flag on p }
{
    let next = with_flag(p, flag, on);
    if restarts(flag, on, p, next) {
        return sending::fresh(next);
    }
    next
}

// Sets one flag (01, Port events).
#[tactic(auto, unfolding(crate::specs::Flags::flagged))]
pub fn set_flag(p: Port, flag: Flag, on: bool) -> Event
    ensures { result ≡ flagged flag on p }
{
    if flag_of(p, flag) == on {
        return events::unchanged(p);
    }
    events::conclude(flag_notice(flag, on), p, set_flag_to(p, flag, on))
}

// The peer is gone (01, Port events).
#[tactic(auto, unfolding(crate::specs::Flags::peer_gone))]
pub fn peer_gone(p: Port) -> Event
    ensures { result ≡ peer_gone p }
{
    if !port::writing::running(p) {
        return events::refuse(Refusal::NotRunning, p);
    }
    let gone = p.control.seen.then_some(Kind::PeerGone);
    events::conclude(gone, p, sending::fresh(p))
}
