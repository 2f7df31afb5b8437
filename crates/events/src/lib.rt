// What an event of a port gives: the notices that it raises, its answer, and whether the exchange has come to rest.
#![tactic(auto)]

ghost use Rattle.std.specs.Prelude.{◌≡◌};
ghost use Rattle.port.specs.Replies.{raised_number};
ghost use Rattle.port.specs.Settled.{unsynced, settled};
ghost use Rattle.events.specs.PortEvents.{noticed, becomes, raises, silent, refused, unchanged, event};

use feature::{Reason, State};
use notices::Kind;
use port::{Event, Notices, Port, Raised};
use tlv::{Refusal, Rejection};

// Whether the feature is advertised and not Syncd.
#[tactic(auto, unfolding(port::specs::Settled::unsynced))]
fn unsynced(x: State) -> bool
    ensures { result ≡ unsynced x }
{
    x.setting.advertise & !x.syncd
}

// Whether the exchange has come to rest at this end: a peer is seen, RcvdAckNo = SeqNo, and every advertised feature is Syncd.
pub fn settled(p: Port) -> bool
    ensures { result ≡ settled p }
{
    let waits = unsynced(p.groups) | unsynced(p.flow) | unsynced(p.applications);
    p.control.seen & (p.control.rcvd == p.control.seq) & !waits
}

// The notice that a reason gives when a feature comes to have it.
fn noticed(r: Reason) -> Raised
    ensures { result ≡ noticed r }
{
    match r {
        Reason::Absent => Some(Kind::Absent),
        Reason::Duplicate => Some(Kind::Duplicate),
        Reason::Bad => Some(Kind::Bad),
        Reason::NotCompatible => Some(Kind::NotCompatible),
        Reason::NoPeerYet
        | Reason::NotAdvertised
        | Reason::Waiting
        | Reason::Disabled
        | Reason::Agreed
        | Reason::ControlTwice => None,
    }
}

// The notice of a feature whose reason was one and is now another.
pub fn becomes(why: Reason, now: Reason) -> Raised
    ensures { result ≡ becomes why now }
{
    if why == now {
        return None;
    }
    noticed(now)
}

// What an event raises: a notice of the port, or none, and those of the features.
pub fn raise(x: Raised, before: Port, after: Port) -> Notices
    ensures { result ≡ raises x before after }
{
    Notices {
        port: x,
        groups: becomes(before.groups.outcome.reason, after.groups.outcome.reason),
        flow: becomes(before.flow.outcome.reason, after.flow.outcome.reason),
        applications: becomes(
            before.applications.outcome.reason,
            after.applications.outcome.reason,
        ),
    }
}

// The number of a notice that was raised, 0 for none.
pub fn raised_number(x: Raised) -> u8
    ensures { result ≡ raised_number x }
{
    x.map_or(0, u8::from)
}

// No notice.
pub fn silent() -> Notices
    ensures { result ≡ silent }
{
    Notices {
        port: None,
        groups: None,
        flow: None,
        applications: None,
    }
}

// A refusal changes nothing; a frame's is `admission::reject`.
pub fn refuse(why: Refusal, p: Port) -> Event
    ensures { result ≡ refused why p }
{
    Event {
        answer: Err(Rejection::from(why)),
        port: p,
        notices: silent(),
    }
}

// An event that changes nothing at all.
pub fn unchanged(p: Port) -> Event
    ensures { result ≡ unchanged p }
{
    Event {
        answer: Ok(false),
        port: p,
        notices: silent(),
    }
}

// An event that leads from one port to another and raises a notice of the port, or none.
pub fn conclude(x: Raised, before: Port, after: Port) -> Event
    ensures { result ≡ event x before after }
{
    Event {
        answer: Ok(port::writing::asks(before, after)),
        port: after,
        notices: raise(x, before, after),
    }
}
