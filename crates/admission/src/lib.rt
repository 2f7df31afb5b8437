// What a port takes of a frame that arrived, steps 1 to 3 for its control, and what a refused frame does (01, Handling a frame).
#![tactic(auto)]

ghost use Rattle.std.specs.Prelude.{◌≡◌, ◌+◌, ◌≤◌, length};
ghost use Rattle.contents.specs.Contents.{value_of};
ghost use Rattle.reading.specs.Promises.{Inside};
ghost use Rattle.admission.specs.Admission.{newly_marked, breaks, rejected};
ghost use Rattle.admission.specs.AdmissionLaws.{Admits, heard_of};

use contents::{Contents, Found, Reading};
use notices::Kind;
use port::{Control, Event, Notices, Port, Raised};
use tlv::{Refusal, Rejection};
use turn::Course;

// Reads a frame that arrived, if the port takes it.
pub fn admit(p: Port, s: &[u8]) -> Reading
    ensures { Admits p s.now result }
{
    if !port::writing::running(p) {
        return Err(Rejection::from(Refusal::NotRunning));
    }
    if p.several {
        return Err(Rejection::from(Refusal::SeveralNeighbours));
    }
    reading::read_for(p.revision, s)
}

// A sub-TLV's value, as a part of the frame. Here and in `hear` the `requires` is what `admit` ensures of a frame that is accepted.
pub fn part(s: &[u8], found: Found) -> &[u8]
    requires { found.start + found.length ≤ length s.now }
    ensures { result.now ≡ value_of s.now found }
{
    &s[found.start..found.start + found.length]
}

// The way that the frame takes, and the control after steps 1 to 3.
#[derive(Clone, Copy)]
pub struct Heard {
    pub course: Course,
    pub control: Control,
}

#[inline(always)]
pub fn hear(s: &[u8], c: Contents, k: Control) -> Heard
    requires { Inside s.now c }
    ensures { result ≡ heard_of s.now c k }
{
    let found = c.control;
    let mut next = k;
    next.seen = true;
    next.broken = false;
    if 1 < found.count {
        next.duplicate = true;
        return Heard {
            course: Course::Twice,
            control: next,
        };
    }
    let value = part(s, found);
    let oper = octets::octet(value, 0);
    let low = k.max.min(octets::octet(value, 1));
    next.oper = low;
    next.duplicate = false;
    if oper != low {
        return Heard {
            course: Course::OtherVersion,
            control: next,
        };
    }
    next.ack = octets::numbers::number4(value, 2);
    next.rcvd = octets::numbers::number4(value, 6);
    Heard {
        course: Course::Exchange,
        control: next,
    }
}

// The notice of a mark that was off before.
pub fn newly_marked(kind: Kind, before: bool, after: bool) -> Raised
    ensures { result ≡ newly_marked kind before after }
{
    (!before & after).then_some(kind)
}

// Whether a refusal says that the frame's control is broken.
#[tactic(auto, unfolding(crate::specs::Admission::breaks, tlv::specs::Refusals::refusal_number))]
fn breaks(why: Refusal) -> bool
    ensures { result ≡ breaks why }
{
    matches!(why, Refusal::ControlLength | Refusal::ControlVersion)
}

// A frame that is refused changes nothing but the mark of a broken control and its notice (02, E1); 3 to 8 come with the reader's
// place.
pub fn reject(r: Rejection, p: Port) -> Event
    ensures { result ≡ rejected r.why r.place p }
{
    let k = p.control;
    let broken = breaks(r.why);
    let x = newly_marked(Kind::ControlError, k.broken, broken);
    let mut next = p;
    next.control.broken = broken;
    Event {
        answer: Err(r),
        port: next,
        notices: Notices {
            port: x,
            groups: None,
            flow: None,
            applications: None,
        },
    }
}
