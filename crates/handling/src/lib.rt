// Handling a frame (01, Handling a frame). What is small is decided first; the next port is then made of it at once, since a port
// is long to copy.
#![tactic(auto)]

ghost use Rattle.std.specs.Prelude.{◌≡◌, true, ◌+◌, ◌≤◌, length};
ghost use Rattle.std.specs.Option.{is_some};
ghost use Rattle.contents.specs.Contents.{value_of};
ghost use Rattle.reading.specs.Promises.{Inside};
ghost use Rattle.turn.specs.TurnLaws.{peer_parameters_after};
ghost use Rattle.parameters.specs.declared.Feature.{Feature};
ghost use Rattle.parameters.specs.declared.Feature.TheVariants.{Groups, Flow, Applications};
ghost use Rattle.port.specs.Parts.{release, running};
ghost use Rattle.events.specs.PortEvents.{becomes};
ghost use Rattle.admission.specs.AdmissionLaws.{Admits};
ghost use Rattle.handling.specs.Handling.{handled};
ghost use Rattle.handling.specs.HandlingLaws.{after_in, change_of, unreleased, waits_by};

use admission::Heard;
use contents::{Contents, Found};
use feature::State;
use notices::Kind;
use parameters::{Feature, Parameters};
use port::{Control, Event, Notices, Port, Raised};
use turn::{Course, Turn};

// What a frame changes in a port, but for the parameters held of the peer.
#[derive(Clone, Copy)]
struct Change {
    course: Course,
    wish: bool,
    releases: bool,
    control: Control,
    groups: Turn,
    flow: Turn,
    applications: Turn,
    notices: Notices,
}

// One of the three features, as a type.
trait Which {
    ghost FEATURE: { Feature };

    const FEATURE: Feature;
}

struct OfGroups;

impl Which for OfGroups {
    ghost FEATURE = { Groups };

    const FEATURE: Feature = Feature::Groups;
}

struct OfFlow;

impl Which for OfFlow {
    ghost FEATURE = { Flow };

    const FEATURE: Feature = Feature::Flow;
}

struct OfApplications;

impl Which for OfApplications {
    ghost FEATURE = { Applications };

    const FEATURE: Feature = Feature::Applications;
}

// Steps 1 to 5 for one feature. It is made for each feature anew, with one caller: it is inlined there, with what it calls, and no
// state is copied for a call.
fn turn_of<F: Which>(x: &State, h: Heard, seq: u32, s: &[u8], found: Found) -> Turn
    requires { found.start + found.length ≤ length s.now }
    ensures { result ≡ after_in F.FEATURE x.now h seq s.now found }
{
    let value = admission::part(s, found);
    let d = feature::decide(
        F::FEATURE,
        x.max,
        &x.setting,
        x.outcome.oper,
        found.count,
        value,
    );
    turn::handle(
        F::FEATURE,
        x,
        h.course,
        h.control.rcvd,
        seq,
        found.count,
        value,
        d,
    )
}

// Whether the feature waits for an acknowledgement.
fn waits(t: Turn) -> bool
    ensures { result ≡ waits_by t }
{
    !t.syncd
}

// The notice of a feature.
fn notice(x: &State, t: Turn) -> Raised
    ensures { result ≡ becomes x.now.outcome.reason t.decision.reason }
{
    events::becomes(x.outcome.reason, t.decision.reason)
}

// Decides what a frame that is accepted changes: `admit` says that the port runs and that the parts lie inside. A release comes with
// another SeqNo, so that the control tells whether the octets to be written differ.
fn decide(p: &Port, s: &[u8], c: Contents) -> Change
    requires { Inside s.now c × (running p.now ≡ true) }
    ensures { result ≡ change_of s.now c p.now }
{
    let old = p.control;
    let h = admission::hear(s, c, old);
    let a = turn_of::<OfApplications>(&p.applications, h, old.seq, s, c.applications);
    let g = turn_of::<OfGroups>(&p.groups, h, old.seq, s, c.groups);
    let w = turn_of::<OfFlow>(&p.flow, h, old.seq, s, c.flow);
    let up = sending::raises_seq(h.control, waits(g) | waits(w) | waits(a));
    let control = sending::count(h.control, up);
    let same = port::writing::same_control(old, control);
    let x = admission::newly_marked(Kind::DuplicateControl, old.duplicate, control.duplicate);
    Change {
        course: h.course,
        wish: !same,
        releases: up,
        control,
        groups: g,
        flow: w,
        applications: a,
        notices: Notices {
            port: x,
            groups: notice(&p.groups, g),
            flow: notice(&p.flow, w),
            applications: notice(&p.applications, a),
        },
    }
}

// The parameters that are held of the peer after a frame.
fn peer_parameters(
    f: Feature,
    x: &State,
    course: Course,
    t: Turn,
    s: &[u8],
    found: Found,
) -> Parameters
    requires { found.start + found.length ≤ length s.now }
    ensures { result ≡ peer_parameters_after course f (value_of s.now found) (is_some t.decision.peer) x.now }
{
    turn::peer_parameters_after(
        f,
        x,
        course,
        t.decision.peer.is_some(),
        admission::part(s, found),
    )
}

// The port with all features released (02, E5).
fn release(p: Port) -> Port
    ensures { result ≡ release p }
{
    let mut next = p;
    next.released = sending::presents(p.groups, p.flow, p.applications);
    next
}

// The port after a frame that is accepted, by what `decide` says that it changes, before anything is released.
fn apply(p: &Port, k: Change, s: &[u8], c: Contents) -> Port
    requires { Inside s.now c × (k ≡ change_of s.now c p.now) }
    ensures { result ≡ unreleased s.now c p.now }
{
    let course = k.course;
    let z = peer_parameters(
        Feature::Applications,
        &p.applications,
        course,
        k.applications,
        s,
        c.applications,
    );
    let y = peer_parameters(Feature::Flow, &p.flow, course, k.flow, s, c.flow);
    let x = peer_parameters(Feature::Groups, &p.groups, course, k.groups, s, c.groups);
    let mut next = *p;
    next.control = k.control;
    turn::renew(&mut next.groups, k.groups, x);
    turn::renew(&mut next.flow, k.flow, y);
    turn::renew(&mut next.applications, k.applications, z);
    next
}

// What a frame does of which `admit` says that it is accepted. A caller that has a refusal of its own calls `admit` and this, and
// not `handle`: an event that comes on several ways is copied once more behind them. The `requires` is what `admit` ensures.
pub fn accept(p: Port, s: &[u8], c: Contents) -> Event
    requires { Admits p s.now (Ok c) }
    ensures { result ≡ handled p s.now }
{
    accept_at(&p, s, c)
}

// The same of a port that is lent: by value it would be copied once more.
pub fn accept_at(p: &Port, s: &[u8], c: Contents) -> Event
    requires { Admits p.now s.now (Ok c) }
    ensures { result ≡ handled p.now s.now }
{
    let change = decide(p, s, c);
    let next = apply(p, change, s, c);
    if change.releases {
        return Event {
            answer: Ok(change.wish),
            port: release(next),
            notices: change.notices,
        };
    }
    Event {
        answer: Ok(change.wish),
        port: next,
        notices: change.notices,
    }
}

// Handles a frame that arrived (01, Handling a frame).
pub fn handle(p: Port, s: &[u8]) -> Event
    ensures { result ≡ handled p s.now }
{
    match admission::admit(p, s) {
        Ok(contents) => accept_at(&p, s, contents),
        Err(r) => admission::reject(r, p),
    }
}
