// The send rule and fresh states: what SeqNo counts, and what is released with it.
#![tactic(auto)]

ghost use Rattle.std.specs.Prelude.{◌≡◌, ◌&&◌};
ghost use Rattle.machine.specs.State.{fresh, stopped};
ghost use Rattle.port.specs.Parts.{feature_of, with_features, three, presents};
ghost use Rattle.octets.specs.Words.{◌is◌};
ghost use Rattle.sending.specs.SendingLaws.{counted};
ghost use Rattle.sending.specs.Sending.{unacknowledged, sent, fresh_control, fresh_parts, fresh_port};

use feature::{Release, State};
use parameters::Each;
use port::{Control, Port};

// Whether the feature waits for an acknowledgement: one that is withdrawn does, too (02, E5).
#[tactic(auto, unfolding(crate::specs::Sending::unacknowledged))]
pub fn waits(x: State) -> bool
    ensures { result ≡ unacknowledged x }
{
    !x.syncd
}

// Whether SeqNo goes up, by the send rule (01, Port events): `waiting` says that a feature waits for an acknowledgement.
pub fn raises_seq(k: Control, waiting: bool) -> bool
    ensures { result ≡ (waiting && k.rcvd is k.seq) }
{
    waiting & (k.rcvd == k.seq)
}

// The control with its SeqNo raised, if it is to be.
pub fn count(k: Control, up: bool) -> Control
    ensures { result ≡ counted up k }
{
    if !up {
        return k;
    }
    Control {
        seq: k.seq.wrapping_add(1),
        ..k
    }
}

// What a release would write of three features at present (02, E5).
pub fn presents(g: State, w: State, a: State) -> Each<Release>
    ensures { result ≡ presents g w a }
{
    Each {
        groups: machine::present(g),
        flow: machine::present(w),
        applications: machine::present(a),
    }
}

// The send rule: where SeqNo goes up, all features are released.
pub fn send(p: Port) -> Port
    ensures { result ≡ sent p }
{
    let k = p.control;
    let g = waits(p.groups);
    let w = waits(p.flow);
    let a = waits(p.applications);
    let up = raises_seq(k, g | w | a);
    if !up {
        return p;
    }
    let mut next = p;
    next.control = count(k, up);
    next.released = presents(p.groups, p.flow, p.applications);
    next
}

// The control of a fresh state.
pub fn fresh_control(max: u8) -> Control
    ensures { result ≡ fresh_control max }
{
    Control {
        max,
        oper: max,
        seq: 0,
        ack: 0,
        rcvd: 0,
        seen: false,
        duplicate: false,
        broken: false,
    }
}

fn fresh_feature(x: State) -> State
    ensures { result ≡ fresh x.max x.setting }
{
    machine::fresh_at(1, x.max, x.setting)
}

pub fn with_features(p: Port, g: State, w: State, a: State) -> Port
    ensures { result ≡ with_features p (three g w a) }
{
    let mut next = p;
    next.groups = g;
    next.flow = w;
    next.applications = a;
    next
}

fn fresh_parts(p: Port) -> Port
    ensures { result ≡ fresh_parts p }
{
    let mut next = with_features(
        p,
        fresh_feature(p.groups),
        fresh_feature(p.flow),
        fresh_feature(p.applications),
    );
    next.control = fresh_control(p.control.max);
    next.released = presents(next.groups, next.flow, next.applications);
    next
}

fn stop(p: Port) -> Port
    ensures { result ≡ with_features p (λ f. stopped (feature_of p f)) }
{
    with_features(
        p,
        machine::stopped(p.groups),
        machine::stopped(p.flow),
        machine::stopped(p.applications),
    )
}

// The fresh state of the port's settings (01, Port events).
pub fn fresh(p: Port) -> Port
    ensures { result ≡ fresh_port p }
{
    let parts = fresh_parts(p);
    if port::writing::running(p) {
        return send(parts);
    }
    stop(parts)
}
