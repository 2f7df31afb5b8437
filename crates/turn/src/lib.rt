// What a frame makes of a feature: steps 1 to 5 of handling.
#![tactic(auto)]

ghost use Rattle.std.specs.Prelude.{◌≡◌, false, ◌&&◌, ◌||◌};
ghost use Rattle.octets.specs.Words.{◌is◌};
ghost use Rattle.turn.specs.TurnLaws.{after, decided_at, peer_parameters_after, keeps_by, kept_at, renewed, turn_of, weighed};
ghost use Rattle.machine.specs.State.{marked, next};
ghost use Rattle.turn.specs.Turn.{control_twice, acknowledged, received};

use feature::{Decision, Reason, State};
use parameters::{Feature, Parameters};

// Which way a frame takes through steps 1 to 4: its control came twice, it runs at another version, or its features are handled:
// three ways, where an Option or a Result has two.
#[derive(Clone, Copy)]
pub enum Course {
    Twice,
    OtherVersion,
    Exchange,
}

// What a frame makes of a feature, but for the peer's parameters.
#[derive(Clone, Copy)]
pub struct Turn {
    pub decision: Decision,
    pub syncd: bool,
    pub sequence: u32,
}

// The feature stays as it is, but for Syncd.
fn kept(x: &State, syncd: bool) -> Turn
    ensures { result ≡ kept_at x.now syncd }
{
    Turn {
        decision: feature::decision_of(&x.outcome),
        syncd,
        sequence: x.sequence,
    }
}

// Step 5 of handling: a feature whose sub-TLV changed waits for a new acknowledgement. Of what is written a frame changes only
// Oper and Error.
fn weigh(x: &State, d: Decision, syncd: bool, seq: u32) -> Turn
    ensures { result ≡ weighed x.now d syncd seq }
{
    let o = &x.outcome;
    if o.oper != d.oper {
        return anew(d, seq);
    }
    if o.error != d.error {
        return anew(d, seq);
    }
    Turn {
        decision: d,
        syncd,
        sequence: x.sequence,
    }
}

fn anew(d: Decision, seq: u32) -> Turn
    ensures { result ≡ record { decision = d; syncd = false; sequence = next seq } }
{
    let up = seq.wrapping_add(1);
    Turn {
        decision: d,
        syncd: false,
        sequence: up,
    }
}

// Step 1 of handling: the frame had two or more controls.
fn twice(f: Feature, x: &State, seq: u32) -> Turn
    ensures { result ≡ turn_of (marked f seq x.now (control_twice x.now)) }
{
    let s = &x.setting;
    let o = &x.outcome;
    if !s.advertise {
        return kept(x, x.syncd);
    }
    weigh(
        x,
        feature::without_peer(Reason::ControlTwice, o.oper, true),
        x.syncd,
        seq,
    )
}

// Step 3 of handling: whether the feature is Syncd, by what RcvdAckNo and SeqNo acknowledge.
fn acknowledged(x: &State, rcvd: u32, seq: u32) -> bool
    ensures { result ≡ (x.now.syncd || (x.now.sequence is rcvd && x.now.sequence is seq)) }
{
    x.syncd | ((x.sequence == rcvd) & (x.sequence == seq))
}

// Steps 3 and 4 of handling, with `d` of the outcome rules on what the frame had of the feature; and step 5.
fn receive(f: Feature, x: &State, rcvd: u32, seq: u32, count: u8, value: &[u8], d: Decision) -> Turn
    requires { d ≡ decided_at f x.now count value.now }
    ensures { result ≡ turn_of (marked f seq x.now (received f (record { count = count; value = value.now }) (acknowledged rcvd seq x.now))) }
{
    let s = &x.setting;
    let syncd = acknowledged(x, rcvd, seq);
    if !s.advertise {
        return kept(x, syncd);
    }
    weigh(x, d, syncd, seq)
}

// Steps 1 to 5 for one feature. `d` is what the outcome rules decide: it is decided before, whatever the course, so that this is
// short enough to be inlined for each feature; hence the `requires`, for `handling` alone.
pub fn handle(
    f: Feature,
    x: &State,
    course: Course,
    rcvd: u32,
    seq: u32,
    count: u8,
    value: &[u8],
    d: Decision,
) -> Turn
    requires { d ≡ decided_at f x.now count value.now }
    ensures { result ≡ turn_of (after course f (record { count = count; value = value.now }) rcvd seq x.now) }
{
    match course {
        Course::Twice => twice(f, x, seq),
        Course::OtherVersion => kept(x, x.syncd),
        Course::Exchange => receive(f, x, rcvd, seq, count, value, d),
    }
}

// Whether a frame leaves what is held of the peer.
#[tactic(auto, unfolding(crate::specs::TurnLaws::keeps_by))]
fn keeps(x: &State, course: Course) -> bool
    ensures { result ≡ keeps_by course x.now }
{
    let s = &x.setting;
    !s.advertise || matches!(course, Course::OtherVersion)
}

// The parameters held of the peer after a frame: `held` says whether there is one.
pub fn peer_parameters_after(
    f: Feature,
    x: &State,
    course: Course,
    held: bool,
    value: &[u8],
) -> Parameters
    ensures { result ≡ peer_parameters_after course f value.now held x.now }
{
    if keeps(x, course) {
        return feature::held_parameters(&x.outcome.peer);
    }
    if held {
        return config::store(f, octets::from(value, 4));
    }
    feature::no_parameters()
}

// The state after a frame.
pub fn renew(x: &mut State, t: Turn, p: Parameters)
    ensures { x.new ≡ renewed x.old t p }
{
    x.outcome = feature::outcome_of(t.decision, p);
    x.syncd = t.syncd;
    x.sequence = t.sequence;
}
