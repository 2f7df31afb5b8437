// A frame that repeats what is held of the peer, as that of a settled peer does every 30 seconds, told before any port is made.
#![tactic(auto)]

ghost use Rattle.std.specs.Prelude.{◌≡◌, ◌+◌, ◌≤◌, length};
ghost use Rattle.contents.specs.Contents.{value_of};
ghost use Rattle.reading.specs.Promises.{Inside};
ghost use Rattle.parameters.specs.declared.Feature.TheVariants.{Applications};
ghost use Rattle.repeating.specs.Repeating.{none_waits, flags_are, holds_of, repeats_held, repeats_in, repeats_all, repeat_in, repeat_of};

use contents::{Contents, Found};
use feature::State;
use parameters::Feature;
use port::{Control, Port};
use turn::Course;

// What a frame does that repeats what is held of the peer: the control alone changes, and nothing is raised.
#[derive(Clone, Copy)]
pub struct Repetition {
    pub wish: bool,
    pub control: Control,
}

// Whether the flags of a sub-TLV are these.
fn same_flags(bits: u8, enable: bool, willing: bool, error: bool) -> bool
    ensures { result ≡ flags_are bits enable willing error }
{
    ((128 <= bits) == enable) & ((64 <= bits % 128) == willing) & ((32 <= bits % 64) == error)
}

// Whether `p` is whole entries of which our own are what is held: one walk, which copies none.
fn holds_own(p: &[u8], held: &[u8]) -> bool
    ensures { result ≡ holds_of Applications p.now held.now }
{
    if p.len() % 6 != 0 {
        return false;
    }
    let mut size: usize = 0;
    for e in applications::entries(p) {
        if !applications::is_ours(e) {
            continue;
        }
        if held.len() - size < 6 {
            return false;
        }
        let behind = size + 6;
        if !octets::same_octets(e, &held[size..behind]) {
            return false;
        }
        size = behind;
    }
    size == held.len()
}

// Whether what a state holds of parameters that came is what is held.
#[tactic(auto, unfolding(crate::specs::Repeating::holds_of, parameters::specs::Parameters::ours))]
fn holds(f: Feature, p: &[u8], held: &[u8]) -> bool
    ensures { result ≡ holds_of f p.now held.now }
{
    match f {
        Feature::Groups | Feature::Flow => octets::same_octets(p, held),
        Feature::Applications => holds_own(p, held),
    }
}

// Whether the value of a sub-TLV is what is held of the peer, at the version in force.
#[tactic(auto, unfolding(crate::specs::Repeating::repeats_held, crate::specs::Repeating::repeats_peer))]
fn repeats_held(f: Feature, x: &State, value: &[u8]) -> bool
    ensures { result ≡ repeats_held f x.now value.now }
{
    let oper = x.outcome.oper;
    let Some(q) = &x.outcome.peer else {
        return false;
    };
    if value.len() < 4 {
        return false;
    }
    if octets::octet(value, 0) != oper {
        return false;
    }
    if x.max.min(octets::octet(value, 1)) != oper {
        return false;
    }
    if !same_flags(octets::octet(value, 2), q.enable, q.willing, q.error) {
        return false;
    }
    holds(f, octets::from(value, 4), q.parameters.content())
}

// Whether a frame brings of a feature what is held; of one that is not advertised nothing is taken.
#[tactic(auto, unfolding(crate::specs::Repeating::repeats_in))]
#[inline(always)]
fn repeats_feature(f: Feature, x: &State, s: &[u8], found: Found) -> bool
    requires { found.start + found.length ≤ length s.now }
    ensures { result ≡ repeats_in f x.now found.count (value_of s.now found) }
{
    if !x.setting.advertise {
        return true;
    }
    if found.count != 1 {
        return false;
    }
    repeats_held(f, x, admission::part(s, found))
}

// Whether it brings of each feature what is held: the shortest first, and left at the first that differs.
#[tactic(auto, unfolding(crate::specs::Repeating::repeats_all))]
fn repeats_all(p: &Port, s: &[u8], c: Contents) -> bool
    requires { Inside s.now c }
    ensures { result ≡ repeats_all s.now c p.now }
{
    if !repeats_feature(Feature::Flow, &p.flow, s, c.flow) {
        return false;
    }
    if !repeats_feature(Feature::Groups, &p.groups, s, c.groups) {
        return false;
    }
    repeats_feature(Feature::Applications, &p.applications, s, c.applications)
}

// What a frame that is accepted repeats.
#[tactic(auto, unfolding(crate::specs::Repeating::repeat_in, crate::specs::Repeating::is_exchange))]
fn repeat_in(p: &Port, s: &[u8], c: Contents) -> Option<Repetition>
    requires { Inside s.now c }
    ensures { result ≡ repeat_in s.now c p.now }
{
    let old = p.control;
    let h = admission::hear(s, c, old);
    if !matches!(h.course, Course::Exchange) {
        return None;
    }
    if !repeats_all(p, s, c) {
        return None;
    }
    let control = h.control;
    Some(Repetition {
        wish: !port::writing::same_control(old, control),
        control,
    })
}

// Whether the port with a number takes frames, and each of its features is Syncd.
#[tactic(auto, unfolding(crate::specs::Repeating::none_waits))]
fn none_waits(n: u8, p: &Port) -> bool
    ensures { result ≡ none_waits n p.now }
{
    let takes = logging::is_port(n) & port::writing::running(*p) & !p.several;
    takes & p.groups.syncd & p.flow.syncd & p.applications.syncd
}

// Whether a frame that arrived at port `n`, which is `p` with all features Syncd, repeats what is held of each. It is asked before
// `recorder::handle`: where it holds, and the port came about by calls, the next port is `p` with this control, nothing is raised
// and `wish` is the answer (proofs/Reachable: `reachable_repeats`), so that no port need be made or stored. It does not call
// `admission::admit`, which with two callers would be called out of line, with a copy of the port.
#[tactic(auto, unfolding(crate::specs::Repeating::repeat_of, crate::specs::Repeating::repeat_given))]
pub fn repeat(n: u8, p: &Port, s: &[u8]) -> Option<Repetition>
    ensures { result ≡ repeat_of n p.now s.now }
{
    if !none_waits(n, p) {
        return None;
    }
    match reading::read_for(p.revision, s) {
        Ok(contents) => repeat_in(p, s, contents),
        Err(_) => None,
    }
}
