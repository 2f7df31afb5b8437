// The state machine of a feature: its fresh state, its setting, what it releases and writes, and step 5 of handling.
#![tactic(auto)]

ghost use Rattle.std.specs.Prelude.{◌≡◌, ◌+◌, ◌*◌, ◌≤◌, true, [], ◌∷◌, length, if◌then◌else◌};
ghost use Rattle.std.proofs.lemmas.List.Edits.{sets};
ghost use Rattle.octets.specs.Octets.{same};
ghost use Rattle.parameters.specs.Parameters.{content};
ghost use Rattle.feature.specs.Outcome.{judged};
ghost use Rattle.machine.specs.StateLaws.{Room, Sized, parts};
ghost use Rattle.machine.specs.State.{fresh_at, stopped, differing, marked, flags, present, release_tlv, setting_of, same_setting, judged_again, reset};

use feature::{Flags, Outcome, Peer, Reason, Release, Setting, State, Switches};
use parameters::{Feature, Parameters};

// The fresh state of a setting (01, Port events).
pub fn fresh_at(sequence: u32, max: u8, s: Setting) -> State
    ensures { result ≡ fresh_at sequence max s }
{
    if s.advertise {
        let outcome = feature::outcome_of(
            feature::without_peer(Reason::NoPeerYet, max, false),
            feature::no_parameters(),
        );
        return State {
            max,
            setting: s,
            outcome,
            syncd: false,
            sequence,
        };
    }
    let mut decision = feature::without_peer(Reason::NotAdvertised, max, false);
    decision.mode = s.enable;
    let outcome = feature::outcome_of(decision, feature::no_parameters());
    State {
        max,
        setting: s,
        outcome,
        syncd: true,
        sequence,
    }
}

// The state with its mode false, as a stopped port holds it.
pub fn stopped(x: State) -> State
    ensures { result ≡ stopped x }
{
    let mut o = x.outcome;
    o.mode = false;
    let mut next = x;
    next.outcome = o;
    next
}

fn bit(b: bool, v: u8) -> u8
    ensures { (result ≡ (if b then v else 0)) × (result ≤ v) }
{
    if b { v } else { 0 }
}

// What a release would write at present (02, E5).
pub fn present(x: State) -> Release
    ensures { result ≡ present x }
{
    let o = x.outcome;
    let s = x.setting;
    Release {
        setting: s,
        oper: o.oper,
        error: o.error,
    }
}

// The flags octet of the sub-TLV.
fn flags_of(x: Release) -> u8
    ensures { result ≡ flags x.setting.enable x.setting.willing x.error }
{
    let s = x.setting;
    let enable = bit(s.enable, 128);
    let willing = bit(s.willing, 64);
    let error = bit(x.error, 32);
    enable + willing + error
}

// Whether two configurations have the same octets.
fn same_content(a: Parameters, b: Parameters) -> bool
    ensures { result ≡ same (content a) (content b) }
{
    octets::same_octets(a.content(), b.content())
}

// Whether two releases write different sub-TLVs, each of a feature with its Max.
pub fn differs(f: Feature, m: u8, x: Release, n: u8, y: Release) -> bool
    ensures { result ≡ differing f m x n y }
{
    let s = x.setting;
    let t = y.setting;
    if s.advertise != t.advertise {
        return true;
    }
    if !s.advertise {
        return false;
    }
    if x.oper != y.oper {
        return true;
    }
    if m != n {
        return true;
    }
    if flags_of(x) != flags_of(y) {
        return true;
    }
    let a = s.desired;
    let b = t.desired;
    !same_content(a, b)
}

// Step 5 of handling: a feature whose present sub-TLV changed waits for a new acknowledgement.
pub fn mark(f: Feature, seq: u32, before: State, after: State) -> State
    ensures { result ≡ marked f seq before after }
{
    let x = present(before);
    let y = present(after);
    if !differs(f, before.max, x, after.max, y) {
        return after;
    }
    let up = seq.wrapping_add(1);
    let mut next = after;
    next.syncd = false;
    next.sequence = up;
    next
}

// A setting whose parameters are given as octets.
pub fn setting_of(f: Feature, w: Switches, p: &[u8]) -> Setting
    ensures { result ≡ setting_of f w p.now }
{
    let desired = config::store(f, p);
    Setting {
        advertise: w.advertise,
        enable: w.enable,
        willing: w.willing,
        desired: desired,
    }
}

// Whether two settings are equal.
pub fn same_setting(s: Setting, t: Setting) -> bool
    ensures { result ≡ same_setting s t }
{
    s == t
}

// Rules 6 to 9 again, for a peer that is held.
fn judge_held(f: Feature, s: Setting, oper: u8, p: Peer) -> Outcome
    ensures { result ≡ judged f s oper p }
{
    let q = p.parameters;
    let desired = s.desired.content();
    let theirs = q.content();
    let decision = feature::judge(Switches::from(s), oper, Flags::from(p), || {
        config::compatible(f, desired, theirs)
    });
    feature::outcome_of(decision, q)
}

// The outcome under another setting that is advertised just as the one before.
fn judge_again(f: Feature, s: Setting, o: Outcome) -> Outcome
    ensures { result ≡ judged_again f s o }
{
    if !s.advertise {
        let mut next = o;
        next.mode = s.enable;
        next.adopts = false;
        return next;
    }
    match o.peer {
        Some(peer) => judge_held(f, s, o.oper, peer),
        None => {
            let mut next = o;
            next.adopts = false;
            next
        }
    }
}

// The feature under another setting.
pub fn set_anew(f: Feature, seq: u32, s: Setting, x: State) -> State
    ensures { result ≡ reset f seq s x }
{
    let t = x.setting;
    if t.advertise != s.advertise {
        let up = seq.wrapping_add(1);
        return fresh_at(up, x.max, s);
    }
    let o = x.outcome;
    let outcome = judge_again(f, s, o);
    let mut next = x;
    next.setting = s;
    next.outcome = outcome;
    next
}

// How many octets the sub-TLV has: none where the feature is not advertised.
pub fn sub_tlv_length(f: Feature, max: u8, x: Release) -> usize
    ensures { Sized f max x result }
{
    let s = x.setting;
    if !s.advertise {
        return 0;
    }
    let p = s.desired;
    let n = parameters::writing::size(p);
    6 + n
}

// Writes a sub-TLV by its parts: its type, its first four octets, of which SubType is 0, and its parameters.
fn put_parts(out: &mut [u8], at: usize, kind: u8, oper: u8, max: u8, bits: u8, p: Parameters)
    requires { Room out.old at kind (content p) }
    ensures { out.new ≡ sets out.old at (parts kind oper max bits (content p)) }
{
    let n = parameters::writing::size(p);
    put_header(out, at, kind, ((4 + n) % 256) as u8, oper, max, bits);
    parameters::writing::put(out, at + 6, p);
}

fn put_header(out: &mut [u8], at: usize, kind: u8, size: u8, oper: u8, max: u8, bits: u8)
    requires { (at + 6 ≤ length out.old) × (kind ≤ 127) }
    ensures { out.new ≡ sets out.old at ((kind * 2) ∷ size ∷ oper ∷ max ∷ bits ∷ 0 ∷ []) }
{
    octets::numbers::put(out, at, &[kind * 2, size, oper, max, bits, 0]);
}

// Writes the sub-TLV at `at`. The caller has refused a short output before, by the frame's length; hence the `requires`.
pub fn put_sub_tlv(out: &mut [u8], at: usize, f: Feature, max: u8, x: Release)
    requires { at + length (release_tlv f max x) ≤ length out.old }
    ensures { out.new ≡ sets out.old at (release_tlv f max x) }
{
    let s = x.setting;
    if !s.advertise {
        return;
    }
    let p = s.desired;
    let kind = u8::from(f);
    let bits = flags_of(x);
    put_parts(out, at, kind, x.oper, max, bits, p);
}
