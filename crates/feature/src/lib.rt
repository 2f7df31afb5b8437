// One feature: its setting, its state by their parts, and the outcome rules that all three features share.
#![tactic(auto)]

ghost use Rattle.std.specs.Prelude.{◌≡◌, ◌&&◌, Bool, Some, true};
ghost use Rattle.parameters.specs.Parameters.{compatible, content, no_parameters, valid};
ghost use Rattle.feature.specs.Reasons.{reason_name, reason_number};
ghost use Rattle.feature.specs.Outcome.{configuration, outcome, parameters_held, parameters_of, with_peer, without_peer};
ghost use Rattle.feature.specs.OutcomeLaws.{Answers, asked, decided, flags_of, judged_on, judged_with, outcome_of, peer_flags, peer_of, peer_with, switches_of};

use parameters::{Feature, Parameters};
use std::fmt;

// Why a feature is in its state.
#[derive(Clone, Copy, Debug, PartialEq, Eq)]
pub enum Reason {
    NoPeerYet,
    NotAdvertised,
    Absent,
    Duplicate,
    Bad,
    Waiting,
    Disabled,
    Agreed,
    NotCompatible,
    ControlTwice,
}

// A number for each reason; the numbers are ours.
impl From<Reason> for u8 {
    ghost from_gives = { λ r n. n ≡ reason_number r };

    fn from(r: Reason) -> u8 {
        match r {
            Reason::NoPeerYet => 0,
            Reason::NotAdvertised => 1,
            Reason::Absent => 2,
            Reason::Duplicate => 3,
            Reason::Bad => 4,
            Reason::Waiting => 5,
            Reason::Disabled => 6,
            Reason::Agreed => 7,
            Reason::NotCompatible => 8,
            Reason::ControlTwice => 9,
        }
    }
}

// The name of a reason in every answer that is printed (docs/FORMATS.md).
impl fmt::Display for Reason {
    ghost output = { λ r. Some (reason_name r) };

    fn fmt<W: fmt::Write>(&self, f: &mut fmt::Formatter<W>) -> fmt::Result {
        f.write_str(match self {
            Reason::NoPeerYet => "no-peer-yet",
            Reason::NotAdvertised => "not-advertised",
            Reason::Absent => "absent",
            Reason::Duplicate => "duplicate",
            Reason::Bad => "bad",
            Reason::Waiting => "waiting",
            Reason::Disabled => "disabled",
            Reason::Agreed => "agreed",
            Reason::NotCompatible => "not-compatible",
            Reason::ControlTwice => "control-twice",
        })
    }
}

// A setting's three switches, without its parameters.
#[derive(Clone, Copy, Debug, PartialEq, Eq)]
pub struct Switches {
    pub advertise: bool,
    pub enable: bool,
    pub willing: bool,
}

// What an end is set to for one feature. `desired` is DesiredCfg.
#[derive(Clone, Copy, Debug, PartialEq, Eq)]
pub struct Setting {
    pub advertise: bool,
    pub enable: bool,
    pub willing: bool,
    pub desired: Parameters,
}

// What is held of the peer.
#[derive(Clone, Copy, Debug, PartialEq, Eq)]
pub struct Peer {
    pub enable: bool,
    pub willing: bool,
    pub error: bool,
    pub parameters: Parameters,
}

// What the outcome rules decide. OperCfg is the peer's configuration where the end `adopts` it, and else its own.
#[derive(Clone, Copy, Debug, PartialEq, Eq)]
pub struct Outcome {
    pub reason: Reason,
    pub oper: u8,
    pub error: bool,
    pub mode: bool,
    pub peer: Option<Peer>,
    pub adopts: bool,
}

// An outcome but for the peer's parameters, which are long.
#[derive(Clone, Copy, Debug, PartialEq, Eq)]
pub struct Decision {
    pub reason: Reason,
    pub oper: u8,
    pub error: bool,
    pub mode: bool,
    pub peer: Option<Flags>,
    pub adopts: bool,
}

// The flags of a sub-TLV.
#[derive(Clone, Copy, Debug, PartialEq, Eq)]
pub struct Flags {
    pub enable: bool,
    pub willing: bool,
    pub error: bool,
}

// A feature's state. `sequence` is FeatureSeqNo.
#[derive(Clone, Copy, Debug, PartialEq, Eq)]
pub struct State {
    pub max: u8,
    pub setting: Setting,
    pub outcome: Outcome,
    pub syncd: bool,
    pub sequence: u32,
}

// What a sub-TLV is written from, beside the feature's Max, which is fixed: none is written where the setting does not advertise.
#[derive(Clone, Copy, Debug, PartialEq, Eq)]
pub struct Release {
    pub setting: Setting,
    pub oper: u8,
    pub error: bool,
}

// The switches of a setting.
impl From<Setting> for Switches {
    ghost from_gives = { λ s w. w ≡ switches_of s };

    fn from(s: Setting) -> Switches {
        switches_of(&s)
    }
}

// The same of a setting that is lent: none of it is copied but the switches. So it is of the two below.
fn switches_of(s: &Setting) -> Switches
    ensures { result ≡ switches_of s.now }
{
    Switches {
        advertise: s.advertise,
        enable: s.enable,
        willing: s.willing,
    }
}

// The flags of what is held of a peer.
impl From<Peer> for Flags {
    ghost from_gives = { λ p w. w ≡ peer_flags p };

    fn from(p: Peer) -> Flags {
        peer_flags(&p)
    }
}

fn peer_flags(p: &Peer) -> Flags
    ensures { result ≡ peer_flags p.now }
{
    Flags {
        enable: p.enable,
        willing: p.willing,
        error: p.error,
    }
}

// An outcome but for the peer's parameters.
impl From<Outcome> for Decision {
    ghost from_gives = { λ o d. d ≡ decided o };

    fn from(o: Outcome) -> Decision {
        decision_of(&o)
    }
}

#[inline(always)]
pub fn decision_of(o: &Outcome) -> Decision
    ensures { result ≡ decided o.now }
{
    let peer = match &o.peer {
        Some(p) => Some(peer_flags(p)),
        None => None,
    };
    Decision {
        reason: o.reason,
        oper: o.oper,
        error: o.error,
        mode: o.mode,
        peer,
        adopts: o.adopts,
    }
}

// The parameters held of a peer.
pub fn parameters_held(peer: Option<Peer>) -> Parameters
    ensures { result ≡ parameters_held peer }
{
    held_parameters(&peer)
}

// The same of a peer that is lent.
#[inline(always)]
pub fn held_parameters(peer: &Option<Peer>) -> Parameters
    ensures { result ≡ parameters_held peer.now }
{
    match peer {
        Some(p) => p.parameters,
        None => no_parameters(),
    }
}

// OperCfg, the configuration in force.
pub fn configuration(x: State) -> Parameters
    ensures { result ≡ configuration x.setting x.outcome }
{
    let s = x.setting;
    let o = x.outcome;
    if o.adopts {
        return parameters_held(o.peer);
    }
    s.desired
}

// No parameters, as they are held where there is no peer.
pub fn no_parameters() -> Parameters
    ensures { result ≡ no_parameters }
{
    Parameters {
        length: 0,
        octets: [0; 96],
    }
}

// An outcome by its decision and the peer's parameters.
#[inline(always)]
pub fn outcome_of(d: Decision, p: Parameters) -> Outcome
    ensures { result ≡ outcome_of d p }
{
    Outcome {
        reason: d.reason,
        oper: d.oper,
        error: d.error,
        mode: d.mode,
        peer: match d.peer {
            Some(flags) => Some(Peer {
                enable: flags.enable,
                willing: flags.willing,
                error: flags.error,
                parameters: p,
            }),
            None => None,
        },
        adopts: d.adopts,
    }
}

// Rules 1 to 5: no peer, mode false, own configuration.
pub fn without_peer(reason: Reason, oper: u8, error: bool) -> Decision
    ensures { result ≡ decided (without_peer reason oper error) }
{
    Decision {
        reason,
        oper,
        error,
        mode: false,
        peer: None,
        adopts: false,
    }
}

// Rules 6 to 9: the peer is held.
fn with_peer(reason: Reason, oper: u8, error: bool, mode: bool, p: Flags, adopts: bool) -> Decision
    ensures { result ≡ decided (with_peer reason oper error mode (peer_of p no_parameters) adopts) }
{
    Decision {
        reason,
        oper,
        error,
        mode,
        peer: Some(p),
        adopts,
    }
}

// Rules 6 to 9, at a version and with a peer. `suits` says whether the two ends' parameters are compatible, and is asked only
// where that decides. For each caller the compiler makes a copy of its own, which is inlined there.
#[inline(always)]
pub fn judge<F: FnOnce() -> bool>(s: Switches, oper: u8, p: Flags, suits: F) -> Decision
    requires { F.pre suits }
    ensures { (c : Bool) → Answers (F.post suits) c → result ≡ judged_with s oper p c }
{
    if !s.enable {
        return with_peer(Reason::Disabled, oper, false, false, p, false);
    }
    if !p.enable {
        return with_peer(Reason::Disabled, oper, false, false, p, false);
    }
    if s.willing != p.willing {
        return with_peer(Reason::Agreed, oper, false, !p.error, p, s.willing);
    }
    if suits() {
        return with_peer(Reason::Agreed, oper, false, !p.error, p, false);
    }
    with_peer(Reason::NotCompatible, oper, true, false, p, false)
}

// The flags of a sub-TLV, of its value.
#[inline(always)]
fn flags_in(value: &[u8]) -> Flags
    ensures { result ≡ flags_of value.now }
{
    let flags = octets::octet(value, 2);
    Flags {
        enable: 128 <= flags,
        willing: 64 <= flags % 128,
        error: 32 <= flags % 64,
    }
}

// Whether rules 6 to 9 come to ask if the two ends' parameters are compatible.
fn asks(s: Switches, p: Flags) -> bool
    ensures { result ≡ asked s p }
{
    s.enable & p.enable & (s.willing == p.willing)
}

// Whether parameters that came in a frame suit the end's own, where that is asked.
#[inline(always)]
fn suits_where(asked: bool, f: Feature, own: &[u8], theirs: &[u8]) -> bool
    requires { valid f theirs.now ≡ true }
    ensures { result ≡ (asked && compatible f own.now theirs.now) }
{
    asked && config::suits(f, own, theirs)
}

// Rules 6 to 9 of a sub-TLV's value. The end's own parameters are lent from a `let` of them alone: a slice of the port would have all of
// it put into memory. Whether the two suit is asked before, where it decides, and not in the closure, which is called out of line.
#[inline(always)]
fn judge_value(f: Feature, s: &Setting, oper: u8, value: &[u8]) -> Decision
    requires { valid f (parameters_of value.now) ≡ true }
    ensures { result ≡ judged_on f (switches_of s.now) (content s.now.desired) oper (flags_of value.now) (parameters_of value.now) }
{
    let desired = s.desired;
    let own = desired.content();
    let theirs = octets::from(value, 4);
    let switches = switches_of(s);
    let flags = flags_in(value);
    let suits = suits_where(asks(switches, flags), f, own, theirs);
    judge(switches, oper, flags, || suits)
}

// The outcome rules, first that applies: `count` sub-TLVs of the feature came, and `value` is that of the last.
#[inline(always)]
pub fn decide(f: Feature, max: u8, s: &Setting, oper: u8, count: u8, value: &[u8]) -> Decision
    ensures { result ≡ decided (outcome f max s.now oper (record { count = count; value = value.now })) }
{
    if count == 0 {
        return without_peer(Reason::Absent, max, false);
    }
    if 1 < count {
        return without_peer(Reason::Duplicate, oper, true);
    }
    if value.len() < 4 {
        return without_peer(Reason::Bad, oper, true);
    }
    let theirs = octets::octet(value, 0);
    let highest = octets::octet(value, 1);
    if highest < theirs {
        return without_peer(Reason::Bad, oper, true);
    }
    let low = max.min(highest);
    if theirs != low {
        return without_peer(Reason::Waiting, low, false);
    }
    if !config::valid(f, octets::from(value, 4)) {
        return without_peer(Reason::Bad, low, true);
    }
    judge_value(f, s, low, value)
}
