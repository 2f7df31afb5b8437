// The DCBX TLV: its fixed octets, the heads of its sub-TLVs, and the numbers of refusals.
#![tactic(auto)]

ghost use Rattle.std.specs.Prelude.{◌≡◌, ◌+◌, ◌*◌, ◌%◌, ◌<◌, ◌≤◌, Some, length};
ghost use Rattle.std.proofs.lemmas.List.Edits.{sets};
ghost use Rattle.tlv.specs.Refusals.{refusal_name, refusal_number, rejection};
ghost use Rattle.tlv.specs.Layout.{head_at, is_dcbx, frame_head};
ghost use Rattle.tlv.specs.Revisions.{has_applications};

use std::fmt;

// The TLV's type (01, TLV layout).
const DCBX: u8 = 127;

// OUI 00 1b 21, subtype 2: compared on reading, written at the head of every frame.
const FIXED: [u8; 4] = [0x00, 0x1b, 0x21, 0x02];

// The two revisions in the field (02, E11). Rev 1.0 has no application feature.
#[derive(Clone, Copy, Debug, PartialEq, Eq)]
pub enum Revision {
    Rev101,
    Rev10,
}

// Why a call is refused; `refusal_number` in specs/ gives the number of each.
#[derive(Clone, Copy, Debug, PartialEq, Eq)]
pub enum Refusal {
    NotRunning,
    SeveralNeighbours,
    NotDcbx,
    WrongLength,
    PastEnd,
    NoControl,
    ControlLength,
    ControlVersion,
    InvalidSetting,
    ShortOutput,
    UnknownFeature,
    NoNotice,
    NoPort,
}

// What stands at a place of the TLV: three outcomes, where an Option or a Result has two.
#[derive(Clone, Copy)]
pub enum Head {
    // Nothing: the octets end here.
    End,
    // A head, or the value behind it, runs past the end.
    Past,
    // A whole sub-TLV, whose value is `length` octets from `start`.
    SubTlv {
        kind: u8,
        start: usize,
        length: usize,
    },
}

// The number that stands for a refusal.
impl From<Refusal> for u8 {
    ghost from_gives = { λ r n. n ≡ refusal_number r };

    #[tactic(auto, unfolding(crate::specs::Refusals::refusal_number))]
    fn from(r: Refusal) -> u8 {
        match r {
            Refusal::NotRunning => 1,
            Refusal::SeveralNeighbours => 2,
            Refusal::NotDcbx => 3,
            Refusal::WrongLength => 4,
            Refusal::PastEnd => 5,
            Refusal::NoControl => 6,
            Refusal::ControlLength => 7,
            Refusal::ControlVersion => 8,
            Refusal::InvalidSetting => 9,
            Refusal::ShortOutput => 10,
            Refusal::UnknownFeature => 11,
            Refusal::NoNotice => 12,
            Refusal::NoPort => 16,
        }
    }
}

// The name of a refusal in every answer that is printed (docs/FORMATS.md).
impl fmt::Display for Refusal {
    ghost output = { λ r. Some (refusal_name r) };

    fn fmt<W: fmt::Write>(&self, f: &mut fmt::Formatter<W>) -> fmt::Result {
        f.write_str(match self {
            Refusal::NotRunning => "not-running",
            Refusal::SeveralNeighbours => "several-neighbours",
            Refusal::NotDcbx => "not-dcbx",
            Refusal::WrongLength => "frame-length",
            Refusal::PastEnd => "past-the-end",
            Refusal::NoControl => "no-control",
            Refusal::ControlLength => "control-length",
            Refusal::ControlVersion => "control-version",
            Refusal::InvalidSetting => "invalid-setting",
            Refusal::ShortOutput => "no-room",
            Refusal::UnknownFeature => "no-feature",
            Refusal::NoNotice => "no-notice",
            Refusal::NoPort => "no-port",
        })
    }
}

// A refusal, and the place where a frame went wrong, counted from 0 at its first octet; 0 beside every other refusal.
#[derive(Clone, Copy, Debug, PartialEq, Eq)]
pub struct Rejection {
    pub why: Refusal,
    pub place: usize,
}

// What refuses anything but a frame has no place in one.
impl From<Refusal> for Rejection {
    ghost from_gives = { λ why r. r ≡ rejection why 0 };

    fn from(why: Refusal) -> Rejection {
        Rejection { why, place: 0 }
    }
}

// The 9 bits of length of a head of these two octets.
pub fn length_of(high: u8, low: u8) -> usize
    ensures { (result ≡ high % 2 * 256 + low) × (result < 512) }
{
    usize::from(high % 2) * 256 + usize::from(low)
}

// What stands at `at`: the sub-TLV whose head is there, if the octets go on.
pub fn head_at(s: &[u8], at: usize) -> Head
    ensures { result ≡ head_at s.now at }
{
    if s.len() <= at {
        return Head::End;
    }
    let left = s.len() - at;
    if left < 2 {
        return Head::Past;
    }
    let high = s[at];
    let length = length_of(high, s[at + 1]);
    if left - 2 < length {
        return Head::Past;
    }
    Head::SubTlv {
        kind: high / 2,
        start: at + 2,
        length,
    }
}

// Whether the octets are a TLV of ours at all.
pub fn is_dcbx(s: &[u8]) -> bool
    ensures { result ≡ is_dcbx s.now }
{
    if s.len() < 6 {
        return false;
    }
    if s[0] / 2 != DCBX {
        return false;
    }
    octets::same_octets(&s[2..6], &FIXED)
}

// Whether ports of a revision have the application feature.
#[tactic(auto, unfolding(crate::specs::Revisions::has_applications))]
pub fn has_applications(r: Revision) -> bool
    ensures { result ≡ has_applications r }
{
    match r {
        Revision::Rev101 => true,
        Revision::Rev10 => false,
    }
}

// Writes the first six octets of a frame whose sub-TLVs fill `n` octets. For the layer above, which has looked at the
// length of the output and whose frames are short: hence the `requires`.
pub fn put_head(out: &mut [u8], n: usize)
    requires { (6 ≤ length out.old) × (4 + n < 512) }
    ensures { out.new ≡ sets out.old 0 (frame_head n) }
{
    let field = 4 + n;
    out[0] = DCBX * 2 + (field / 256) as u8;
    out[1] = (field % 256) as u8;
    out[2..6].copy_from_slice(&FIXED);
}
