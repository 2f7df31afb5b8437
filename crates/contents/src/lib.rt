// What a frame has: its sub-TLVs noted by type, the control that is kept, and refusals 6 to 8.
#![tactic(auto)]

ghost use Rattle.std.specs.Prelude.{◌≡◌, ◌+◌, ◌≤◌, length};
ghost use Rattle.contents.specs.Contents.{counts, found_again, no_contents, head_of, noted_at, no_control, control_in, kept_behind, judged};
ghost use Rattle.contents.specs.ContentsLaws.{Room};

use tlv::{Refusal, Rejection};

// The types of the sub-TLVs, and the length of a control's value.
const CONTROL: u8 = 1;

const GROUPS: u8 = 2;

const FLOW: u8 = 3;

const APPLICATIONS: u8 = 4;

const CONTROL_LENGTH: usize = 10;

// How often a type came, 2 standing for two or more, and where the value of the last stands. `count` is a number and no enum: it
// is counted up and compared with one, as the definitions and theorems over frames do (`found_again`, `outcome`).
#[derive(Clone, Copy)]
pub struct Found {
    pub count: u8,
    pub start: usize,
    pub length: usize,
}

// What a frame has of control and of the three features.
#[derive(Clone, Copy)]
pub struct Contents {
    pub control: Found,
    pub groups: Found,
    pub flow: Found,
    pub applications: Found,
}

// The versions and numbers of a control of length 10, and zeros for another.
#[derive(Clone, Copy)]
pub struct Control {
    pub oper: u8,
    pub max: u8,
    pub seq: u32,
    pub ack: u32,
}

// What reading a frame gives: what the frame has, or why it is refused and where it went wrong.
pub type Reading = Result<Contents, Rejection>;

// Whether a feature's sub-TLV counts for its type: one of length 4 or more has SubType 0.
fn counts(s: &[u8], start: usize, n: usize) -> bool
    requires { start + n ≤ length s.now }
    ensures { result ≡ counts s.now start n }
{
    if n < 4 {
        return true;
    }
    s[start + 3] == 0
}

// One more of a type.
fn found_again(x: Found, start: usize, n: usize) -> Found
    ensures { result ≡ found_again x start n }
{
    let count = if x.count < 1 { 1 } else { 2 };
    Found {
        count,
        start,
        length: n,
    }
}

// Notes a sub-TLV whose value stands at `start` of the octets from `base` of the whole on. For a walk, which has come to a head there:
// hence the `requires`, here and in `keep`.
pub fn note(s: &[u8], base: usize, c: Contents, kind: u8, start: usize, n: usize) -> Contents
    requires { Room base s.now start n }
    ensures { result ≡ noted_at base s.now c kind start n }
{
    let mut next = c;
    let place = base + start;
    if kind == CONTROL {
        next.control = found_again(c.control, place, n);
        return next;
    }
    if !counts(s, start, n) {
        return c;
    }
    // Each arm returns: joined behind the match, `next` is copied in pieces, and reading a frame takes three times as long.
    match kind {
        GROUPS => {
            next.groups = found_again(c.groups, place, n);
            return next;
        }
        FLOW => {
            next.flow = found_again(c.flow, place, n);
            return next;
        }
        APPLICATIONS => {
            next.applications = found_again(c.applications, place, n);
            return next;
        }
        _ => c,
    }
}

pub fn no_control() -> Control
    ensures { result ≡ no_control }
{
    Control {
        oper: 0,
        max: 0,
        seq: 0,
        ack: 0,
    }
}

// What is kept of a control's value.
pub fn control_in(v: &[u8]) -> Control
    ensures { result ≡ control_in v.now }
{
    if v.len() != CONTROL_LENGTH {
        return no_control();
    }
    Control {
        oper: v[0],
        max: v[1],
        seq: octets::numbers::number4(v, 2),
        ack: octets::numbers::number4(v, 6),
    }
}

// The control kept behind a sub-TLV.
pub fn keep(s: &[u8], k: Control, kind: u8, start: usize, n: usize) -> Control
    requires { start + n ≤ length s.now }
    ensures { result ≡ kept_behind s.now k kind start n }
{
    if kind == CONTROL {
        let end = start + n;
        return control_in(&s[start..end]);
    }
    k
}

pub fn nothing_found() -> Contents
    ensures { result ≡ no_contents }
{
    let none = Found {
        count: 0,
        start: 0,
        length: 0,
    };
    Contents {
        control: none,
        groups: none,
        flow: none,
        applications: none,
    }
}

// Where the head of a value stands.
fn head_of(x: Found) -> usize
    ensures { result ≡ head_of x }
{
    x.start.saturating_sub(2)
}

// Refusals 6 to 8, by what a walk kept that came to the end of the whole.
pub fn judge_control(end: usize, c: Contents, k: Control) -> Reading
    ensures { result ≡ judged end c k }
{
    let control = c.control;
    if control.count == 0 {
        return Err(Rejection {
            why: Refusal::NoControl,
            place: end,
        });
    }
    if 1 < control.count {
        return Ok(c);
    }
    if control.length != CONTROL_LENGTH {
        return Err(Rejection {
            why: Refusal::ControlLength,
            place: head_of(control),
        });
    }
    if k.max < k.oper {
        return Err(Rejection {
            why: Refusal::ControlVersion,
            place: head_of(control),
        });
    }
    Ok(c)
}
