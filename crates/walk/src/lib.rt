// The walk over the sub-TLVs of a frame, which may be halted before any of them (02, E6).
#![tactic(auto)]

ghost use Rattle.std.specs.Prelude.{◌≡◌, ◌+◌, ◌-◌, ◌<◌, ◌^◌, length, drop};
ghost use Rattle.walk.specs.Halting.{begun, passed, finished};
ghost use Rattle.walk.specs.HaltingLaws.{Came, Ahead, judged_end};

use contents::{Contents, Control, Reading};
use tlv::{Head, Refusal, Rejection};

// A walk over sub-TLVs, halted before one: its place, counted from 0 at the TLV's first octet, what it has found, and the last
// control, so that no octet before its place is needed again (02, E6).
#[derive(Clone, Copy)]
pub struct Walk {
    pub at: usize,
    pub contents: Contents,
    pub control: Control,
}

// What the head at a walk's place makes of it: three outcomes, where an Option or a Result has two.
#[derive(Clone, Copy)]
pub enum Step {
    // No sub-TLV is left.
    End,
    // The next one, or its head, runs past the end.
    Past,
    // It is passed.
    Halted(Walk),
}

// The walk before the first sub-TLV, behind the six octets at the TLV's head.
pub fn begin_walk() -> Walk
    ensures { result ≡ begun }
{
    Walk {
        at: 6,
        contents: contents::nothing_found(),
        control: contents::no_control(),
    }
}

// Passes one sub-TLV and halts before the next. `rest` are the octets from the walk's place to the end; the whole has a length,
// hence the `requires`.
pub fn pass_sub_tlv(w: Walk, rest: &[u8]) -> Step
    requires { w.at + length rest.now < 2 ^ 64 }
    ensures { result ≡ passed w rest.now }
{
    match tlv::head_at(rest, 0) {
        Head::End => Step::End,
        Head::Past => Step::Past,
        Head::SubTlv {
            kind,
            start,
            length,
        } => Step::Halted(Walk {
            at: w.at + (start + length),
            contents: contents::note(rest, w.at, w.contents, kind, start, length),
            control: contents::keep(rest, w.control, kind, start, length),
        }),
    }
}

// Refusals 6 to 8 at the end of a walk over `s`, the octets from `base` of the whole on: by the control that came in them, or
// where `count` had come before by the one kept of these. With several none is read.
fn judge_end(s: &[u8], base: usize, count: u8, k: Control, c: Contents) -> Reading
    requires { Came base s.now count c }
    ensures { result ≡ judged_end base s.now count k c }
{
    let found = c.control;
    let whole = base + s.len();
    if found.count != 1 {
        return contents::judge_control(whole, c, k);
    }
    if count != 0 {
        return contents::judge_control(whole, c, k);
    }
    let start = found.start - base;
    let end = start + found.length;
    contents::judge_control(whole, c, contents::control_in(&s[start..end]))
}

// Goes on from head to head to the end, over `s`, the octets from `base` of the whole on; hence the `requires`, which
// `reading::read` meets.
pub fn walk_on(s: &[u8], base: usize, w: Walk) -> Reading
    requires { Ahead base s.now w }
    ensures { result ≡ finished w (drop (w.at - base) s.now) }
{
    let before = w.contents.control;
    let mut contents = w.contents;
    let mut at = w.at - base;
    // `at` moves by a sub-TLV's length: nothing is counted.
    loop {
        match tlv::head_at(s, at) {
            Head::End => {
                return judge_end(s, base, before.count, w.control, contents);
            }
            Head::Past => {
                let place = base + at;
                return Err(Rejection {
                    why: Refusal::PastEnd,
                    place,
                });
            }
            Head::SubTlv {
                kind,
                start,
                length,
            } => {
                contents = contents::note(s, base, contents, kind, start, length);
                at = start + length;
            }
        }
    }
}

// Goes on to the end, over the octets from the walk's place on, as `pass_sub_tlv` takes them, and with its `requires`.
pub fn finish_walk(w: Walk, rest: &[u8]) -> Reading
    requires { w.at + length rest.now < 2 ^ 64 }
    ensures { result ≡ finished w rest.now }
{
    walk_on(rest, w.at, w)
}
