// What people want to know under a verdict: how many lines of each kind there were, or what differs, where, and why.
// Each function puts its text on a page.
#![tactic(auto)]

use comparison::places::Position;
use judgement::{Course, Judged, Rejected};
use port::Port;
use printing::Output;

// Types of sub-TLVs; 0 stands for the octets before the first.
const FRAME: u8 = 0;

const CONTROL: u8 = 1;

const GROUPS: u8 = 2;

const FLOW: u8 = 3;

// How many octets of a feature's sub-TLV stand before its parameters.
const FIXED: usize = 6;

// How many lines of each kind there were.
pub fn accepted(page: &mut Output, c: Course) {
    page.number(c.lines);
    page.field(b" lines: ", c.sent);
    page.field(b" sent, ", c.given);
    page.field(b" given, ", c.changes);
    page.field(b" changes, ", c.passed);
    page.text(b" passed over\n");
}

// A frame, the octet at a place in brackets.
fn marked(page: &mut Output, s: &[u8], place: usize) {
    let behind = octets::from(s, place);
    page.hex(octets::first(s, place));
    page.text(b"[");
    page.hex(octets::first(behind, 1));
    page.text(b"]");
    page.hex(octets::from(behind, 1));
    page.text(b"\n");
}

// The octet at a place, or that there is none.
fn octet(page: &mut Output, s: &[u8], place: usize) {
    match s.get(place) {
        Some(x) => page.hex(&[*x]),
        None => page.text(b"nothing"),
    }
}

// The sub-TLV with a type, or the octets before the first.
fn part(kind: u8) -> &'static str {
    match kind {
        FRAME => "frame",
        CONTROL => "control",
        GROUPS => "priority groups",
        FLOW => "flow control",
        _ => "applications",
    }
}

// The field of an octet before the parameters. SeqNo and AckNo have four octets each.
fn fixed(kind: u8, i: usize) -> &'static str {
    match (kind, i) {
        (_, 0..=1) => "type and length",
        (FRAME, 2..=4) => "OUI",
        (FRAME, _) => "subtype",
        (_, 2) => "Oper version",
        (_, 3) => "Max version",
        (CONTROL, 4..=7) => "SeqNo",
        (CONTROL, _) => "AckNo",
        (_, 4) => "flags",
        _ => "subtype",
    }
}

fn groups_field(page: &mut Output, i: usize) {
    match i {
        0..=3 => {
            page.field(b"groups of priorities ", 2 * i as u64);
            page.field(b" and ", 2 * i as u64 + 1);
        }
        4..=11 => page.field(b"percentage of group ", i as u64 - 4),
        _ => page.text(b"number of classes"),
    }
}

// The field of octet `i` of an application entry.
fn entry_part(i: usize) -> &'static str {
    match i {
        0..=1 => "protocol id",
        2 => "selector and OUI",
        3..=4 => "OUI",
        _ => "priority map",
    }
}

// A feature's parameter, by its octet.
fn parameter(page: &mut Output, kind: u8, i: usize) {
    match kind {
        GROUPS => groups_field(page, i),
        FLOW if i == 0 => page.text(b"mask"),
        FLOW => page.text(b"number of classes"),
        _ => {
            page.field(b"entry ", (i / 6) as u64 + 1);
            write!(page, " {}", entry_part(i % 6));
        }
    }
}

// The sub-TLV and the field of an octet.
fn inside(page: &mut Output, kind: u8, i: usize) {
    write!(page, "{}, ", part(kind));
    if kind < GROUPS || i < FIXED {
        page.text(fixed(kind, i).as_bytes());
    } else {
        parameter(page, kind, i - FIXED);
    }
}

fn named(page: &mut Output, due: &[u8], place: usize) {
    match comparison::places::position_of(due, place) {
        Some(Position { kind, octet }) => inside(page, kind, octet),
        None => page.text(b"behind the end"),
    }
}

// What was due beside what was sent, and the name of the octet that differs.
fn compared(page: &mut Output, sent: &[u8], due: &[u8], place: usize) {
    page.text(b"due  ");
    marked(page, due, place);
    named(page, due, place);
    page.text(b": sent ");
    octet(page, sent, place);
    page.text(b", due ");
    octet(page, due, place);
    page.text(b"\n");
}

// What the port writes, beside a frame that is not that.
fn beside(page: &mut Output, p: Port, sent: &[u8], place: usize) {
    let mut space = [0; 513];
    match port::writing::write(p, &mut space) {
        Ok(k) => compared(page, sent, octets::first(&space, k), place),
        Err(_) => page.text(b"due  nothing\nthe port is stopped: nothing is due\n"),
    }
}

// The line since which the frame was due, and the last that the port took; 0 stands for its creation.
fn led_by(page: &mut Output, c: Course) {
    match c.since {
        0 => page.text(b"due since its creation\n"),
        line => {
            page.field(b"due since line ", line);
            page.text(b"\n");
        }
    }
    match c.taken {
        0 => page.text(b"state as its creation left it\n"),
        line => {
            page.field(b"state as line ", line);
            page.text(b" left it\n");
        }
    }
}

// What differs, the lines that led there, and the port's state.
pub fn rejected(page: &mut Output, t: &Judged, r: &Rejected) {
    let sent = r.frame.as_slice();
    page.text(b"sent ");
    marked(page, sent, r.place);
    beside(page, t.port, sent, r.place);
    led_by(page, t.course);
    report::states::port_lines(page, &t.port);
}
