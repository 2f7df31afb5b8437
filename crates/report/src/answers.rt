// Answers: `done`, `refused`, notices.
use crate::ports;
use notices::{Kind, Notice};
use parameters::Feature;
use port::Notices;
use printing::Output;
use tlv::{Refusal, Rejection};

// `notice N NAME WHERE`, where that is a feature or the port.
fn raised_one(page: &mut Output, kind: Kind, of: Option<Feature>) {
    page.field(b"notice ", u64::from(u8::from(kind)));
    match of {
        Some(feature) => writeln!(page, " {kind} {feature}"),
        None => writeln!(page, " {kind} port"),
    }
}

pub fn notice(page: &mut Output, n: Notice) {
    raised_one(page, n.kind, Feature::try_from(n.feature).ok());
}

// The notices that an event raised, a line each, each behind its port where the line that is answered gave it: the port's
// notice, then by ascending feature.
pub fn raised(page: &mut Output, port: Option<u8>, n: Notices) {
    let each = [
        (n.port, None),
        (n.groups, Some(Feature::Groups)),
        (n.flow, Some(Feature::Flow)),
        (n.applications, Some(Feature::Applications)),
    ];
    for (kind, of) in each {
        if let Some(kind) = kind {
            ports::first(page, port);
            raised_one(page, kind, of);
        }
    }
}

// How many notices an event raised, at most four.
pub fn raised_count(n: Notices) -> u8 {
    u8::from(n.port.is_some())
        + u8::from(n.groups.is_some())
        + u8::from(n.flow.is_some())
        + u8::from(n.applications.is_some())
}

// How many notice lines follow, where any does, and the end of the line.
fn ending(page: &mut Output, follow: u8) {
    if follow != 0 {
        page.field(b" notices ", u64::from(follow));
    }
    page.text(b"\n");
}

// `refused N NAME`
fn refusal(page: &mut Output, why: Refusal) {
    page.field(b"refused ", u64::from(u8::from(why)));
    write!(page, " {why}");
}

// `refused N NAME`, a line
pub fn refused(page: &mut Output, why: Refusal) {
    refusal(page, why);
    page.text(b"\n");
}

// Whether a frame went wrong at a place, which 3 to 8 say.
fn has_place(why: Refusal) -> bool {
    matches!(u8::from(why), 3..=8)
}

// `refused N NAME` or `refused N NAME at P`, and how many notice lines follow
pub fn refused_at(page: &mut Output, r: Rejection, follow: u8) {
    refusal(page, r.why);
    if has_place(r.why) {
        page.field(b" at ", r.place as u64);
    }
    ending(page, follow);
}

// `done` or `done send`, and how many notice lines follow
pub fn done(page: &mut Output, send: bool, follow: u8) {
    page.text(b"done");
    if send {
        page.text(b" send");
    }
    ending(page, follow);
}

// `A HEX`, a capture's line
pub fn frame(page: &mut Output, octets: &[u8]) {
    page.text(b"A ");
    page.hex(octets);
    page.text(b"\n");
}

// `bad settings: line N: refused R NAME`
pub fn refused_setting(page: &mut Output, line: u64, why: Refusal) {
    page.field(b"bad settings: line ", line);
    page.text(b": ");
    refused(page, why);
}

// `bad settings: FILE cannot be opened`
pub fn unopened(page: &mut Output, file: &[u8]) {
    page.text(b"bad settings: ");
    page.text(file);
    page.text(b" cannot be opened\n");
}
