// Events at a port of a recorder, a line each, and their answers.
#![tactic(auto)]

use faults::Fault;
use lines::{Kind, Line};
use notices::Log;
use parameters::Feature;
use port::{Answer, Event, Port};
use printing::{Output, Page};
use recorder::Change;
use tlv::Refusal;

// What an event leaves: the port at hand and the log.
#[derive(Clone, Copy)]
pub struct Step {
    pub port: Port,
    pub log: Log,
}

// The first line of an answer, behind which so many notice lines follow.
fn first_line(page: &mut Output, a: Answer, follow: u8) {
    match a {
        Ok(send) => report::answers::done(page, send, follow),
        Err(r) => report::answers::refused_at(page, r, follow),
    }
}

// The answer, and the notices that the event raised.
pub fn answered(page: &mut Output, port: Option<u8>, e: Event) {
    first_line(page, e.answer, report::answers::raised_count(e.notices));
    report::answers::raised(page, port, e.notices);
}

// Why a setting change is refused as invalid, where it is. Only one that names a feature is.
fn invalid(a: Answer, change: Change, octets: &[u8]) -> Option<Fault> {
    let Err(r) = a else {
        return None;
    };
    let Change::Setting(number, _) = change else {
        return None;
    };
    let Ok(feature) = Feature::try_from(number) else {
        return None;
    };
    if r.why != Refusal::InvalidSetting {
        return None;
    }
    faults::fault_of(feature, octets)
}

// What happens at a port. The refusal of a setting says why it is invalid.
fn happen(
    page: &mut Output,
    port: Option<u8>,
    p: Port,
    l: Log,
    change: Change,
    octets: &[u8],
) -> Step {
    let n = addressing::port_meant(port);
    let e = recorder::apply(n, p, change, octets);
    match invalid(e.answer, change, octets) {
        Some(fault) => report::errors::invalid(page, fault),
        None => answered(page, port, e),
    }
    Step {
        port: e.port,
        log: logging::keep(l, n, e.notices),
    }
}

fn take(page: &mut Output, n: u8, p: Port, l: Log) -> Step {
    let t = logging::take(n, l);
    match t.answer {
        Ok(notice) => report::answers::notice(page, notice),
        Err(why) => report::answers::refused(page, why),
    }
    Step {
        port: p,
        log: t.log,
    }
}

// The frame that a request to write into so much room gives, or its refusal.
fn write(page: &mut Output, n: u8, p: Port, room: usize) {
    let mut space = [0; 1000];
    let end = room.min(1000);
    match recorder::write(n, p, &mut space[..end]) {
        Ok(k) => report::answers::frame(page, octets::first(&space, k)),
        Err(why) => report::answers::refused(page, why),
    }
}

// The state of a port whose number the line gave: it stands in front of each line, so the lines are put on a page of their own first.
fn show_numbered(page: &mut Output, port: u8, p: &Port, l: &Log) {
    let mut lines = Page::new();
    report::states::show(&mut lines, p, l, port);
    report::ports::others(page, Some(port), lines.as_slice());
}

// The state of a port, or the refusal of a number that names none.
fn show(page: &mut Output, port: Option<u8>, p: &Port, l: &Log) {
    let n = addressing::port_meant(port);
    if !logging::is_port(n) {
        report::answers::refused(page, Refusal::NoPort);
        return;
    }
    match port {
        Some(given) => show_numbered(page, given, p, l),
        None => report::states::show(page, p, l, n),
    }
}

// The event that a line says. A line of the settings has no answer.
fn answer(page: &mut Output, port: Option<u8>, p: Port, l: Log, line: &Line) -> Step {
    let n = addressing::port_meant(port);
    let octets = line.octets.as_slice();
    match line.kind {
        Kind::Take => take(page, n, p, l),
        Kind::Frame => happen(page, port, p, l, Change::Frame, octets),
        Kind::Write(room) => {
            write(page, n, p, room);
            Step { port: p, log: l }
        }
        Kind::Show => {
            show(page, port, &p, &l);
            Step { port: p, log: l }
        }
        kind => match judgement::told_by(kind) {
            Some(change) => happen(page, port, p, l, change, octets),
            None => Step { port: p, log: l },
        },
    }
}

// The event on one line, which is the line with a number: what it says behind its port, which is `p`. A line that is passed
// over has no answer.
pub fn event(
    page: &mut Output,
    port: Option<u8>,
    p: Port,
    l: Log,
    number: u64,
    said: &[u8],
) -> Step {
    if port.is_none() && addressing::is_passed_over(said) {
        return Step { port: p, log: l };
    }
    match script::parse_event(said) {
        Ok(line) => answer(page, port, p, l, &line),
        Err(why) => {
            report::errors::unread(page, false, number, port, why);
            Step { port: p, log: l }
        }
    }
}
